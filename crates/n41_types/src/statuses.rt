/// The status of an operation (RFC 8881, nfsstat4). A number without a name here is kept as it is.
#[derive(Clone, Copy, Debug, PartialEq, Eq)]
pub struct Status(pub u32);

impl Status {
    pub const OK: Status = Status(0);

    pub const PERM: Status = Status(1);

    pub const NOENT: Status = Status(2);

    pub const IO: Status = Status(5);

    pub const ACCESS: Status = Status(13);

    pub const EXIST: Status = Status(17);

    pub const NOTDIR: Status = Status(20);

    pub const ISDIR: Status = Status(21);

    pub const INVAL: Status = Status(22);

    pub const FBIG: Status = Status(27);

    pub const NOSPC: Status = Status(28);

    pub const ROFS: Status = Status(30);

    pub const NAMETOOLONG: Status = Status(63);

    pub const NOTEMPTY: Status = Status(66);

    pub const STALE: Status = Status(70);

    pub const BADHANDLE: Status = Status(10001);

    pub const NOTSUPP: Status = Status(10004);

    pub const SERVERFAULT: Status = Status(10006);

    pub const DELAY: Status = Status(10008);

    pub const DENIED: Status = Status(10010);

    pub const EXPIRED: Status = Status(10011);

    pub const LOCKED: Status = Status(10012);

    pub const GRACE: Status = Status(10013);

    pub const SHARE_DENIED: Status = Status(10015);

    pub const CLID_INUSE: Status = Status(10017);

    pub const NOFILEHANDLE: Status = Status(10020);

    pub const MINOR_VERS_MISMATCH: Status = Status(10021);

    pub const STALE_CLIENTID: Status = Status(10022);

    pub const STALE_STATEID: Status = Status(10023);

    pub const OLD_STATEID: Status = Status(10024);

    pub const BAD_STATEID: Status = Status(10025);

    pub const NO_GRACE: Status = Status(10033);

    pub const RECLAIM_BAD: Status = Status(10034);

    pub const RECLAIM_CONFLICT: Status = Status(10035);

    pub const BADXDR: Status = Status(10036);

    pub const LOCKS_HELD: Status = Status(10037);

    pub const OPENMODE: Status = Status(10038);

    pub const OP_ILLEGAL: Status = Status(10044);

    pub const ADMIN_REVOKED: Status = Status(10047);

    pub const BADSESSION: Status = Status(10052);

    pub const BADSLOT: Status = Status(10053);

    pub const COMPLETE_ALREADY: Status = Status(10054);

    pub const CONN_NOT_BOUND_TO_SESSION: Status = Status(10055);

    pub const SEQ_MISORDERED: Status = Status(10063);

    pub const SEQUENCE_POS: Status = Status(10064);

    pub const REQ_TOO_BIG: Status = Status(10065);

    pub const REP_TOO_BIG: Status = Status(10066);

    pub const REP_TOO_BIG_TO_CACHE: Status = Status(10067);

    pub const RETRY_UNCACHED_REP: Status = Status(10068);

    pub const TOO_MANY_OPS: Status = Status(10070);

    pub const OP_NOT_IN_SESSION: Status = Status(10071);

    pub const CLIENTID_BUSY: Status = Status(10074);

    pub const SEQ_FALSE_RETRY: Status = Status(10076);

    pub const DEADSESSION: Status = Status(10078);

    pub const NOT_ONLY_OP: Status = Status(10081);

    pub const DELEG_REVOKED: Status = Status(10087);
}

/// The status by which the state of a handle was lost.
#[derive(Clone, Copy, Debug, PartialEq, Eq)]
pub struct Loss(pub Status);
