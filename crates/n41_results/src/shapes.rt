/// The first thing in which a reply is not one to its request.
#[derive(Clone, Copy, Debug, PartialEq, Eq)]
pub enum Shape {
    /// It has this number, and the request another.
    Xid(u32),
    /// The result at this place, from 0, is not that of the operation `op` which was asked there; where none was asked, `op` is what was answered.
    Op { place: u32, op: u32 },
    /// It tells this attribute, which was not asked for.
    Attr(u32),
}
