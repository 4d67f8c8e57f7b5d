use crate::read_command;
use n41_types::{Bytes, Command, Label, LockKind, Mode, Name, Path, Sequence, Span};
use n41_words::{LineFault, LineKind};
use std::alloc::Global;

// The label `f`.
fn label(alloc: Global) -> Option<Label> {
    Some(Label::new(Bytes::copy_from_slice(alloc, b"f").ok()?))
}

fn path(alloc: Global, names: &[&[u8]]) -> Option<Path> {
    let mut path = Vec::new(alloc);
    for name in names {
        path.push(Name::of(alloc, name).ok()?).ok()?;
    }
    Sequence::from_vec(alloc, path).ok()
}

// The path `/d/e`.
fn below(alloc: Global) -> Option<Path> {
    path(alloc, &[b"d", b"e"])
}

fn created(alloc: Global, guarded: bool) -> Option<Command> {
    Some(Command::Create {
        label: label(alloc)?,
        path: below(alloc)?,
        guarded,
    })
}

fn opened(alloc: Global, mode: Mode) -> Option<Command> {
    Some(Command::OpenFile {
        label: label(alloc)?,
        path: path(alloc, &[])?,
        mode,
    })
}

fn gotten(alloc: Global, offset: u64, count: u32) -> Option<Command> {
    Some(Command::Read {
        label: label(alloc)?,
        offset,
        count,
    })
}

fn written(alloc: Global, offset: u64, bytes: &[u8]) -> Option<Command> {
    Some(Command::Write {
        label: label(alloc)?,
        offset,
        bytes: Bytes::copy_from_slice(alloc, bytes).ok()?,
    })
}

fn truncated(alloc: Global, size: u64) -> Option<Command> {
    Some(Command::Truncate {
        label: label(alloc)?,
        size,
    })
}

fn closed(alloc: Global) -> Option<Command> {
    Some(Command::Close {
        label: label(alloc)?,
    })
}

fn locked(alloc: Global, kind: LockKind, span: Span) -> Option<Command> {
    Some(Command::Lock {
        label: label(alloc)?,
        kind,
        span,
    })
}

fn lock_tested(alloc: Global, kind: LockKind, span: Span) -> Option<Command> {
    Some(Command::TestLock {
        label: label(alloc)?,
        kind,
        span,
    })
}

fn unlocked(alloc: Global, span: Span) -> Option<Command> {
    Some(Command::Unlock {
        label: label(alloc)?,
        span,
    })
}

fn renamed(alloc: Global) -> Option<Command> {
    Some(Command::Rename {
        from: below(alloc)?,
        to: path(alloc, &[b"g"])?,
    })
}

// Whether the text says this.
fn says(alloc: Global, text: &[u8], want: Option<Command>) -> bool {
    match (read_command(alloc, false, text), want) {
        (Ok(command), Some(want)) => command == want,
        _ => false,
    }
}

fn fault_of(alloc: Global, long: bool, text: &[u8]) -> Option<LineKind> {
    match read_command(alloc, long, text) {
        Err(LineFault::Kind(kind)) => Some(kind),
        _ => None,
    }
}

#[test]
fn files_are_opened(rt: HostRuntime) {
    let alloc = rt.alloc();
    assert!(rt; says(alloc, b"create f /d/e", created(alloc, false)));
    assert!(rt; says(alloc, b"new f  /d/e ", created(alloc, true)));
    assert!(rt; says(alloc, b"open f / r", opened(alloc, Mode::Read)));
    assert!(rt; says(alloc, b"open f / w", opened(alloc, Mode::Write)));
    assert!(rt; says(alloc, b"open f / rw", opened(alloc, Mode::Both)));
    assert!(rt; says(alloc, b"close f", closed(alloc)));
}

#[test]
fn files_are_written(rt: HostRuntime) {
    let alloc = rt.alloc();
    assert!(rt; says(alloc, b"read f 0 65536", gotten(alloc, 0, 65_536)));
    assert!(rt;
        says(
            alloc,
            b"write f 10 00fFa1",
            written(alloc, 10, &[0, 255, 161])
        )
    );
    assert!(rt;
        says(
            alloc,
            b"truncate f 18446744073709551615",
            truncated(alloc, u64::MAX)
        )
    );
}

#[test]
fn bytes_are_locked(rt: HostRuntime) {
    let alloc = rt.alloc();
    let all = Span { from: 7, len: None };
    let some = Span {
        from: 0,
        len: Some(9),
    };
    assert!(rt;
        says(
            alloc,
            b"lock f w 7 eof",
            locked(alloc, LockKind::Write, all)
        )
    );
    assert!(rt;
        says(
            alloc,
            b"testlock f r 0 9",
            lock_tested(alloc, LockKind::Read, some)
        )
    );
    assert!(rt; says(alloc, b"unlock f 0 9", unlocked(alloc, some)));
}

fn stat_of(path: Option<Path>) -> Option<Command> {
    Some(Command::Stat { path: path? })
}

fn list_of(path: Option<Path>) -> Option<Command> {
    Some(Command::List { path: path? })
}

fn made(path: Option<Path>) -> Option<Command> {
    Some(Command::MakeDir { path: path? })
}

fn removed(path: Option<Path>) -> Option<Command> {
    Some(Command::Remove { path: path? })
}

#[test]
fn directories_are_changed(rt: HostRuntime) {
    let alloc = rt.alloc();
    assert!(rt; says(alloc, b"stat /", stat_of(path(alloc, &[]))));
    assert!(rt; says(alloc, b"list /d/e", list_of(below(alloc))));
    assert!(rt; says(alloc, b"mkdir /d/e", made(below(alloc))));
    assert!(rt; says(alloc, b"remove /d/e", removed(below(alloc))));
    assert!(rt; says(alloc, b"rename /d/e /g", renamed(alloc)));
    assert!(rt; says(alloc, b"pause 600", Some(Command::Pause { seconds: 600 })));
}

#[test]
fn words_are_refused(rt: HostRuntime) {
    let cases: [(&[u8], LineKind); 9] = [
        (b"close F", LineKind::Name),
        (b"close plan", LineKind::Name),
        (b"stat d", LineKind::Path),
        (b"list /d//e", LineKind::Path),
        (b"remove /", LineKind::Path),
        (b"mkdir /d/..", LineKind::Path),
        (b"read f 01 1", LineKind::Number),
        (b"read f 0 0", LineKind::Number),
        (b"write f 0 abc", LineKind::Hex),
    ];
    for (text, kind) in cases {
        assert_eq!(rt; fault_of(rt.alloc(), false, text), Some(kind));
    }
}

#[test]
fn lines_are_refused(rt: HostRuntime) {
    let cases: [(&[u8], bool, LineKind); 8] = [
        (b"", false, LineKind::Command),
        (b"copy /d", false, LineKind::Command),
        (b"lock f rw 0 eof", false, LineKind::Command),
        (b"close", false, LineKind::Words),
        (b"close f g", false, LineKind::Words),
        (b"close f \x7f", false, LineKind::Byte),
        (b"close", true, LineKind::Limit),
        (b"close f", true, LineKind::Limit),
    ];
    for (text, long, kind) in cases {
        assert_eq!(rt; fault_of(rt.alloc(), long, text), Some(kind));
    }
}
