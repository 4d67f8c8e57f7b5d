use crate::{Words, read_answer};
use n41_types::{Answer, Bytes, Loss, NoMemory, Status, Texts, Value};
use n41_words::{LineFault, LineKind};
use std::alloc::Global;

fn says(alloc: Global, line: &[u8], want: &Answer) -> bool {
    match read_answer(alloc, &mut Words::new(line)) {
        Ok(answer) => answer == *want,
        Err(_) => false,
    }
}

fn gives(alloc: Global, line: &[u8], want: Value) -> bool {
    says(alloc, line, &Answer::Done(want))
}

fn fault_of(alloc: Global, line: &[u8]) -> Option<LineKind> {
    match read_answer(alloc, &mut Words::new(line)) {
        Err(LineFault::Kind(kind)) => Some(kind),
        _ => None,
    }
}

#[test]
fn plain_answers_are_read(rt: HostRuntime) {
    let alloc = rt.alloc();
    let cases: [(&[u8], Value); 10] = [
        (b"opened", Value::Opened),
        (b"locked", Value::Locked),
        (b" unlocked ", Value::Unlocked),
        (b"free", Value::Free),
        (b"truncated", Value::Truncated),
        (b"closed", Value::Closed),
        (b"made", Value::Made),
        (b"removed", Value::Removed),
        (b"renamed", Value::Renamed),
        (b"paused", Value::Paused),
    ];
    for (line, want) in cases {
        assert!(rt; gives(alloc, line, want));
    }
}

#[test]
fn numbered_answers_are_read(rt: HostRuntime) {
    let alloc = rt.alloc();
    let cases: [(&[u8], Answer); 7] = [
        (
            b"wrote 4294967295",
            Answer::Done(Value::Wrote(4_294_967_295)),
        ),
        (b"refused 2", Answer::Refused(Status::NOENT)),
        (b"unknown", Answer::Unknown),
        (b"lost 10033", Answer::StateLost(Loss(Status::NO_GRACE))),
        (
            b"unreachable 18446744073709551615",
            Answer::Unreachable(u64::MAX),
        ),
        (b"not  open", Answer::NotOpen),
        (b"breach 7", Answer::Breach(7)),
    ];
    for (line, want) in cases {
        assert!(rt; says(alloc, line, &want));
    }
}

fn is_data(alloc: Global, line: &[u8], bytes: &[u8], last: bool) -> Result<bool, NoMemory> {
    let bytes = Bytes::copy_from_slice(alloc, bytes)?;
    Ok(gives(alloc, line, Value::Got { bytes, last }))
}

#[test]
fn data_is_read(rt: HostRuntime) -> Result<(), NoMemory> {
    let alloc = rt.alloc();
    assert!(rt; is_data(alloc, b"data - end", b"", true)?);
    assert!(rt; is_data(alloc, b"data - more", b"", false)?);
    assert!(rt; is_data(alloc, b"data 00aFFf end", b"\x00\xaf\xff", true)?);
    Ok(())
}

#[test]
fn attributes_are_read(rt: HostRuntime) {
    let alloc = rt.alloc();
    let whole = Value::Stat {
        kind: 2,
        size: u64::MAX,
        fileid: Some(1),
        mode: Some(0o755),
    };
    let line = b"stat type 2 size 18446744073709551615 fileid 1 mode 0755";
    assert!(rt; gives(alloc, line, whole));
    let bare = Value::Stat {
        kind: 1,
        size: 0,
        fileid: None,
        mode: None,
    };
    assert!(rt; gives(alloc, b"stat type 1 size 0 fileid - mode -", bare));
    let high = Value::Stat {
        kind: 1,
        size: 0,
        fileid: None,
        mode: Some(u32::MAX),
    };
    assert!(rt; gives(alloc, b"stat type 1 size 0 fileid - mode 37777777777", high));
}

fn texts_of(alloc: Global, names: &[&[u8]]) -> Result<Texts, NoMemory> {
    let mut texts = Vec::new(alloc);
    for name in names {
        texts.push(Bytes::copy_from_slice(alloc, name)?)?;
    }
    Ok(Texts::from_vec(texts))
}

fn is_list(alloc: Global, line: &[u8], names: &[&[u8]], more: bool) -> Result<bool, NoMemory> {
    let names = texts_of(alloc, names)?;
    Ok(gives(alloc, line, Value::Names { names, more }))
}

#[test]
fn names_are_read(rt: HostRuntime) -> Result<(), NoMemory> {
    let alloc = rt.alloc();
    assert!(rt; is_list(alloc, b"names 0", &[], false)?);
    assert!(rt; is_list(alloc, b"names 0 more", &[], true)?);
    assert!(rt; is_list(alloc, b"names 1 more", &[b"more"], false)?);
    assert!(rt; is_list(alloc, b"names 1 more more", &[b"more"], true)?);

    assert!(rt;
        is_list(
            alloc,
            b"names 2 !~ %20%7F%25%AB more",
            &[b"!~", b" \x7f%\xab"],
            true
        )?
    );
    Ok(())
}

const DIGITS: [u8; 16] = *b"0123456789ABCDEF";

// The word of a name of one byte.
fn word_of(byte: u8) -> ([u8; 3], usize) {
    if byte > 0x20 && byte < 0x7f && byte != b'%' {
        return ([byte, b' ', b' '], 1);
    }
    let high = DIGITS[(byte / 16) as usize];
    let low = DIGITS[(byte % 16) as usize];
    ([b'%', high, low], 3)
}

#[test]
fn every_byte_is_read_in_a_name(rt: HostRuntime) -> Result<(), NoMemory> {
    let alloc = rt.alloc();
    for byte in 0..=255u8 {
        let (word, count) = word_of(byte);
        let mut line = Vec::new(alloc);
        line.extend_from_slice(b"names 1 ")?;
        line.extend_from_slice(&word)?;
        assert!(rt; is_list(alloc, &line, &[&[byte]], false)?);
        // A byte that stands for itself is not told by digits, and another one does not stand for itself.
        let mut other = Vec::new(alloc);
        other.extend_from_slice(b"names 1 x")?;
        if count == 1 {
            other.extend_from_slice(&[
                b'%',
                DIGITS[(byte / 16) as usize],
                DIGITS[(byte % 16) as usize],
            ])?;
            assert_eq!(rt; fault_of(alloc, &other), Some(LineKind::Command));
        } else if byte >= 0x80 || byte == b'%' {
            other.push(byte)?;
            assert_eq!(rt; fault_of(alloc, &other), Some(LineKind::Command));
        }
    }
    Ok(())
}

#[test]
fn other_words_are_refused(rt: HostRuntime) {
    let cases: [(&[u8], LineKind); 34] = [
        (b"", LineKind::Words),
        (b"Opened", LineKind::Command),
        (b"\x01pened", LineKind::Byte),
        (b"opened x", LineKind::Words),
        (b"opened \x7f", LineKind::Byte),
        (b"not", LineKind::Words),
        (b"not closed", LineKind::Command),
        (b"not open x", LineKind::Words),
        (b"wrote", LineKind::Words),
        (b"wrote 4294967296", LineKind::Number),
        (b"wrote 01", LineKind::Number),
        (b"wrote -", LineKind::Number),
        (b"refused 4294967296", LineKind::Number),
        (b"lost 2 x", LineKind::Words),
        (b"breach 18446744073709551616", LineKind::Number),
        (b"unreachable", LineKind::Words),
        (b"data", LineKind::Words),
        (b"data 0", LineKind::Hex),
        (b"data 0g end", LineKind::Hex),
        (b"data 00", LineKind::Words),
        (b"data 00 last", LineKind::Command),
        (b"data 00 end more", LineKind::Words),
        (b"stat kind 1", LineKind::Command),
        (b"stat type -", LineKind::Number),
        (b"stat type 1 size 0 fileid x", LineKind::Number),
        (b"stat type 1 size 0 fileid - mode 755", LineKind::Number),
        (
            b"stat type 1 size 0 fileid - mode 40000000000",
            LineKind::Number,
        ),
        (b"stat type 1 size 0 fileid - mode", LineKind::Words),
        (b"stat type 1 size 0 fileid - mode - x", LineKind::Words),
        (b"names x", LineKind::Number),
        (b"names 2 a", LineKind::Words),
        (b"names 18446744073709551615 a", LineKind::Words),
        (b"names 1 a b", LineKind::Words),
        (b"names 1 %2f", LineKind::Command),
    ];
    for (line, kind) in cases {
        assert_eq!(rt; fault_of(rt.alloc(), line), Some(kind));
    }
}
