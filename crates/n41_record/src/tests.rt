ghost use Rattle.std.specs.Prelude.{◌<◌};

use super::*;
use std::alloc::Global;
use std::process::Abort;
use std::test::*;

// A Gather may go to another thread, and be shared.
fn crosses_threads<T: Send + Sync>(_value: &T) {}

// Feeds a stream in pieces of a size, up to a fault, and compares what comes out.
fn reads<R: Abort>(
    rt: &R,
    alloc: Global,
    stream: &[u8],
    size: usize,
    records: &[&[u8]],
    rest: u64,
    fault: Option<GatherFault>,
) -> Result<(), Fail>
    requires { 0 < size }
{
    let mut gather = Gather::new(alloc);
    crosses_threads(&gather);
    for piece in stream.chunks(size) {
        if gather.feed(piece).is_err() {
            break;
        }
    }
    assert!(rt; gather.feed(&[]).err() == fault);
    for record in records {
        let bytes = gather.next().ok_or("a record waits")?;
        assert_eq!(rt; bytes.as_slice(), *record);
    }
    assert!(rt; gather.next().is_none());
    assert_eq!(rt; gather.rest_len(), rest);
    assert!(rt; gather.fault() == fault);
    Ok(())
}

const EMPTY: [u8; 6] = [0x80, 0, 0, 0, 0, 0];

const TWO_FRAGMENTS: [u8; 11] = [0, 0, 0, 2, 0x61, 0x62, 0x80, 0, 0, 1, 0x63];

const TWO_RECORDS: [u8; 15] = [0x80, 0, 0, 1, 7, 0, 0, 0, 0, 0x80, 0, 0, 2, 8, 9];

const LONG: [u8; 9] = [0x80, 0, 0, 1, 7, 0x80, 0x11, 0, 1];

const LONG_SUM: [u8; 10] = [0, 0, 0, 2, 1, 2, 0x80, 0x10, 0xff, 0xff];

const MARKED: [u8; 7] = [0x80, 0, 0, 3, 0x61, 0x62, 0x63];

#[test]
fn any_cutting_gives_the_same_records(rt: HostRuntime) -> Result<(), Fail> {
    for size in 1..12 {
        reads(&rt, rt.alloc(), &EMPTY, size, &[b""], 2, None)?;
        reads(&rt, rt.alloc(), &TWO_FRAGMENTS, size, &[b"abc"], 0, None)?;
        reads(
            &rt,
            rt.alloc(),
            &TWO_RECORDS,
            size,
            &[&[7], &[8, 9]],
            0,
            None,
        )?;
    }
    reads(
        &rt,
        rt.alloc(),
        &LONG,
        1,
        &[&[7]],
        4,
        Some(GatherFault::TooLong(1_114_113)),
    )?;
    reads(
        &rt,
        rt.alloc(),
        &LONG_SUM,
        1,
        &[],
        10,
        Some(GatherFault::TooLong(1_114_113)),
    )?;
    let zeros = vec![in rt.alloc(); 0u8; 16_388]?;
    reads(&rt, rt.alloc(), &zeros[..16_387], 16, &[], 16_387, None)?;
    reads(
        &rt,
        rt.alloc(),
        &zeros,
        16,
        &[],
        16_388,
        Some(GatherFault::TooMany),
    )?;
    let text = mark(rt.alloc(), b"abc")?;
    assert_eq!(rt; text.as_slice(), MARKED.as_slice());
    Ok(())
}
