use super::*;
use n41_mem::{MemSink, MemSource, SureSink, SureSource};
use std::alloc::{AllocError, Global};
use std::process::Abort;
use std::test::Fail;

/// What a dump of these bytes answers and prints.
fn see_dump(
    rt: &impl Abort,
    alloc: Global,
    side: Side,
    bytes: &[u8],
    want: Result<(), DumpFault>,
    text: &str,
) -> Result<(), AllocError> {
    let mut source = SureSource::new(alloc, bytes)?;
    let mut sink = SureSink::new(alloc);
    let answer = dump(alloc, side, &mut source, &mut sink);
    assert!(rt; answer == want);
    assert_eq!(rt; sink.bytes(), text.as_bytes());
    Ok(())
}

/// An answer with xid 1 to EXCHANGE_ID, with OK, client 7 and no name.
const ANSWER: &[u8] =
    b"\x80\0\0\x5c\0\0\0\x01\0\0\0\x01\0\0\0\0\0\0\0\0\0\0\0\0\0\0\0\0\0\0\0\0\0\0\0\0\0\0\0\x01\0\0\0*\0\0\0\0\0\0\0\0\0\0\0\x07\0\0\0\x01\0\x01\0\0\0\0\0\0\0\0\0\0\0\0\0\0\0\0\0\x03srv\0\0\0\0\x03srv\0\0\0\0\0";

#[test]
fn records_are_printed(rt: HostRuntime) -> Result<(), Fail> {
    see_dump(
        &rt,
        rt.alloc(),
        Side::Server,
        ANSWER,
        Ok(()),
        "1 reply xid 1 status 0 ops 42:0\nrest 0\n",
    )?;
    Ok(())
}

#[test]
fn what_is_left_is_counted(rt: HostRuntime) -> Result<(), Fail> {
    see_dump(
        &rt,
        rt.alloc(),
        Side::Client,
        b"\x80\0\0\x04\0\0\0\x09\x80",
        Ok(()),
        "1 bad 00000009\nrest 1\n",
    )?;
    see_dump(
        &rt,
        rt.alloc(),
        Side::Client,
        b"\x80\0\0\0\0\0\0\x01\x0a\x80\0\0\x01\x0b\x80\0\0\x02\x0c",
        Ok(()),
        "1 bad -\n2 bad 0a0b\nrest 5\n",
    )?;
    see_dump(&rt, rt.alloc(), Side::Server, b"", Ok(()), "rest 0\n")?;
    Ok(())
}

#[test]
fn a_record_that_is_too_long_stops(rt: HostRuntime) -> Result<(), Fail> {
    see_dump(
        &rt,
        rt.alloc(),
        Side::Client,
        b"\x80\0\0\x01\x07\x80\x11\0\x01\x80\0\0\0",
        Ok(()),
        "1 bad 07\nstop long\n",
    )?;
    Ok(())
}

/// What a dump of this many zeros answers.
fn dump_zeros(alloc: Global, count: usize, sink: &mut SureSink) -> Result<(), DumpFault> {
    let Ok(zeros) = vec![in alloc; 0u8; count] else {
        return Err(DumpFault::NoMemory);
    };
    let Ok(mut source) = SureSource::new(alloc, &zeros) else {
        return Err(DumpFault::NoMemory);
    };
    dump(alloc, Side::Server, &mut source, sink)
}

#[test]
fn a_record_of_too_many_fragments_stops(rt: HostRuntime) {
    let mut sink = SureSink::new(rt.alloc());
    let answer = dump_zeros(rt.alloc(), 16_777_216, &mut sink);
    assert!(rt; answer == Ok(()));
    assert_eq!(rt; sink.bytes(), b"stop many\n".as_slice());
}

#[test]
fn a_longer_stream_is_refused(rt: HostRuntime) {
    let mut sink = SureSink::new(rt.alloc());
    let answer = dump_zeros(rt.alloc(), 16_777_217, &mut sink);
    assert!(rt; answer == Err(DumpFault::Limit));
}

#[test]
fn a_source_that_fails_is_told(rt: HostRuntime) -> Result<(), Fail> {
    let mut source = MemSource::new(rt.alloc(), b"\x80\0\0\0\x80\0\0\0", &[2])?;
    let mut sink = SureSink::new(rt.alloc());
    let answer = dump(rt.alloc(), Side::Client, &mut source, &mut sink);
    assert!(rt; answer == Err(DumpFault::ReadFault));
    assert_eq!(rt; sink.bytes(), b"1 bad -\n2 bad -\n".as_slice());
    Ok(())
}

#[test]
fn a_sink_that_fails_is_told(rt: HostRuntime) -> Result<(), Fail> {
    let mut source = SureSource::new(rt.alloc(), b"\x80\0\0\0\x80\0\0\0")?;
    let mut sink = MemSink::new(rt.alloc(), &[2])?;
    let answer = dump(rt.alloc(), Side::Client, &mut source, &mut sink);
    assert!(rt; answer == Err(DumpFault::WriteFault));
    assert_eq!(rt; sink.inner().bytes(), b"1 bad -\n".as_slice());
    Ok(())
}
