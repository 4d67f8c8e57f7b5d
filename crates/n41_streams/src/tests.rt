use super::*;
use n41_mem::{MemSink, MemSource};
use std::test::Fail;

#[test]
fn a_source_is_read_to_its_end(rt: HostRuntime) -> Result<(), Fail> {
    let alloc = rt.alloc();
    let mut source = MemSource::new(alloc, b"abcde", &[])?;
    let Ok(bytes) = read_all(alloc, &mut source, 5) else {
        assert_eq!(rt; 0, 1);
        return Ok(());
    };
    assert_eq!(rt; bytes.as_slice(), b"abcde".as_slice());
    Ok(())
}

#[test]
fn a_long_source_and_one_that_fails_are_refused(rt: HostRuntime) -> Result<(), Fail> {
    let alloc = rt.alloc();
    let mut long = MemSource::new(alloc, b"abcde", &[])?;
    assert!(rt; matches!(read_all(alloc, &mut long, 4), Err(ReadFault::TooLong)));
    let mut failing = MemSource::new(alloc, b"abcde", &[2])?;
    assert!(rt; matches!(read_all(alloc, &mut failing, 5), Err(ReadFault::Failed)));
    Ok(())
}

#[test]
fn a_text_is_written(rt: HostRuntime) -> Result<(), Fail> {
    let alloc = rt.alloc();
    let mut sink = MemSink::new(alloc, &[])?;
    assert!(rt; put_all(&mut sink, b"abc").is_ok());
    let mut failing = MemSink::new(alloc, &[1])?;
    assert!(rt; put_all(&mut failing, b"abc").is_err());
    Ok(())
}
