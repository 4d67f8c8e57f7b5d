use crate::{Clock, Input, MachineClock, Output, Sink, Source};
use std::test::Fail;

#[test]
fn readers_and_writers_of_the_library_give_and_take(rt: HostRuntime) -> Result<(), Fail> {
    let mut input = Input::new(b"abcde".as_slice());
    let mut buf = [0; 3];
    assert_eq!(rt; (input.read(&mut buf), buf), (Ok(3), *b"abc"));
    assert_eq!(rt; (input.read(&mut buf), buf[0], buf[1]), (Ok(2), b'd', b'e'));
    assert_eq!(rt; input.read(&mut buf), Ok(0));

    let mut written = Vec::new(rt.alloc());
    let mut output = Output::new(&mut written);
    assert_eq!(rt; output.write(b"line"), Ok(4));
    drop(output);
    assert_eq!(rt; written.as_slice(), b"line".as_slice());

    let mut full = [0; 2];
    let mut narrow = Output::new(full.as_mut_slice());
    assert_eq!(rt; narrow.write(b"xyz"), Ok(2));
    assert!(rt; narrow.write(b"z").is_err());
    Ok(())
}

#[test]
fn the_machine_tells_moments_that_do_not_fall(rt: HostRuntime) {
    let mut clock = MachineClock::new(&rt);
    let first = clock.now();
    clock.pause(1);
    let second = clock.now();
    assert!(rt; 0 < first && first <= second && clock.gave(second));
}
