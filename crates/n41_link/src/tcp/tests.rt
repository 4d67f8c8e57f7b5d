use super::*;
use crate::{Ear, EarGot, Mouth};
use std::test::Fail;

#[test]
fn records_pass_over_a_connection_of_this_machine(rt: HostRuntime) -> Result<(), Fail> {
    let listener = TcpListener::bind(&rt, "127.0.0.1:0")?;
    let at = listener.local_addr()?;
    let addr = format!(in rt.alloc(); "{at}")?;
    let dialed = TcpDialer::new(&rt).dial(&addr);
    assert!(rt; dialed.is_ok());
    let Ok((dialed_in, dialed_out)) = dialed else {
        return Ok(());
    };
    let mut house = TcpHouse {
        rt: &rt,
        listener: Some(listener),
        faults: 0,
    };
    let taken = house.accept(&addr);
    assert!(rt; taken.is_ok());
    let Ok((taken_in, taken_out)) = taken else {
        return Ok(());
    };
    assert!(rt; dialed_out.stream.nodelay()? && taken_out.stream.nodelay()?);
    let mut mouth = Mouth::new(rt.alloc(), dialed_out);
    assert_eq!(rt; mouth.say(b"who is there"), Ok(()));
    let mut ear = Ear::new(rt.alloc(), taken_in);
    let heard = ear.whole();
    assert!(rt;
        matches!(&heard, Ok(EarGot::Whole(body)) if body.as_slice() == b"who is there".as_slice())
    );
    assert!(rt; matches!(&ear.whole(), Ok(EarGot::Quiet)));
    assert_eq!(rt; (ear.still(), ear.got()), (1, 16));
    drop(dialed_in);
    drop(mouth);
    assert!(rt; matches!(&ear.whole(), Ok(EarGot::End)));
    drop(taken_out);
    Ok(())
}

#[test]
fn a_dial_to_nobody_fails(rt: HostRuntime) -> Result<(), Fail> {
    let listener = TcpListener::bind(&rt, "127.0.0.1:0")?;
    let at = listener.local_addr()?;
    drop(listener);
    let addr = format!(in rt.alloc(); "{at}")?;
    assert!(rt; TcpDialer::new(&rt).dial(&addr).is_err());
    Ok(())
}
