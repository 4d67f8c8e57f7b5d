ghost use Rattle.std.specs.Prelude.{None, ◌≡◌, ◌≤◌};

use crate::{MemClock, MemInflow, MemListener, MemOutflow, MemSink, MemSource};
use n41_link::{
    Clock, Ear, EarFault, EarGot, Failed, Listener, Mouth, Outflow, SayFault, Sink, Source,
};
use n41_types::Bytes;
use std::alloc::Global;
use std::test::Fail;

fn pieces_of(alloc: Global, pieces: &[&[u8]]) -> Result<Vec<Bytes>, Fail> {
    let mut list = Vec::new(alloc);
    for piece in pieces {
        list.push(Bytes::copy_from_slice(alloc, piece)?)?;
    }
    Ok(list)
}

// What an ear answers to four calls, the quiets after each, and in the end the bytes read.
fn heard(alloc: Global, pieces: &[&[u8]], fails: &[u64]) -> Result<String, Fail> {
    let list = pieces_of(alloc, pieces)?;
    let mut ear = Ear::new(alloc, MemInflow::new(alloc, &list, fails)?);
    let mut story = String::new(alloc);
    for _ in 0..4 {
        let answer = match ear.whole() {
            Ok(EarGot::Whole(body)) => format!(in alloc; "{:?}", body.as_slice())?,
            Ok(EarGot::Quiet) => String::from_str(alloc, "quiet")?,
            Ok(EarGot::End) => String::from_str(alloc, "end")?,
            Err(EarFault::Gather(fault)) => format!(in alloc; "{fault}")?,
            Err(EarFault::Failed) => String::from_str(alloc, "failed")?,
            Err(EarFault::NoMemory) => String::from_str(alloc, "no memory")?,
        };
        let still = ear.still();
        story.push_str(&format!(in alloc; "{answer} {still}, ")?)?;
    }
    let got = ear.got();
    story.push_str(&format!(in alloc; "{got}")?)?;
    Ok(story)
}

#[test]
fn an_ear_hears_records_however_they_are_cut(rt: HostRuntime) -> Result<(), Fail> {
    let mark: &[u8] = &[0x80, 0, 0, 2];
    let rows: [(&[&[u8]], &[u64], &str); 8] = [
        (
            &[&[0x80], &[0], &[0], &[2], &[7], &[8]],
            &[],
            "[7, 8] 0, end 0, end 0, end 0, 6",
        ),
        (
            &[&[0x80, 0, 0, 1, 7, 0x80, 0, 0, 0, 0x80, 0, 0, 1, 9]],
            &[],
            "[7] 0, [] 0, [9] 0, end 0, 14",
        ),
        (
            &[&[], mark, &[], &[], &[7, 8]],
            &[],
            "quiet 1, quiet 1, quiet 2, [7, 8] 0, 6",
        ),
        (&[mark, &[7]], &[], "end 0, end 0, end 0, end 0, 5"),
        (
            &[&[0, 0, 0, 1, 7, 0x80, 0], &[0, 1, 8], &[0, 0, 0, 1, 9]],
            &[],
            "[7, 8] 0, end 0, end 0, end 0, 15",
        ),
        (
            &[&[0x80, 0, 0, 1, 7, 0x80, 0x11, 0, 1]],
            &[],
            "[7] 0, a record of 1114113 bytes or more 0, a record of 1114113 bytes or more 0, a record of 1114113 bytes or more 0, 9",
        ),
        (
            &[&[0x80, 0x11, 0, 0], &[]],
            &[],
            "quiet 1, end 1, end 1, end 1, 4",
        ),
        (
            &[&[], mark, &[7, 8]],
            &[3],
            "quiet 1, failed 0, failed 0, failed 0, 4",
        ),
    ];
    for (pieces, fails, want) in rows {
        let story = heard(rt.alloc(), pieces, fails)?;
        assert_eq!(rt; story.as_str(), want);
    }
    Ok(())
}

// Takes so many bytes at once, counts its calls, and fails at one of them.
#[derive(Drop)]
struct Narrow {
    put: Vec<u8>,
    most: usize,
    calls: u64,
    fails: u64,
    faults: u64,
    ghost some: { 1 ≤ most },
}

impl Outflow for Narrow {
    ghost put = { λ _. None };

    ghost faults = { λ n. n.faults };

    fn write(&mut self, piece: &[u8]) -> Result<usize, Failed> {
        self.calls = self.calls.saturating_add(1);
        let len = piece.len().min(self.most);
        if self.calls == self.fails || self.put.extend_from_slice(&piece[..len]).is_err() {
            self.faults = self.faults.saturating_add(1);
            return Err(Failed);
        }
        Ok(len)
    }
}

#[test]
fn a_mouth_says_each_record_in_one_call_where_it_is_taken_whole(
    rt: HostRuntime,
) -> Result<(), Fail> {
    let whole: &[u8] = &[0x80, 0, 0, 3, 7, 8, 9, 0x80, 0, 0, 0];
    let rows: [(usize, u64, usize, u64, bool); 4] = [
        (1000, 0, 11, 2, true),
        (3, 0, 11, 5, true),
        (3, 3, 6, 3, false),
        (1000, 2, 7, 2, false),
    ];
    for (most, fails, said, calls, ok) in rows {
        let outflow = Narrow {
            put: Vec::new(rt.alloc()),
            most: most.max(1),
            calls: 0,
            fails,
            faults: 0,
        };
        let mut mouth = Mouth::new(rt.alloc(), outflow);
        let first = mouth.say(&[7, 8, 9]);
        let second = mouth.say(&[]);
        assert_eq!(rt; first.is_ok() && second.is_ok(), ok);
        assert!(rt; ok || second == Err(SayFault::Failed));
        assert!(rt; said <= whole.len());
        assert_eq!(rt; mouth.outflow().put.as_slice(), &whole[..said], "at {most}");
        assert_eq!(rt; mouth.outflow().calls, calls, "at {most}");
    }
    Ok(())
}

#[test]
fn forms_in_memory_fail_at_the_calls_of_their_list(rt: HostRuntime) -> Result<(), Fail> {
    let alloc = rt.alloc();
    let mut source = MemSource::new(alloc, b"ab", &[2])?;
    let mut buf = [0; 1];
    assert_eq!(rt; (source.read(&mut buf), buf[0]), (Ok(1), b'a'));
    assert!(rt; source.read(&mut buf).is_err());
    assert_eq!(rt; (source.read(&mut buf), buf[0]), (Ok(1), b'b'));
    assert_eq!(rt; source.read(&mut buf), Ok(0));

    let mut sink = MemSink::new(alloc, &[1])?;
    assert!(rt; sink.write(b"lost").is_err());
    assert_eq!(rt; sink.write(b"kept"), Ok(4));
    assert_eq!(rt; sink.inner().bytes(), b"kept".as_slice());

    let mut links = Vec::new(alloc);
    links.push((
        MemInflow::new(alloc, &[], &[])?,
        MemOutflow::new(alloc, &[])?,
    ))?;
    let mut house = MemListener::new(alloc, links, &[1])?;
    assert!(rt; house.accept("x:1").is_err());
    assert!(rt; house.accept("x:1").is_ok());
    assert!(rt; house.accept("x:1").is_err());
    Ok(())
}

#[test]
fn a_clock_in_memory_moves_on_at_a_pause(rt: HostRuntime) -> Result<(), Fail> {
    let mut clock = MemClock::new(rt.alloc(), &[5, 9, 3])?;
    assert_eq!(rt; (clock.now(), clock.now()), (5, 5));
    clock.pause(2000);
    assert!(rt; !clock.gave(9));
    assert_eq!(rt; clock.now(), 9);
    clock.pause(1);
    clock.pause(1);
    assert_eq!(rt; clock.now(), 9);
    assert!(rt; clock.gave(5) && clock.gave(9) && !clock.gave(3));
    Ok(())
}
