use crate::{Cause, Event, Journal};
use n41_types::{Bytes, Command, Label};
use std::alloc::{AllocError, Global};

fn sent<T: Send>(value: T) -> T {
    value
}

fn is_pushed(journal: &mut Journal, event: Event) -> bool {
    journal.push(event).is_ok()
}

fn ticked(journal: &mut Journal, moments: u64) -> bool {
    for moment in 0..moments {
        if !is_pushed(journal, Event::Ticked { moment }) {
            return false;
        }
    }
    true
}

fn broken(journal: &mut Journal) -> Result<(), AllocError> {
    journal.reserve(1)?;
    journal.add(Event::Broke {
        conn: 7,
        cause: Cause::Old(3),
    });
    Ok(())
}

fn moment_at(journal: &Journal, place: u64) -> Option<u64> {
    match journal.get(place) {
        Some(Event::Ticked { moment }) => Some(*moment),
        _ => None,
    }
}

#[test]
fn events_keep_their_places(rt: HostRuntime) {
    let mut journal = sent(Journal::new(rt.alloc()));
    assert!(rt; ticked(&mut journal, 100_000));
    assert!(rt; broken(&mut journal).is_ok());
    assert_eq!(rt; journal.len(), 100_001);
    for (place, want) in [
        (0, None),
        (1, Some(0)),
        (100_000, Some(99_999)),
        (100_001, None),
        (100_002, None),
    ] {
        assert_eq!(rt; moment_at(&journal, place), want);
    }
}

fn event(alloc: Global) -> Result<Event, AllocError> {
    Ok(Event::Began {
        caller: 1,
        number: 2,
        command: Command::Close {
            label: Label::new(Bytes::copy_from_slice(alloc, b"f")?),
        },
        moment: 3,
    })
}

fn copy_is_equal(event: &Event) -> Result<bool, AllocError> {
    let copy = event.clone()?;
    Ok(copy == *event)
}

fn is_copied(alloc: Global) -> Result<bool, AllocError> {
    let event = event(alloc)?;
    copy_is_equal(&event)
}

#[test]
fn a_copy_of_an_event_is_equal(rt: HostRuntime) {
    assert_eq!(rt; is_copied(rt.alloc()), Ok(true));
}
