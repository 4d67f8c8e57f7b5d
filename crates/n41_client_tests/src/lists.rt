// Listings of directories, over links that bring whole replies.

use crate::journals::cookies;
use crate::messages::{From, Says, Told};
use crate::runs::{Seen, over, see};
use crate::walks::all_around;
use n41_types::NoMemory;
use std::alloc::Global;
use std::sync::Wait;
use std::test::Fail;
use std::thread::Threads;

/// The walk to a directory, and then its names, the first of them `f1`, in parts of so many, of which the last may end it.
fn parts_of(alloc: Global, counts: &[u32], ends: bool) -> Result<Vec<Says>, NoMemory> {
    let mut list = Vec::new(alloc);
    list.push((5, Told::Walked(0, 3, From::Root, 1)))?;
    let mut first: u32 = 1;
    let mut turn: u32 = 4;
    for count in counts {
        let last = ends && list.len() == counts.len();
        let told = Told::Listed(0, turn, From::Handle, (first, *count, last));
        list.push((turn.saturating_add(2), told))?;
        first = first.saturating_add(*count);
        turn = turn.saturating_add(1);
    }
    Ok(list)
}

/// What is seen of a listing whose requests have these replies.
fn list_over<R: Threads + Wait + Sync>(
    rt: &R,
    alloc: Global,
    replies: &[Says],
) -> Result<Seen, Fail> {
    let pieces = all_around(alloc, replies)?;
    let seen = see(rt, alloc, over(b"a list /d\n", &[pieces.as_slice()]))?;
    Ok(seen)
}

#[test]
fn names_are_told_in_their_order(rt: HostRuntime) -> Result<(), Fail> {
    let alloc = rt.alloc();
    let cases: [(&[u32], bool, &[u8]); 6] = [
        (&[2, 1, 3], true, b"1 a names 6 f1 f2 f3 f4 f5 f6\n"),
        (&[1], true, b"1 a names 1 f1\n"),
        (&[0], true, b"1 a names 0\n"),
        (&[2, 0], true, b"1 a names 2 f1 f2\n"),
        // A part without names does not lead on.
        (&[2, 0], false, b"1 a names 2 f1 f2 more\n"),
        (&[0], false, b"1 a names 0 more\n"),
    ];
    for (counts, ends, text) in cases {
        let replies = parts_of(alloc, counts, ends)?;
        let seen = list_over(&rt, alloc, &replies)?;
        assert_eq!(rt; seen.sink.bytes(), text);
        assert_eq!(rt; seen.status, 0);
        assert_eq!(rt; seen.first.len(), replies.len().saturating_add(6));
    }
    Ok(())
}

#[test]
fn a_listing_goes_on_where_it_came_to(rt: HostRuntime) -> Result<(), Fail> {
    let alloc = rt.alloc();
    let seen = list_over(&rt, alloc, &parts_of(alloc, &[2, 1, 3], true)?)?;
    // Each cookie is the number of the last name, and each verifier tells the number of the first.
    let second = (2, [0, 0, 0, 7, 0, 0, 0, 1]);
    let third = (3, [0, 0, 0, 7, 0, 0, 0, 3]);
    let want = [(0, [0; 8]), second, third];
    assert!(rt; cookies(alloc, &seen.journal)?.as_slice() == want.as_slice());
    Ok(())
}

#[test]
fn the_root_is_listed(rt: HostRuntime) -> Result<(), Fail> {
    let alloc = rt.alloc();
    let replies = [(5, Told::Listed(0, 3, From::Root, (7, 2, true)))];
    let pieces = all_around(alloc, &replies)?;
    let seen = see(&rt, alloc, over(b"a list /\n", &[pieces.as_slice()]))?;
    assert_eq!(rt; seen.sink.bytes(), b"1 a names 2 f7 f8\n".as_slice());
    assert_eq!(rt; seen.status, 0);
    Ok(())
}

#[test]
fn a_listing_is_refused(rt: HostRuntime) -> Result<(), Fail> {
    let alloc = rt.alloc();
    let cases: [(&[u32], Says, &[u8]); 2] = [
        (&[], (6, Told::Unlisted(0, 4, 20)), b"1 a refused 20\n"),
        // What was listed before is not told.
        (&[2], (7, Told::Unlisted(0, 5, 5)), b"1 a refused 5\n"),
    ];
    for (counts, refusal, text) in cases {
        let mut replies = parts_of(alloc, counts, false)?;
        replies.push(refusal)?;
        let seen = list_over(&rt, alloc, &replies)?;
        assert_eq!(rt; seen.sink.bytes(), text);
        assert_eq!(rt; seen.status, 0);
    }
    Ok(())
}

/// The line of ten thousand names.
fn ten_thousand(alloc: Global, more: bool) -> Result<String, NoMemory> {
    let mut text = String::from_str(alloc, "1 a names 10000")?;
    for number in 1..=10_000u32 {
        text.push_str(&format!(in alloc; " f{number}")?)?;
    }
    text.push_str(if more { " more\n" } else { "\n" })?;
    Ok(text)
}

#[test]
fn ten_thousand_names_are_told_and_no_more(rt: HostRuntime) -> Result<(), Fail> {
    let alloc = rt.alloc();
    let n = 1000;
    for (count, ends, more) in [(n, true, false), (n, false, true), (1001, true, true)] {
        let counts = [n, n, n, n, n, n, n, n, n, count];
        let seen = list_over(&rt, alloc, &parts_of(alloc, &counts, ends)?)?;
        assert_eq!(rt; seen.status, 0);
        assert!(rt; seen.sink.bytes() == ten_thousand(alloc, more)?.as_bytes());
    }
    Ok(())
}
