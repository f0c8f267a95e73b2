// Each limit, and one past it.
use crate::asking::Asked::*;
use crate::asking::{Said, both};
use book::Reading;
use std::test::Fail;

const NOTE: &[u8] = b"german H3/4";

#[test]
fn words(rt: HostRuntime) -> Result<(), Fail> {
    let heap = rt.alloc();
    let text = b"r/1 ".repeat(heap, 4_095)?;
    both(
        &rt,
        heap,
        100,
        &[
            (Read(Reading::Bare, &text), Said::Took(4_095)),
            (Read(Reading::Bare, b"r/1 r/1"), Said::Stopped(32, 4)),
            (Take(1), Said::Refused(32)),
            (Words, Said::Told(4_096)),
        ],
    )
}

// A written note has seven items: a place for each has to be free, also where its like is held already.
#[test]
fn places(rt: HostRuntime) -> Result<(), Fail> {
    let note = Read(Reading::Written, NOTE);
    let full = Said::Stopped(33, 7);
    both(&rt, rt.alloc(), 6, &[(note, full)])?;
    both(&rt, rt.alloc(), 13, &[(note, Said::Took(1)), (note, full)])?;
    both(
        &rt,
        rt.alloc(),
        14,
        &[(note, Said::Took(1)), (note, Said::Took(1))],
    )
}

#[test]
fn ranks(rt: HostRuntime) -> Result<(), Fail> {
    let heap = rt.alloc();
    let text = b"bar:0 ".repeat(heap, 255)?;
    both(
        &rt,
        heap,
        300,
        &[
            (Read(Reading::Bare, &text), Said::Took(255)),
            (Take(255), Said::Taken(261, 0)),
            (Tops, Said::Told(1)),
            (Take(2), Said::Refused(31)),
        ],
    )
}

#[test]
fn bytes(rt: HostRuntime) -> Result<(), Fail> {
    let heap = rt.alloc();
    let text = vec![in heap; b' '; 65_536]?;
    let longer = vec![in heap; b' '; 65_537]?;
    both(
        &rt,
        heap,
        100,
        &[
            (Read(Reading::Written, &text), Said::Took(0)),
            (Read(Reading::Written, &longer), Said::Stopped(10, 0)),
        ],
    )
}

#[test]
fn positions(rt: HostRuntime) -> Result<(), Fail> {
    both(
        &rt,
        rt.alloc(),
        100,
        &[
            (Take(0), Said::Taken(3, 0)),
            (Take(1), Said::Taken(7, 0)),
            (Group(1), Said::Told(7)),
            (Group(2), Said::Refused(41)),
            (Start(1), Said::Told(0)),
            (Start(2), Said::Refused(41)),
            (Close, Said::Done),
            (Group(1), Said::Told(7)),
            (Group(2), Said::Refused(41)),
            (Start(1), Said::Told(0)),
            (Start(2), Said::Refused(41)),
        ],
    )
}
