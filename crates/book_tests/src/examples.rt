// What a book answers on small texts.
use crate::asking::Asked::*;
use crate::asking::{Asked, Said, answered, both, buckets, rows};
use book::Reading;
use registers::{Pair, Register};
use std::alloc::Global;
use std::process::Abort;
use std::test::Fail;

// His and C are two notes as they are written, and one as they sound.
#[test]
fn readings(rt: HostRuntime) -> Result<(), Fail> {
    let text = b"german His4/4 C5/4";
    both(
        &rt,
        rt.alloc(),
        100,
        &[
            (Read(Reading::Written, text), Said::Took(2)),
            (Read(Reading::Sounding, text), Said::Took(2)),
            (Read(Reading::Bare, text), Said::Took(2)),
            (Group(0), Said::Told(7)),
            (Group(1), Said::Told(11)),
            (Group(2), Said::Told(15)),
            (Group(3), Said::Told(15)),
            (Group(4), Said::Told(17)),
        ],
    )
}

// A reading that is stopped keeps the words before.
#[test]
fn stopped(rt: HostRuntime) -> Result<(), Fail> {
    both(
        &rt,
        rt.alloc(),
        100,
        &[
            (
                Read(Reading::Written, b"r/4 r/4 bar:3 r/4"),
                Said::Stopped(31, 8),
            ),
            (Words, Said::Told(2)),
            (Tops, Said::Told(2)),
            (
                Read(Reading::Written, b"bar:2 Hes4/4"),
                Said::Stopped(13, 6),
            ),
            (Words, Said::Told(3)),
            (Tops, Said::Told(1)),
        ],
    )
}

#[test]
fn closed_and_reopened(rt: HostRuntime) -> Result<(), Fail> {
    both(
        &rt,
        rt.alloc(),
        100,
        &[
            (Read(Reading::Written, b"bar:0 bar:0"), Said::Took(2)),
            (Repeats, Said::NotAllowed),
            (Close, Said::Done),
            (Repeats, Said::Told(1)),
            (Take(2), Said::NotAllowed),
            (Close, Said::NotAllowed),
            (Reopen, Said::Done),
            (Reopen, Said::NotAllowed),
            (Take(2), Said::Taken(9, 0)),
            (Take(0), Said::Taken(11, 3)),
            (Close, Said::Done),
            (Repeats, Said::Told(1)),
            (Words, Said::Told(4)),
        ],
    )
}

const WANTED: [(Asked, Said); 2] = [(Take(0), Said::Taken(4, 0)), (Take(1), Said::Taken(8, 0))];

// A book over a register that holds a pair, and a second one over the register that the first hands back.
fn handed_on<R: Register + Drop>(
    rt: &impl Abort,
    heap: Global,
    mut register: R,
) -> Result<(), Fail> {
    let pair = Pair {
        first: 9,
        second: 9,
    };
    assert_eq!(rt; register.number(pair), Some(1));
    let register = answered(rt, heap, register, &WANTED)?;
    assert_eq!(rt; register.count(), 8);
    let register = answered(rt, heap, register, &WANTED)?;
    assert_eq!(rt; register.count(), 8);
    Ok(())
}

#[test]
fn two_books(rt: HostRuntime) -> Result<(), Fail> {
    handed_on(&rt, rt.alloc(), rows(rt.alloc(), 100)?)?;
    handed_on(&rt, rt.alloc(), buckets(rt.alloc(), 100)?)
}
