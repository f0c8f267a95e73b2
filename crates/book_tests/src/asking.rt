// Calls and answers as plain values, so that a test is a table of both.
use book::{Answer, Call, Node, Reading, perform_all};
use labels::Bare;
use registers::{Buckets, Pair, Register, Rows, Slot};
use std::alloc::{AllocError, Global};
use std::process::Abort;
use std::test::Fail;

// A `Call` holds a table and cannot be copied into a second run, as these can.
#[derive(Clone, Copy)]
pub enum Asked<'a> {
    // A bare node of the rank.
    Take(u8),
    Read(Reading, &'a [u8]),
    Close,
    Reopen,
    Words,
    Tops,
    Group(u32),
    Start(u32),
    Repeats,
}

#[derive(Clone, Copy, PartialEq, Eq, Debug)]
pub enum Said {
    Taken(u32, u32),
    Took(u32),
    Done,
    Told(u32),
    // The refusal's number in the list that callers print, and for a reading the byte. The number stands here, and not the
    // refusal, since it is the product's own, and these tests fix which refusal has which.
    Refused(u8),
    Stopped(u8, usize),
    NotAllowed,
    Other,
}

fn call_of<'a>(asked: Asked<'a>) -> Call<'a, Node<Bare>> {
    match asked {
        Asked::Take(rank) => Call::Take(Node { label: Bare, rank }),
        Asked::Read(reading, text) => Call::Read(reading, text),
        Asked::Close => Call::Close,
        Asked::Reopen => Call::Reopen,
        Asked::Words => Call::Words,
        Asked::Tops => Call::Tops,
        Asked::Group(position) => Call::Group(position),
        Asked::Start(position) => Call::Start(position),
        Asked::Repeats => Call::Repeats,
    }
}

fn said_of(answer: &Answer) -> Said {
    match answer {
        Answer::Taken(Ok((group, start))) => Said::Taken(*group, *start),
        Answer::Taken(Err(refusal)) => Said::Refused(refusal.number()),
        Answer::Took(Ok(words)) => Said::Took(*words),
        Answer::Took(Err(fault)) => Said::Stopped(fault.number(), fault.byte),
        Answer::Done => Said::Done,
        Answer::Counted(count) => Said::Told(*count),
        Answer::Told(Ok(number)) => Said::Told(*number),
        Answer::Told(Err(refusal)) => Said::Refused(refusal.number()),
        Answer::NotAllowed => Said::NotAllowed,
        _ => Said::Other,
    }
}

fn calls_of<'a>(
    heap: Global,
    wanted: &[(Asked<'a>, Said)],
) -> Result<Vec<Call<'a, Node<Bare>>>, AllocError> {
    wanted
        .iter()
        .map(|(asked, _)| call_of(*asked))
        .collect(heap)
}

// Performs the calls on a book over the register, which comes back where the answers are the wanted ones.
pub fn answered<R: Register + Drop>(
    rt: &impl Abort,
    heap: Global,
    register: R,
    wanted: &[(Asked, Said)],
) -> Result<R, Fail> {
    let calls = calls_of(heap, wanted)?;
    let (register, answers) = perform_all(heap, register, calls).map_err(|_register| Fail::new(
        "there is not enough memory",
    ))?;
    compare(rt, answers.as_slice(), wanted);
    Ok(register)
}

fn compare(rt: &impl Abort, answers: &[Answer], wanted: &[(Asked, Said)]) {
    assert_eq!(rt; answers.len(), wanted.len());
    for (answer, (_, said)) in answers.iter().zip(wanted.iter()) {
        assert_eq!(rt; said_of(answer), *said);
    }
}

pub fn rows(heap: Global, places: usize) -> Result<Rows, AllocError> {
    Ok(Rows::over(vec![in heap; Pair::default(); places]?))
}

pub fn buckets(heap: Global, places: usize) -> Result<Buckets, AllocError> {
    Ok(Buckets::over(
        vec![in heap; Slot::default(); places]?,
        vec![in heap; 0; 64]?,
    ))
}

// Performs the calls over each register.
pub fn both(
    rt: &impl Abort,
    heap: Global,
    places: usize,
    wanted: &[(Asked, Said)],
) -> Result<(), Fail> {
    let _rows = answered(rt, heap, rows(heap, places)?, wanted)?;
    let _buckets = answered(rt, heap, buckets(heap, places)?, wanted)?;
    Ok(())
}
