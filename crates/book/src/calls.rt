// Calls on a book, and their answers, as data.
use crate::linking::Listed;
use crate::readings::Reading;
use names::{Fault, Refusal};

#[derive(Drop)]
pub enum Call<'a, N> {
    Take(N),
    Read(Reading, &'a [u8]),
    Close,
    Reopen,
    Words,
    Tops,
    Group(u32),
    Start(u32),
    Repeats,
    // A repeat's number, and the table for its ends, which comes back in the answer.
    List(u32, Vec<u32>),
}

#[derive(Drop)]
pub enum Answer {
    // A word's group number and its passage's start.
    Taken(Result<(u32, u32), Refusal>),
    // How many words a reading took.
    Took(Result<u32, Fault>),
    // Closed, or opened again.
    Done,
    // How many there are.
    Counted(u32),
    // A group number or a start.
    Told(Result<u32, Refusal>),
    // What was listed, with the table.
    Listed(Result<Listed, Refusal>, Vec<u32>),
    // The book does not allow the call as it stands.
    NotAllowed,
}
