// Arrangements of calls: performed one after another on one book.
ghost use Rattle.std.specs.Prelude.{◌≡◌, true, false, map, MatchResult};
ghost use Rattle.book.specs.Books.{held};
ghost use Rattle.book.specs.Questions.{Tells};
ghost use Rattle.book.specs.Arrangements.{question_answer};
ghost use Rattle.book.specs.Calls.{asked, said};
ghost use Rattle.book.specs.Performed.{standing, stand_of, Performs};
ghost use Rattle.book.specs.Law.{Law};

use crate::books::{Book, ClosedBook, Stage, TakingBook};
use crate::calls::{Answer, Call};
use crate::words::Takable;
use registers::Register;
use std::alloc::Global;

// A book in one of its two stages.
pub(crate) enum AnyBook<R: Register> {
    Taking(TakingBook<R>),
    Closed(ClosedBook<R>),
}

// A question that a book answers in either stage. Any other call is not allowed here.
fn ask<R: Register, S: Stage, N: Takable>(book: &Book<R, S>, question: &Call<N>) -> Answer
    ensures { Tells (held book.now) (said result) (question_answer (asked N.says question.now)) }
{
    match question {
        Call::Words => Answer::Counted(book.words()),
        Call::Tops => Answer::Counted(book.tops()),
        Call::Group(position) => Answer::Told(book.group(*position)),
        Call::Start(position) => Answer::Told(book.start(*position)),
        _ => Answer::NotAllowed,
    }
}

// One call on a book that takes words.
fn perform_taking<R: Register, N: Takable + Drop>(
    mut book: TakingBook<R>,
    call: Call<N>,
) -> (AnyBook<R>, Answer)
    ensures { Performs (standing (held book) true) (stand_of result.0) (asked N.says call.entry) (said result.1) }
{
    match call {
        Call::Take(word) => {
            let taken = word.take_into(&mut book);
            (AnyBook::Taking(book), Answer::Taken(taken))
        }
        Call::Read(reading, text) => {
            let took = book.read(reading, text);
            (AnyBook::Taking(book), Answer::Took(took))
        }
        Call::Close => (AnyBook::Closed(book.close()), Answer::Done),
        question => {
            let answer = ask(&book, &question);
            (AnyBook::Taking(book), answer)
        }
    }
}

// One call on a closed book.
fn perform_closed<R: Register, N: Takable + Drop>(
    book: ClosedBook<R>,
    call: Call<N>,
) -> (AnyBook<R>, Answer)
    ensures { Performs (standing (held book) false) (stand_of result.0) (asked N.says call.entry) (said result.1) }
{
    match call {
        Call::Reopen => (AnyBook::Taking(book.reopen()), Answer::Done),
        Call::Repeats => {
            let count = book.repeats();
            (AnyBook::Closed(book), Answer::Counted(count))
        }
        Call::List(k, mut table) => {
            let listed = book.list(k, table.as_mut_slice());
            (AnyBook::Closed(book), Answer::Listed(listed, table))
        }
        question => {
            let answer = ask(&book, &question);
            (AnyBook::Closed(book), answer)
        }
    }
}

// One call on a book in either stage.
fn perform<R: Register, N: Takable + Drop>(book: AnyBook<R>, call: Call<N>) -> (AnyBook<R>, Answer)
    ensures { Performs (stand_of book) (stand_of result.0) (asked N.says call.entry) (said result.1) }
{
    match book {
        AnyBook::Taking(taking) => perform_taking(taking, call),
        AnyBook::Closed(closed) => perform_closed(closed, call),
    }
}

impl<R: Register> AnyBook<R> {
    fn into_register(self) -> R
        ensures pairs { R.pairs result ≡ (stand_of self).held.pairs }
        ensures room { R.room result ≡ (stand_of self).held.room }
    {
        match self {
            AnyBook::Taking(taking) => taking.close().into_register(),
            AnyBook::Closed(closed) => closed.into_register(),
        }
    }
}

// Performs the calls in turn on a book just made over the register, and gives the register back with the answers, one for each call.
// Where memory is wanting for the book or the answers, the register is handed back and nothing is done.
pub fn perform_all<R: Register, N: Takable + Copy + Drop>(
    heap: Global,
    register: R,
    calls: Vec<Call<N>>,
) -> Result<(R, Vec<Answer>), R>
    ensures { MatchResult result (λ x. Law (R.pairs register) (R.room register) (map (asked N.says) calls.entry.items) (map said x.1.items) (R.pairs x.0) × (R.room x.0 ≡ R.room register)) (λ back. back ≡ register) }
{
    let Ok(mut answers) = Vec::with_capacity(heap, calls.len()) else {
        return Err(register);
    };
    let mut book = AnyBook::Taking(TakingBook::new(heap, register)?);
    for call in calls {
        let (next, answer) = perform(book, call);
        book = next;
        answers.push_reserved(answer);
    }
    Ok((book.into_register(), answers))
}
