// Making a book, closing it and opening it again.
ghost use Rattle.std.specs.Prelude.{◌≡◌, ◌≤◌, [], IfOk, MatchResult, vec_capacity};
ghost use Rattle.book.specs.States.{fresh};
ghost use Rattle.book.specs.Taken.{Holds};
ghost use Rattle.book.specs.Books.{held};
ghost use Rattle.book.specs.Linking.{Indexed};
ghost use Rattle.book.specs.PassageLaws.{PassageLaws};

use crate::books::{Book, Closed, ClosedBook, Stage, Taking, TakingBook};
use crate::entries::{Entries, Entry, MOST_WORDS};
use crate::linking::Index;
use registers::Register;
use std::alloc::{AllocError, Global};

// The memory of a book: for its words, its top passages, and their repeats.
fn reserve(heap: Global) -> Result<(Entries, Vec<Entry>, Index), AllocError>
    ensures words { IfOk result (λ m. m.0 ≡ []) }
    ensures tops { IfOk result (λ m. m.1.items ≡ []) }
    ensures room { IfOk result (λ m. 4096 ≤ vec_capacity m.1) }
{
    let entries = Entries::new(heap)?;
    let tops = Vec::with_capacity(heap, MOST_WORDS)?;
    let index = Index::new(heap)?;
    Ok((entries, tops, index))
}

impl<R: Register> Book<R, Taking> {
    // A book without words over the register, which is handed back where memory is wanting.
    pub fn new(heap: Global, register: R) -> Result<TakingBook<R>, R>
        ensures value { MatchResult result (λ b. held b ≡ fresh (R.pairs register) (R.room register)) (λ back. back ≡ register) }
        ensures laws { PassageLaws }
        ensures holds { IfOk result (λ b. Holds (R.pairs register) [] (held b)) }
    {
        let Ok((entries, tops, index)) = reserve(heap) else {
            return Err(register);
        };
        Ok(Book {
            register,
            entries,
            tops,
            index,
            stage: Taking,
        })
    }

    // Closes the book: one pass links its words, one gathers its repeats.
    pub fn close(mut self) -> ClosedBook<R>
        ensures { held result ≡ held self }
    {
        self.link();
        self.in_stage(Closed)
    }

    // Finds the links and the repeats of the words. By itself, since fields are lent apart of a book that is lent, and not yet of one that is owned.
    fn link(&mut self)
        ensures fits { Indexed self.new.entries self.new.index.later.items self.new.index.firsts.items }
        ensures same { held self.new ≡ held self.old }
    {
        self.index.link(&self.entries);
    }
}

impl<R: Register> Book<R, Closed> {
    // Opens the book again, to take more words.
    pub fn reopen(self) -> TakingBook<R>
        ensures { held result ≡ held self }
    {
        self.in_stage(Taking)
    }

    // Gives the register back.
    pub fn into_register(self) -> R
        ensures { result ≡ self.register }
    {
        let Book {
            register,
            entries: _,
            tops: _,
            index: _,
            stage: _,
        } = self;
        register
    }
}

// In either stage.
impl<R: Register, S: Stage> Book<R, S> {
    // The same book in a stage that its memory fits.
    fn in_stage<T: Stage>(self, stage: T) -> Book<R, T>
        requires { T.fits self.index self.entries }
        ensures { held result ≡ held self }
    {
        let Book {
            register,
            entries,
            tops,
            index,
            stage: _,
        } = self;
        Book {
            register,
            entries,
            tops,
            index,
            stage,
        }
    }
}
