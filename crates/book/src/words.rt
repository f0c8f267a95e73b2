// What can be taken as a word.
ghost use Rattle.std.specs.Prelude.{◌≡◌};
ghost use Rattle.book.specs.Words.{Word, word};
ghost use Rattle.book.specs.States.{take_answer, after_take};
ghost use Rattle.book.specs.Taken.{Takes};
ghost use Rattle.book.specs.Books.{held};
ghost use Rattle.book.specs.declared.words.Either.TheVariants.{First, Second};

use crate::books::TakingBook;
use labels::Label;
use names::Refusal;
use registers::Register;

// A word of some kind of label, or of one of several kinds.
pub trait Takable {
    // The meaning: the word.
    ghost says: { Self → Word };

    // Takes the word into a book.
    fn take_into<R: Register>(&self, book: &mut TakingBook<R>) -> Result<(u32, u32), Refusal>
        ensures answer { result ≡ take_answer (held book.old) (says self.now) }
        ensures after { held book.new ≡ after_take (held book.old) (says self.now) }
        ensures takes { Takes (held book.old) (held book.new) (says self.now) result };
}

// A label and a rank.
#[derive(Clone, Copy, Drop)]
pub struct Node<L> {
    pub label: L,
    pub rank: u8,
}

impl<L: Label> Takable for Node<L> {
    ghost says = { λ n. word n.rank (L.spelling n.label) };

    fn take_into<R: Register>(&self, book: &mut TakingBook<R>) -> Result<(u32, u32), Refusal> {
        book.take(&self.label, self.rank)
    }
}

// A word of one kind or of another, so that one arrangement of calls can have words of any kinds.
// Callers name the variants `First` and `Second`; the kit's `either` has others, and methods that no word needs.
#[derive(Clone, Copy, Drop)]
pub enum Either<A, B> {
    First(A),
    Second(B),
}

impl<A: Takable, B: Takable> Takable for Either<A, B> {
    ghost says = { λ e. elim e [ First a ↦ A.says a | Second b ↦ B.says b ] };

    fn take_into<R: Register>(&self, book: &mut TakingBook<R>) -> Result<(u32, u32), Refusal> {
        match self {
            Either::First(a) => a.take_into(book),
            Either::Second(b) => b.take_into(book),
        }
    }
}
