// Rows of items entered into a register pair by pair: each number is that of the pair (number so far, item).
// The number goes from call to call, as in a fold; a struct of the borrowed register and the number would be made and taken apart in one function.
ghost use Rattle.std.specs.Prelude.{◌≡◌, ◌+◌, ◌<◌, ◌≤◌, length};
ghost use Rattle.registers.specs.Pairs.{pair};
ghost use Rattle.book.specs.Words.{word};
ghost use Rattle.book.specs.Groups.{number_of, hold, items, Enters};
ghost use Rattle.book.specs.Entries.{groups_of};

use crate::entries::Entry;
use labels::Label;
use registers::{Pair, Register};

// Enters one item where there is a place for its pair.
fn enter<R: Register>(register: &mut R, number: u32, item: u32) -> u32
    requires { length (R.pairs register.old) < R.room register.old }
    ensures answer { result ≡ number_of (hold (R.pairs register.old) (pair number item)) (pair number item) }
    ensures after { R.pairs register.new ≡ hold (R.pairs register.old) (pair number item) }
    ensures same { R.room register.new ≡ R.room register.old }
{
    let pair = Pair {
        first: number,
        second: item,
    };
    register.number(pair).unwrap()
}

// Enters a label's spelling, whose first number is that of its kind.
fn enter_spelling<R: Register, L: Label>(register: &mut R, number: u32, label: &L) -> u32
    requires { length (R.pairs register.old) + length (L.spelling label.now) ≤ R.room register.old }
    ensures enters { Enters (R.pairs register.old) number (L.spelling label.now) (R.pairs register.new) result }
    ensures same { R.room register.new ≡ R.room register.old }
{
    let mut number = enter(register, number, u32::from(L::kind_number()));
    for place in 1..label.spelled_len() {
        number = enter(register, number, u32::from(label.spelled_at(place)));
    }
    number
}

// Enters the group numbers of a word's children. Beside the spelling, which a label tells place by place, one function over
// an iterator of items would be no plainer: it would have to say of any iterator which items it gives.
fn enter_children<R: Register>(register: &mut R, mut number: u32, children: &[Entry]) -> u32
    requires { length (R.pairs register.old) + length children.now ≤ R.room register.old }
    ensures enters { Enters (R.pairs register.old) number (groups_of children.now) (R.pairs register.new) result }
    ensures same { R.room register.new ≡ R.room register.old }
{
    for child in children {
        number = enter(register, number, child.group);
    }
    number
}

// The group number of a word over its children: that of its items from 0 on. Label and rank come apart, as `take` is given them.
pub(crate) fn number_word<R: Register, L: Label>(
    register: &mut R,
    label: &L,
    rank: u8,
    children: &[Entry],
) -> u32
    requires { length (R.pairs register.old) + (2 + length (L.spelling label.now) + length children.now) ≤ R.room register.old }
    ensures enters { Enters (R.pairs register.old) 0 (items (word rank (L.spelling label.now)) (groups_of children.now)) (R.pairs register.new) result }
    ensures same { R.room register.new ≡ R.room register.old }
    ensures low { result ≤ 32768 }
{
    let ranked = enter(register, 0, u32::from(rank));
    let sized = enter(register, ranked, u32::from(label.spelled_len()));
    let spelled = enter_spelling(register, sized, label);
    enter_children(register, spelled, children)
}
