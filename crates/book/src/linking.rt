// Each word is linked to the next word of its group when a book is closed, and a repeat is listed along the links.
ghost use Rattle.std.specs.Prelude.{◌≡◌, ◌+◌, ◌-◌, ◌<◌, ◌≤◌, ◌&&◌, ltb, ◌++◌, map, length, drop, if◌then◌else◌, Ok, Err, IfOk, vec_len, vec_capacity, ◌==◌, nat_le, nat_lt, slice_index, slice_set};
ghost use Rattle.book.specs.Repeats.{first};
ghost use Rattle.book.specs.Linking.{number_at, repeats_of, if_later, Linked, Opened, Indexed, along, OpensGroup, listing_from, listed_answer, listed_table};
ghost use Rattle.book.specs.Ends.{left};

use crate::ends::Ends;
use crate::entries::{Entries, Entry, MOST_WORDS};
use names::Refusal;
use registers::MOST_PAIRS;
use std::alloc::{AllocError, Global};

// What is listed of a repeat: the group, the size of each of its passages, and how many ends it has. The ends themselves stand
// in the table that the caller gives.
#[derive(Clone, Copy)]
pub struct Listed {
    pub group: u32,
    pub size: u32,
    pub count: u32,
}

// The memory in which a closed book finds its repeats: a place for each group number that a register can give,
// the next word of the same group for each word, and the first end of each repeat.
// They are tables of positions, since their memory is reserved with the book's.
// A link of 0 is none, since 0 comes after no position: an `Option<u32>` would double the memory of the links.
#[derive(Drop)]
pub(crate) struct Index {
    pub(crate) latest: Vec<u32>,
    pub(crate) later: Vec<u32>,
    pub(crate) firsts: Vec<u32>,
    ghost wide: { vec_len latest ≡ 32769 },
    ghost linking: { 4096 ≤ vec_capacity later },
    ghost listing: { 4096 ≤ vec_capacity firsts },
}

// So many places, with 0 in each. A function of its own, since the check then weighs the length alone, and not so many zeros.
fn zeros(heap: Global, count: usize) -> Result<Vec<u32>, AllocError>
    ensures { IfOk result (λ places. vec_len places ≡ count) }
{
    vec![in heap; 0; count]
}

// Closing.
impl Index {
    pub(crate) fn new(heap: Global) -> Result<Index, AllocError> {
        let latest = zeros(heap, MOST_PAIRS + 1)?;
        let later = Vec::with_capacity(heap, MOST_WORDS)?;
        let firsts = Vec::with_capacity(heap, MOST_WORDS)?;
        Ok(Index {
            latest,
            later,
            firsts,
        })
    }

    // Links the words, and gathers the first ends of the repeats: all that a book is closed with.
    pub(crate) fn link(&mut self, entries: &Entries)
        ensures { Indexed entries.now self.new.later.items self.new.firsts.items }
    {
        self.link_words(entries);
        self.gather_firsts(entries);
    }

    // Links each word to the next of its group, back from the last word, and leaves the first position of each group in the table.
    // `latest` need not be cleared: a position from an earlier use of it is never after the last word of a group and of that group.
    fn link_words(&mut self, entries: &Entries)
        ensures linked { Linked entries.now self.new.later.items }
        ensures opened { Opened entries.now self.new.latest.items }
    {
        let count = entries.as_slice().len();
        self.later.resize(count, 0).unwrap();
        // By position, since at each one a word is read and two tables are written.
        for p in (0..count).rev() {
            self.link_word(entries, p);
        }
    }

    // Links one word, after which it is the latest that was seen of its group.
    fn link_word(&mut self, entries: &Entries, p: usize)
        requires within { (p < length entries.now) × (p < vec_len self.old.later) }
        ensures latest { self.new.latest.items ≡ slice_set self.old.latest.items (number_at entries.now p) p }
        ensures later { self.new.later.items ≡ slice_set self.old.later.items p (if_later entries.now p (slice_index self.old.latest.items (number_at entries.now p))) }
    {
        let words = entries.as_slice();
        let group = words[p].group as usize;
        self.later[p] = later_end(words, p, self.latest[group]);
        self.latest[group] = p as u32;
    }

    // Gathers the first end of each repeat: a first position of its group from which a link leads on.
    fn gather_firsts(&mut self, entries: &Entries)
        requires linked { Linked entries.now self.old.later.items }
        requires opened { Opened entries.now self.old.latest.items }
        ensures firsts { self.new.firsts.items ≡ map first (repeats_of entries.now) }
        ensures linked { Linked entries.now self.new.later.items }
    {
        self.firsts.clear();
        for (p, entry) in entries.as_slice().iter().enumerate() {
            if self.opens_repeat(p, entry.group) {
                self.firsts.push_reserved(p as u32);
            }
        }
    }

    // Whether the position is the first of its group, with another after it.
    fn opens_repeat(&self, p: usize, group: u32) -> bool
        requires within { p < vec_len self.now.later }
        requires low { group ≤ 32768 }
        ensures { result ≡ (slice_index self.now.latest.items group == p && nat_lt 0 (slice_index self.now.later.items p)) }
    {
        self.latest[group as usize] as usize == p && self.later[p] > 0
    }
}

// The candidate, if it is a later position of the same group, or else 0.
fn later_end(entries: &[Entry], p: usize, candidate: u32) -> u32
    requires { p < length entries.now }
    ensures { result ≡ if_later entries.now p candidate }
{
    let q = candidate as usize;
    if p < q && q < entries.len() && entries[q].group == entries[p].group {
        candidate
    } else {
        0
    }
}

// Listing.
impl Index {
    // Lists the repeat of number k: all its ends, rising, go into the table, which is left as it is on a refusal.
    pub(crate) fn list(
        &self,
        entries: &Entries,
        k: u32,
        table: &mut [u32],
    ) -> Result<Listed, Refusal>
        requires { Indexed entries.now self.now.later.items self.now.firsts.items }
        ensures answer { result ≡ listed_answer entries.now k (length table.old) }
        ensures table { table.new ≡ listed_table entries.now k table.old }
    {
        let first = self.first_end(k)?;
        let listed = self.listed_from(entries, first);
        check_places(listed.count, table.len())?;
        self.write_ends(first, table);
        Ok(listed)
    }

    // The first end of the repeat of number k.
    fn first_end(&self, k: u32) -> Result<u32, Refusal>
        ensures { result ≡ (if ltb k (length self.now.firsts.items) then Ok (slice_index self.now.firsts.items k) else Err Refusal.NoSuchRepeat) }
    {
        self.firsts
            .get(k as usize)
            .copied()
            .ok_or(Refusal::NoSuchRepeat)
    }

    // The ends of a group from its first on.
    fn ends(&self, first: u32) -> Ends<'_>
        ensures { left result ≡ along self.now.later.items first }
    {
        Ends {
            later: self.later.as_slice(),
            next: Some(first),
        }
    }

    // What is listed of the repeat whose first end is given.
    fn listed_from(&self, entries: &Entries, first: u32) -> Listed
        requires linked { Linked entries.now self.now.later.items }
        requires opens { OpensGroup entries.now first }
        ensures { result ≡ listing_from entries.now first }
    {
        let entry = entries.as_slice()[first as usize];
        Listed {
            group: entry.group,
            size: size_of_passage(entry.start, first),
            count: self.ends(first).count() as u32,
        }
    }

    // Writes the ends from the first on, each into the next place of the table.
    fn write_ends(&self, first: u32, table: &mut [u32])
        requires { length (along self.now.later.items first) ≤ length table.old }
        ensures { table.new ≡ along self.now.later.items first ++ drop (length (along self.now.later.items first)) table.old }
    {
        // By index, since nothing is known of a slice after an adapter of its `iter_mut`, such as `zip`.
        for (place, end) in self.ends(first).enumerate() {
            table[place] = end;
        }
    }
}

// How many words there are from a passage's start to its end.
fn size_of_passage(start: u32, end: u32) -> u32
    requires { (start ≤ end) × (end < 4096) }
    ensures { result ≡ end + 1 - start }
{
    end + 1 - start
}

// Whether so many ends fit into the places of a table.
fn check_places(count: u32, places: usize) -> Result<(), Refusal>
    ensures { result ≡ (if nat_le count places then Ok tt else Err Refusal.TableTooShort) }
{
    if count as usize <= places {
        Ok(())
    } else {
        Err(Refusal::TableTooShort)
    }
}
