// What is read from the places of the journal, and written to them.
ghost use Rattle.std.specs.Prelude.{◌≡◌, ℕ, ◌<◌, ◌≤◌, replicate, IfSome, Some, None, MatchOption, slice_index_or, slice_set};
ghost use Rattle.std.specs.Fn.{FnReturnsAt};
ghost use Rattle.journal.specs.Passes.{Finds};
ghost use Rattle.journal.specs.Places.{seek, Apart, Found, lowest_free, Unsettled, Next, MayHold, is_open, open_moment, least_unsettled, unsettled_count};

use crate::entry::{Entry, Held};
use crate::journal::{Journal, PLACES};
use crate::number;

impl Journal {
    // A journal with every place free.
    pub fn new() -> Journal
        ensures { result.places ≡ replicate 512 None }
    {
        Journal {
            places: [None; PLACES],
        }
    }

    // What a place holds; nothing past the last one.
    pub fn at(&self, place: usize) -> Option<Entry>
        ensures { result ≡ slice_index_or self.now.places place None }
    {
        self.places.get(place).copied().flatten()
    }

    // The place and the entry of a number.
    pub fn find(&self, number: u64) -> Option<Held>
        ensures { MatchOption result (seek self.now.places number ≡ None) (λ held. Found self.now.places number held.place held.entry) }
    {
        self.first(0, PLACES, |entry| entry.number == number)
    }

    // The first entry that passes a test, from one place on and before another.
    fn first<P: Fn(&Entry) -> bool>(&self, from: usize, to: usize, test: P) -> Option<Held>
        requires bound { to ≤ 512 }
        requires callable { P.IsAlwaysCallable test }
        ensures { Finds (FnReturnsAt P.Fn test) self.now.places from to result }
    {
        for place in from..to {
            if let Some(entry) = self.places[place]
                && test(&entry)
            {
                return Some(Held { place, entry });
            }
        }
        None
    }

    // The lowest free place.
    pub fn free(&self) -> Option<usize>
        ensures { (result ≡ lowest_free self.now.places) × IfSome result (λ i. i < 512) }
    {
        self.places.iter().position(|place| place.is_none())
    }

    // Writes an entry at a place, free or not. No other place has its number.
    pub fn put(&mut self, place: usize, entry: Entry)
        requires { (place < 512) × MayHold self.old.places place entry.number }
        ensures { self.new.places ≡ slice_set self.old.places place (Some entry) }
    {
        self.write(place, Some(entry));
    }

    // Makes a place free.
    pub fn clear(&mut self, place: usize)
        requires { place < 512 }
        ensures { self.new.places ≡ slice_set self.old.places place None }
    {
        self.write(place, None);
    }

    // Writes what leaves no number at two places.
    fn write(&mut self, place: usize, value: Option<Entry>)
        requires { (place < 512) × ∥ Apart (slice_set self.old.places place value) ∥₁ }
        ensures { self.new.places ≡ slice_set self.old.places place value }
    {
        self.places[place] = value;
    }

    // The first waiting or owed entry from the mark on and round, with its place.
    pub fn next_unsettled(&self, mark: usize) -> Option<Held>
        requires { mark < 512 }
        ensures { MatchOption result ((i : ℕ) → Unsettled (slice_index_or self.now.places i None) → ⊥) (λ held. Next self.now.places mark held.place held.entry) }
    {
        // A `match`, since no proof can cite what a closure that is given to `or_else` answers.
        match self.first(mark, PLACES, Entry::unsettled) {
            Some(held) => Some(held),
            None => self.first(0, mark, Entry::unsettled),
        }
    }

    // The least moment of what is waiting or owed.
    pub fn least_unsettled(&self) -> Option<u64>
        ensures { result ≡ least_unsettled self.now.places }
    {
        self.places.iter().filter_map(open_moment).min()
    }

    // How many entries are waiting or owed.
    pub fn unsettled(&self) -> usize
        ensures { result ≡ unsettled_count self.now.places }
    {
        self.places.iter().filter(|place| is_open(place)).count()
    }
}

// Whether a place holds an entry that is waiting or owed.
fn is_open(place: &Option<Entry>) -> bool
    ensures { result ≡ is_open place.now }
{
    place.is_some_and(|entry| entry.unsettled())
}

// The moment of an entry that is waiting or owed.
fn open_moment(place: &Option<Entry>) -> Option<u64>
    ensures { result ≡ open_moment place.now }
{
    place
        .filter(Entry::unsettled)
        .map(|entry| number::moment(entry.number))
}
