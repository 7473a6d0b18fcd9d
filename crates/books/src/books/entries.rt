// Entries that come into the books, and what becomes of them.
ghost use Rattle.std.specs.Prelude.{◌≡◌, ℕ, true, false, IfSome, Some, None, MatchOption, slice_index_or};
ghost use Rattle.books.specs.Ledgers.{ledger, fresh, counted, taken_in, taken_back, forwarded};
ghost use Rattle.books.specs.Sizes.{small};
ghost use Rattle.journal.specs.Entries.{side_of, undone, in_state};
ghost use Rattle.journal.specs.Numbers.{acquirer};
ghost use Rattle.journal.specs.Places.{seek, Found, lowest_free, Unsettled, Next};
ghost use Rattle.sums.specs.Days.{sums_of};
ghost use Rattle.sums.specs.Sums.{ApprovedWithin};

use crate::books::Books;
use journal::entry::{Entry, Held, State};
use journal::journal::{Journal, PLACES};
use journal::number;
use sums::day::Day;
use sums::figures::Kind;
use sums::payment::Payment;

// What an entry comes to in the sums.
fn payment(entry: &Entry) -> Payment
    requires { small entry.now ≡ true }
    ensures banks { (result.acquirer ≡ acquirer entry.now.number) × (result.issuer ≡ entry.now.issuer) }
    ensures side { result.side ≡ side_of entry.now.terms.processing }
    ensures amount { result.amount ≡ entry.now.terms.amount }
{
    Payment {
        acquirer: number::parts(entry.number).0,
        issuer: entry.issuer,
        side: entry.terms.side(),
        amount: entry.terms.amount,
    }
}

// Counts an entry that a message makes.
fn count(day: &mut Day, entry: &Entry)
    requires size { small entry.now ≡ true }
    requires room { ApprovedWithin 511 (sums_of day.old) }
    ensures { sums_of day.new ≡ counted entry.now.state (sums_of day.old) entry.now }
{
    match entry.state {
        State::Waiting | State::Completed => day.count(Kind::Approval, payment(entry)),
        State::Declined | State::Owed | State::Reversed | State::Barred => {}
    }
}

impl Books {
    pub fn new() -> Books
        ensures { ledger result ≡ fresh }
    {
        Books {
            journal: Journal::new(),
            mark: 0,
            horizon: 0,
            last: 0,
            today: Day::new(),
            closed: None,
        }
    }

    // The place and the entry of a number.
    pub fn find(&self, number: u64) -> Option<Held>
        ensures found { MatchOption result (seek (ledger self.now).places number ≡ None) (λ held. Found (ledger self.now).places number held.place held.entry) }
        ensures size { IfSome result (λ held. small held.entry ≡ true) }
    {
        self.journal.find(number)
    }

    // The lowest free place.
    pub fn free(&self) -> Option<usize>
        ensures { result ≡ lowest_free (ledger self.now).places }
    {
        self.journal.free()
    }

    pub fn horizon(&self) -> u64
        ensures { result ≡ (ledger self.now).horizon }
    {
        self.horizon
    }

    // The first waiting or owed entry from the mark on and round, with its place.
    pub fn next_unsettled(&self) -> Option<Held>
        ensures { MatchOption result ((i : ℕ) → Unsettled (slice_index_or (ledger self.now).places i None) → ⊥) (λ held. Next (ledger self.now).places (ledger self.now).mark held.place held.entry) }
    {
        self.journal.next_unsettled(self.mark)
    }

    // Takes a new entry in at the lowest free place, and counts it.
    pub fn take(&mut self, place: usize, entry: Entry)
        requires lowest { lowest_free (ledger self.old).places ≡ Some place }
        requires fresh { seek (ledger self.old).places entry.number ≡ None }
        requires size { small entry ≡ true }
        ensures { ledger self.new ≡ taken_in (ledger self.old) place entry }
    {
        self.journal.put(place, entry);
        count(&mut self.today, &entry);
    }

    // A completed or waiting entry becomes owed, and its reversal counts.
    pub fn owe(&mut self, held: Held)
        requires here { Found (ledger self.old).places held.entry.number held.place held.entry }
        requires settled { undone held.entry.state ≡ false }
        ensures { ledger self.new ≡ taken_back (ledger self.old) held.place held.entry }
    {
        self.journal.put(held.place, held.entry.owing());
        self.today.count(Kind::Reversal, payment(&held.entry));
    }

    // An entry is in another state once its host was asked, and the mark moves on.
    pub fn forward(&mut self, held: Held, state: State)
        requires next { Next (ledger self.old).places (ledger self.old).mark held.place held.entry }
        requires kept { undone state ≡ undone held.entry.state }
        ensures { ledger self.new ≡ forwarded (ledger self.old) held.place (in_state state held.entry) }
    {
        self.journal.put(held.place, held.entry.becomes(state));
        self.mark = (held.place + 1) % PLACES;
    }
}
