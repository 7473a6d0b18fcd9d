// What is read from an entry, and the entries that come of it.
ghost use Rattle.std.specs.Prelude.{◌≡◌};
ghost use Rattle.journal.specs.Entries.{key_of, letter, unsettled, side_of, details_of, barred, entered, in_state, owing, same_terms, repeated, reversal_of, effect};

use crate::entry::{Effect, Entry, Kind, Reversal, State, Terms};
use host::code;
use host::line::{Card, Details, Key, Side};

impl State {
    // The letter by which a state is told: a `char`, since one letter needs no formatter.
    pub fn letter(self) -> char
        ensures { result ≡ letter self }
    {
        match self {
            State::Waiting => 'W',
            State::Completed => 'C',
            State::Declined => 'D',
            State::Owed => 'O',
            State::Reversed => 'R',
            State::Barred => 'B',
        }
    }

    // Whether the host has still to be asked.
    pub fn unsettled(self) -> bool
        ensures { result ≡ unsettled self }
    {
        matches!(self, State::Waiting | State::Owed)
    }
}

// Debit or credit, by the first two of a processing code's six digits.
pub fn side(processing: u32) -> Side
    ensures { result ≡ side_of processing }
{
    match processing / 10_000 {
        0..=19 => Side::Debit,
        _ => Side::Credit,
    }
}

impl Terms {
    // Debit or credit.
    pub fn side(&self) -> Side
        ensures { result ≡ side_of self.now.processing }
    {
        side(self.processing)
    }

    // What the host books, or takes back.
    pub fn details(&self) -> Details
        ensures { result ≡ details_of self.now }
    {
        Details {
            card: self.card,
            side: self.side(),
            amount: self.amount,
        }
    }
}

impl Entry {
    // The entry that a message makes.
    pub fn new(key: Key, terms: Terms, state: State, code: u8) -> Entry
        ensures { result ≡ entered key.number key.issuer terms state code }
    {
        Entry {
            number: key.number,
            issuer: key.issuer,
            terms,
            state,
            code,
        }
    }

    // A number alone.
    pub fn barred(number: u64) -> Entry
        ensures { result ≡ barred number }
    {
        let nothing = Terms {
            card: Card::default(),
            processing: 0,
            amount: 0,
            kind: Kind::Request,
        };
        let key = Key { issuer: 0, number };
        Entry::new(key, nothing, State::Barred, code::NO_ACTION_TAKEN)
    }

    // What its line is kept under.
    pub fn key(&self) -> Key
        ensures { result ≡ key_of self.now }
    {
        Key {
            issuer: self.issuer,
            number: self.number,
        }
    }

    // Waiting or owed.
    pub fn unsettled(&self) -> bool
        ensures { result ≡ unsettled self.now.state }
    {
        self.state.unsettled()
    }

    // The same entry in another state.
    pub fn becomes(&self, state: State) -> Entry
        ensures { result ≡ in_state state self.now }
    {
        Entry { state, ..*self }
    }

    // The entry after a reversal that it owes to its host.
    pub fn owing(&self) -> Entry
        ensures { result ≡ owing self.now }
    {
        Entry {
            state: State::Owed,
            code: code::NO_ACTION_TAKEN,
            ..*self
        }
    }

    // The response code of a request or an advice that comes again.
    pub fn repeated(&self, terms: &Terms) -> u8
        ensures { result ≡ repeated self.now.state (same_terms self.now terms.now) self.now.code }
    {
        match (self.state, self.terms == *terms) {
            (State::Barred, _) => code::NO_ACTION_TAKEN,
            (_, true) => self.code,
            (_, false) => code::DUPLICATE,
        }
    }

    // A reversal of an amount, as this entry sees it.
    pub fn reversal(&self, amount: u64) -> Reversal
        ensures { result ≡ reversal_of self.now amount }
    {
        if self.terms.amount == amount {
            Reversal::SameAmount
        } else {
            Reversal::OtherAmount
        }
    }

    // The entry's state and the reversal together decide.
    pub fn reversed(&self, reversal: Reversal) -> Effect
        ensures { result ≡ effect self.now.state reversal }
    {
        match (self.state, reversal) {
            (State::Barred, _) => Effect::Answers(code::NO_SUCH_RECORD),
            (State::Declined, _) => Effect::Answers(code::NO_ACTION_TAKEN),
            (_, Reversal::OtherAmount) => Effect::Answers(code::INVALID_AMOUNT),
            (State::Completed | State::Waiting, Reversal::SameAmount) => Effect::Owes,
            (State::Owed | State::Reversed, Reversal::SameAmount) => Effect::Answers(
                code::APPROVED,
            ),
        }
    }
}
