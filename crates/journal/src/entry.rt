// An entry of the journal, and what a repeat or a reversal makes of it.
use host::line::Card;

// Where a transaction stands.
#[derive(Clone, Copy, PartialEq, Eq, Debug)]
pub enum State {
    // an advice that its host has yet to book
    Waiting,
    Completed,
    Declined,
    // its host has yet to take it back
    Owed,
    Reversed,
    // a number whose reversal came first, and which will not be booked
    Barred,
}

// Whether the switch is asked before the money is paid out, or told of it afterwards.
#[derive(Clone, Copy, PartialEq, Eq, Debug)]
pub enum Kind {
    Request,
    Advice,
}

// What a request or an advice asks for.
#[derive(Clone, Copy, PartialEq, Eq, Debug)]
pub struct Terms {
    pub card: Card,
    pub processing: u32,
    pub amount: u64,
    pub kind: Kind,
}

// What the journal holds of a transaction. Number and issuer are no `Key` here, since a barred entry is a number alone.
#[derive(Clone, Copy, PartialEq, Eq, Debug)]
pub struct Entry {
    pub number: u64,
    pub issuer: u8,
    pub terms: Terms,
    pub state: State,
    // The response code that a repeat is answered: two digits, of which a host may choose any when it declines.
    pub code: u8,
}

// An entry and its place in the journal.
#[derive(Clone, Copy, PartialEq, Eq, Debug)]
pub struct Held {
    pub place: usize,
    pub entry: Entry,
}

// A reversal, as the entry that it is about sees it.
#[derive(Clone, Copy, PartialEq, Eq, Debug)]
pub enum Reversal {
    SameAmount,
    OtherAmount,
}

// What a reversal comes to.
#[derive(Clone, Copy, PartialEq, Eq, Debug)]
pub enum Effect {
    // this response code, and the entry stays as it is
    Answers(u8),
    // response code 00, and the entry becomes owed
    Owes,
}
