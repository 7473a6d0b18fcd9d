// What the switch is asked for, in plain numbers. How large they can be is told by specs/Sizes where an order is made, and not by
// ghost fields here: the rules build these records from the bytes, and would have to carry the proofs.
use elements::original::Original;
use host::line::Card;
use journal::entry::Kind;

// What a message of a type that the switch takes is for: to present a transaction, or to take one back.
#[derive(Clone, Copy, PartialEq, Eq, Debug)]
pub enum Service {
    Present(Kind),
    Reverse,
}

// What requests, advices and reversals all tell.
#[derive(Clone, Copy)]
pub struct Particulars {
    // Element 4.
    pub amount: u64,
    // Element 7: the number of a moment, or none where the digits are no moment. It is not a `Moment` itself: that type has a
    // model, and a struct that holds one gets no proof where it is passed by value and used again.
    pub moment: Option<u64>,
    // Element 11.
    pub trace: u32,
    // Element 32 as a number, whether or not a bank has it.
    pub acquirer: u64,
    // Where element 32 starts in the message, with its length digits.
    pub place: usize,
}

// A request or an advice.
#[derive(Clone, Copy)]
pub struct Presentment {
    pub kind: Kind,
    // Element 2.
    pub card: Card,
    // Element 3, the processing code.
    pub processing: u32,
    pub particulars: Particulars,
}

// A reversal, with what it says of the message that it takes back.
#[derive(Clone, Copy)]
pub struct Reversal {
    pub particulars: Particulars,
    // Element 90, whether or not its parts are a message that the switch knows.
    pub original: Original,
}

#[derive(Clone, Copy)]
pub enum Order {
    Presented(Presentment),
    Reversed(Reversal),
}
