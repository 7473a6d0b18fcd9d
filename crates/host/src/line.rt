// The lines that a host keeps.

// What a line is kept under: the issuer, by its place among the banks, and the number of the transaction.
#[derive(Clone, Copy, PartialEq, Eq, Debug)]
pub struct Key {
    pub issuer: u8,
    pub number: u64,
}

// A card number: up to 19 digits and how many they are, so that leading zeros count.
#[derive(Clone, Copy, Default, PartialEq, Eq, Debug)]
pub struct Card {
    pub digits: u64,
    pub count: u8,
}

// Which way an amount goes: a debit is taken from the card, a credit given to it.
#[derive(Clone, Copy, PartialEq, Eq, Debug)]
pub enum Side {
    Debit,
    Credit,
}

// What is booked under a number.
#[derive(Clone, Copy, PartialEq, Eq, Debug)]
pub struct Details {
    pub card: Card,
    pub side: Side,
    pub amount: u64,
}

// What a host knows of a key.
#[derive(Clone, Copy, PartialEq, Eq, Debug)]
pub enum Line {
    // nothing
    Absent,
    // it is booked
    Posted(Details),
    // it may be booked or not: the host was silent when it was asked to
    Adrift(Details),
    // it is on its way to be taken back: the host was silent when it was asked to
    Leaving(Details),
    // it was taken back, and will not be booked any more
    Closed,
}
