use host::line::{Card, Details, Key, Side};

pub(crate) fn key(issuer: u8, number: u64) -> Key {
    Key { issuer, number }
}

// Of the one card of these tests.
pub(crate) fn details(side: Side, amount: u64) -> Details {
    let card = Card {
        digits: 5_000_000_000_000_001,
        count: 16,
    };
    Details { card, side, amount }
}
