// Prefixes of card numbers.
ghost use Rattle.std.specs.Prelude.{◌≡◌, ◌^◌, ◌<◌, ◌≤◌};
ghost use Rattle.members.specs.Prefixes.{formed, fits, Digitwise};

use host::line::Card;

// The most digits that a prefix can have.
const MOST_DIGITS: u8 = 8;

// The most digits that a card can have. Every number of so many digits fits 64 bits.
const MOST_CARD_DIGITS: u8 = 19;

// The first digits of a card number, and how many they are, so that leading zeros count.
#[derive(Clone, Copy, Default, PartialEq, Eq, Debug)]
pub struct Prefix {
    pub digits: u64,
    pub count: u8,
}

impl Prefix {
    // Whether it has 1 to 8 digits.
    pub fn formed(&self) -> bool
        ensures { result ≡ formed self.now }
    {
        (1..=MOST_DIGITS).contains(&self.count) && self.digits < 10u64.pow(self.count as u32)
    }

    // Whether a card begins with it, digit by digit.
    pub fn fits(&self, card: &Card) -> bool
        ensures which { result ≡ fits self.now card.now }
        ensures digits { Digitwise self.now card.now result }
    {
        // It has at least as many digits, and the first of them are those of the prefix.
        self.count <= card.count
            && card.count <= MOST_CARD_DIGITS
            && card.digits / 10u64.pow((card.count - self.count) as u32) == self.digits
    }
}
