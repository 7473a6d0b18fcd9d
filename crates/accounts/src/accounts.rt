// Accounts: a balance for each card.
ghost use Rattle.std.specs.Prelude.{◌≡◌, ◌≤◌, false, drop, length};
ghost use Rattle.accounts.specs.Opening.{good, no_account, blank_from};

use host::line::Card;

// The most accounts of a book.
pub const ACCOUNTS: usize = 256;

// What a card has. An account is found by its card alone, digit by digit.
#[derive(Clone, Copy, PartialEq, Eq, Debug)]
pub struct Account {
    pub card: Card,
    pub balance: i64,
}

// What lies at a place that has no account: no card has no digits, so none could be opened like that.
impl Default for Account {
    fn default() -> Account
        ensures blank { result ≡ no_account }
        ensures bad { good result ≡ false }
    {
        Account {
            card: Card::default(),
            balance: 0,
        }
    }
}

// At most that many accounts, in the order in which they were opened: the first `count` places. The others are blank, so the same
// accounts are the same value. An array with a count, since an `ArrayVec` is no `Copy`.
#[derive(Clone, Copy)]
pub struct Accounts {
    pub(crate) places: [Account; ACCOUNTS],
    pub(crate) count: usize,
    ghost full: { length places ≡ 256 },
    ghost few: { count ≤ 256 },
    ghost rest: { drop count places ≡ blank_from count },
}
