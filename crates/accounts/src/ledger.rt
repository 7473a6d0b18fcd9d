// Opening accounts, looking them up, and booking.
ghost use Rattle.std.specs.Prelude.{◌≡◌, true, false, ◌&&◌, if◌then◌else◌, position, Some, None, MatchOption, MatchResult};
ghost use Rattle.host.specs.declared.ask.PostAnswer.TheVariants as posting;
ghost use Rattle.host.specs.declared.ask.ReverseAnswer.TheVariants as reversing;
ghost use Rattle.host.specs.declared.line.Line.TheVariants.{Absent};
ghost use Rattle.accounts.specs.Answers.{accounts_after_post, accounts_after_reverse, StaysBack};
ghost use Rattle.accounts.specs.Balances.{balance_of, same_card, booked, booked_on, bounded, stays, with_booking, opposite, undoing};
ghost use Rattle.accounts.specs.Opening.{good, listed, single, sound};
ghost use Rattle.accounts.specs.Views.{accounts_of};

use crate::accounts::{ACCOUNTS, Account, Accounts};
use host::ask::{PostAnswer, ReverseAnswer};
use host::line::{Card, Details, Line, Side};

// What is booked goes back by the other side.
pub fn opposite(side: Side) -> Side
    ensures { result ≡ opposite side }
{
    match side {
        Side::Debit => Side::Credit,
        Side::Credit => Side::Debit,
    }
}

// What takes a booking back: it goes the other way.
pub fn undoing(details: Details) -> Details
    ensures { result ≡ undoing details }
{
    Details {
        side: opposite(details.side),
        ..details
    }
}

// No balance leaves this, up or down.
const BOUND: i64 = 100_000_000_000_000_000;

// The most that an account is opened with.
const MOST: i64 = 1_000_000_000_000_000;

// More than 256 accounts, a card not of 1 to 19 digits, a card twice, or a balance outside 0 to 10^15. One error for all: a book is
// opened or it is not, and whoever gives the accounts can test them.
#[derive(Clone, Copy, PartialEq, Eq, Debug)]
pub struct BadAccounts;

// What a booking makes of a balance; none where it would leave its bounds.
fn after_booking(balance: i64, details: &Details) -> Option<i64>
    ensures { result ≡ (if bounded (booked details.now.side details.now.amount balance) then Some (booked details.now.side details.now.amount balance) else None) }
{
    let after = match details.side {
        Side::Debit => balance.checked_sub_unsigned(details.amount),
        Side::Credit => balance.checked_add_unsigned(details.amount),
    };
    after.filter(|after| (-BOUND..=BOUND).contains(after))
}

// The account after a booking that leaves its balance in its bounds.
fn booked_on(account: Account, details: &Details) -> Account
    requires { bounded (booked details.now.side details.now.amount account.balance) ≡ true }
    ensures { result ≡ booked_on account details.now }
{
    Account {
        balance: after_booking(account.balance, details).unwrap(),
        ..account
    }
}

impl Account {
    // Whether it may be opened: a card of 1 to 19 digits, and a balance of 0 to 10^15.
    fn is_good(&self) -> bool
        ensures { result ≡ good self.now }
    {
        let card = self.card;
        matches!(card.count, 1..=19)
            && card.digits < 10u64.pow(u32::from(card.count))
            && (0..=MOST).contains(&self.balance)
    }
}

// Whether a card has an account among these.
fn is_listed(accounts: &[Account], card: &Card) -> bool
    ensures { result ≡ listed accounts.now card.now }
{
    accounts.iter().any(|account| account.card == *card)
}

// Whether each account may be opened beside the others.
fn are_single(accounts: &[Account]) -> bool
    ensures { result ≡ single accounts.now }
{
    let mut rest = accounts;
    while let Some((account, others)) = rest.split_first() {
        if !account.is_good() || is_listed(others, &account.card) {
            return false;
        }
        rest = others;
    }
    true
}

impl Accounts {
    // Opens accounts, or refuses them all.
    pub fn open(accounts: &[Account]) -> Result<Accounts, BadAccounts>
        ensures { MatchResult result (λ a. (sound accounts.now ≡ true) × (accounts_of a ≡ accounts.now)) (λ _. sound accounts.now ≡ false) }
    {
        let count = accounts.len();
        if count > ACCOUNTS || !are_single(accounts) {
            return Err(BadAccounts);
        }
        let mut places = [Account::default(); ACCOUNTS];
        places[..count].copy_from_slice(accounts);
        Ok(Accounts { places, count })
    }

    // The accounts that were opened, without the places behind them.
    fn opened(&self) -> &[Account]
        ensures { result.now ≡ accounts_of self.now }
    {
        let count = self.count;
        &self.places[..count]
    }

    // The place of a card's account.
    fn find(&self, card: &Card) -> Option<usize>
        ensures { result ≡ position (λ a. same_card a.card card.now) (accounts_of self.now) }
    {
        self.opened()
            .iter()
            .position(|account| account.card == *card)
    }

    // What a card has, if it has an account.
    pub fn balance(&self, card: &Card) -> Option<i64>
        ensures { result ≡ balance_of (accounts_of self.now) card.now }
    {
        self.opened()
            .iter()
            .find(|account| account.card == *card)
            .map(|account| account.balance)
    }

    // Whether a booking would leave the balance in its bounds.
    pub fn stays(&self, details: &Details) -> bool
        ensures { result ≡ stays (balance_of (accounts_of self.now) details.now.card) details.now }
    {
        self.balance(&details.card)
            .is_none_or(|balance| after_booking(balance, details).is_some())
    }

    // Books an amount on a card.
    #[tactic(auto, using(crate::proofs::Finds::read_here, crate::proofs::Finds::booking_here, crate::proofs::Finds::no_booking))]
    pub fn book(&mut self, details: &Details)
        requires { stays (balance_of (accounts_of self.old) details.now.card) details.now ≡ true }
        ensures { accounts_of self.new ≡ with_booking (accounts_of self.old) details.now }
    {
        if let Some(i) = self.find(&details.card) {
            self.places[i] = booked_on(self.places[i], details);
        }
    }

    // A line that becomes posted is booked, once.
    pub fn post(&mut self, found: Line, details: &Details, answer: PostAnswer)
        requires { found ≡ Absent → answer ≡ posting.Posted → stays (balance_of (accounts_of self.old) details.now.card) details.now ≡ true }
        ensures { accounts_of self.new ≡ accounts_after_post (accounts_of self.old) found details.now answer }
    {
        if let (Line::Absent, PostAnswer::Posted) = (found, answer) {
            self.book(details);
        }
    }

    // A posted or leaving line that is closed is booked back, once.
    pub fn reverse(&mut self, found: Line, answer: ReverseAnswer)
        requires { answer ≡ reversing.Done → StaysBack (accounts_of self.old) found }
        ensures { accounts_of self.new ≡ accounts_after_reverse (accounts_of self.old) found answer }
    {
        if let (Line::Posted(booked) | Line::Leaving(booked), ReverseAnswer::Done) = (
            found, answer,
        ) {
            self.book(&undoing(booked));
        }
    }
}
