// A host that books on accounts.
ghost use Rattle.std.specs.Prelude.{◌≡◌, ℕ, true, false, MatchResult};
ghost use Rattle.host.specs.Meaning.{Posts, Reverses, Forgets, Turns};
ghost use Rattle.host.specs.declared.line.Line.TheVariants.{Absent};
ghost use Rattle.host.specs.Logs.{unasked};
ghost use Rattle.lines.specs.Rows.{free};
ghost use Rattle.accounts.specs.Answers.{overdrawn, within_balance, book_answer, book_reverse};
ghost use Rattle.accounts.specs.Balances.{balance_of};
ghost use Rattle.accounts.specs.Opening.{sound};
ghost use Rattle.accounts.specs.Views.{kept_by, view, Places, AnswersPost, AnswersReverse};

use crate::accounts::{Account, Accounts};
use crate::ledger::{BadAccounts, undoing};
use host::ask::{ForgetAnswer, PostAnswer, ReverseAnswer};
use host::line::{Card, Details, Key, Line, Side};
use host::log::Log;
use host::{Host, code};
use lines::change::{after_post, after_reverse, repeat};
use lines::table::Lines;

// How many lines it keeps.
const LINES: usize = 1024;

#[derive(Drop)]
pub struct BalanceBook {
    accounts: Accounts,
    lines: Lines<LINES>,
    log: Log,
}

// Whether it is a debit above the balance that need not stand.
fn overdraws(balance: i64, details: &Details, must_stand: bool) -> bool
    ensures { result ≡ overdrawn balance details.now must_stand }
{
    match details.side {
        Side::Debit => !must_stand && i128::from(balance) < i128::from(details.amount),
        Side::Credit => false,
    }
}

impl BalanceBook {
    // A new book on these accounts: no line, no ask.
    pub fn open(accounts: &[Account]) -> Result<BalanceBook, BadAccounts>
        ensures { MatchResult result (λ b. (sound accounts.now ≡ true) × ((view b).accounts ≡ accounts.now) × ((view b).free ≡ 1024) × (b.log ≡ unasked) × ((issuer number : ℕ) → (view b).host.lines issuer number ≡ Absent)) (λ _. sound accounts.now ≡ false) }
    {
        let accounts = Accounts::open(accounts)?;
        Ok(BalanceBook {
            accounts,
            lines: Lines::new(),
            log: Log::new(),
        })
    }

    // What a card has, if it has an account.
    pub fn balance(&self, card: &Card) -> Option<i64>
        ensures { result ≡ balance_of (view self.now).accounts card.now }
    {
        self.accounts.balance(card)
    }

    // What is answered where no line is found. The number of a decline is the response code of the message that tells it.
    fn admit(&self, details: &Details, must_stand: bool) -> PostAnswer
        ensures { result ≡ within_balance (balance_of (view self.now).accounts details.now.card) (view self.now).free details.now must_stand }
    {
        let Some(balance) = self.accounts.balance(&details.card) else {
            return PostAnswer::Declined(code::INVALID_CARD);
        };
        if !self.lines.has_room() {
            return PostAnswer::Declined(code::NO_ROOM);
        }
        if !self.accounts.stays(details) {
            return PostAnswer::Declined(code::DO_NOT_HONOR);
        }
        if overdraws(balance, details, must_stand) {
            return PostAnswer::Declined(code::NOT_SUFFICIENT_FUNDS);
        }
        PostAnswer::Posted
    }

    fn answer(&self, found: Line, details: &Details, must_stand: bool) -> PostAnswer
        ensures { result ≡ book_answer (view self.now).accounts (view self.now).free found details.now must_stand }
    {
        match found {
            Line::Absent => self.admit(details, must_stand),
            Line::Posted(booked) => repeat(&booked, details),
            Line::Adrift(asked) if asked == *details => PostAnswer::Silence,
            Line::Adrift(_) => PostAnswer::Clash,
            Line::Leaving(_) => PostAnswer::Silence,
            Line::Closed => PostAnswer::Declined(code::NO_ACTION_TAKEN),
        }
    }

    // Silent where a new line finds no place, and where the balance would leave its bounds.
    fn reverse_answer(&self, found: Line) -> ReverseAnswer
        ensures { result ≡ book_reverse (view self.now).accounts (view self.now).free found }
    {
        match found {
            Line::Posted(booked) | Line::Leaving(booked) => {
                if self.accounts.stays(&undoing(booked)) {
                    ReverseAnswer::Done
                } else {
                    ReverseAnswer::Silence
                }
            }
            _ => self.lines.reverse_outcome(found),
        }
    }
}

impl Host for BalanceBook {
    ghost meaning = { kept_by };

    fn post(&mut self, key: Key, details: Details, must_stand: bool) -> PostAnswer
        ensures kept { Posts (kept_by self.old) key details must_stand result (kept_by self.new) }
        ensures exact { AnswersPost (view self.old) key details must_stand result (view self.new) }
    {
        let found = self.lines.get(key);
        let answer = self.answer(found, &details, must_stand);
        self.accounts.post(found, &details, answer);
        self.lines.put(key, after_post(found, details, answer));
        self.log.posted(key, details, must_stand, answer);
        answer
    }

    fn reverse(&mut self, key: Key) -> ReverseAnswer
        ensures kept { Reverses (kept_by self.old) key result (kept_by self.new) }
        ensures exact { AnswersReverse (view self.old) key result (view self.new) }
    {
        let found = self.lines.get(key);
        let answer = self.reverse_answer(found);
        self.accounts.reverse(found, answer);
        self.lines.put(key, after_reverse(found, answer));
        self.log.reversed(key, answer);
        answer
    }

    // A balance stays as it is.
    fn forget(&mut self, key: Key) -> ForgetAnswer
        ensures kept { Forgets (kept_by self.old) key result (kept_by self.new) }
        ensures exact { ((view self.new).accounts ≡ (view self.old).accounts) × Places (view self.old) key (view self.new) }
    {
        self.lines.forget(key, false)
    }

    fn line(&self, key: Key) -> Line {
        self.lines.get(key)
    }

    fn turn(&mut self)
        ensures kept { Turns (kept_by self.old) (kept_by self.new) }
        ensures exact { ((view self.new).accounts ≡ (view self.old).accounts) × ((view self.new).free ≡ (view self.old).free) }
    {
        self.log.turn();
    }
}
