// The figures of an acquirer and an issuer.
ghost use Rattle.std.specs.Prelude.{◌≡◌, ◌≤◌};
ghost use Rattle.sums.specs.Counting.{Between, Counted, Holds, counting, net_in, one_more, tally_in};

use crate::payment::Payment;
use host::line::Side;

// A transaction counts when it is approved, and once more when it is reversed.
#[derive(Clone, Copy, PartialEq, Eq, Debug)]
pub enum Kind {
    Approval,
    Reversal,
}

// How many transactions there were, and what they amount to.
#[derive(Clone, Copy, Default, PartialEq, Eq, Debug)]
pub struct Tally {
    pub number: u32,
    pub amount: u64,
}

impl Tally {
    // One more transaction.
    fn add(&mut self, amount: u64)
        requires { (Holds 511 self.old) × (amount ≤ 1000000000000) }
        ensures { self.new ≡ one_more self.old amount }
    {
        self.number += 1;
        self.amount += amount;
    }
}

// What was approved of each side, and what of that was reversed.
#[derive(Clone, Copy, Default, PartialEq, Eq, Debug)]
pub struct Figures {
    pub credits: Tally,
    pub credit_reversals: Tally,
    pub debits: Tally,
    pub debit_reversals: Tally,
}

impl Figures {
    // One more transaction.
    pub(crate) fn count(&mut self, kind: Kind, payment: Payment)
        requires { Holds 511 (tally_in self.old kind payment.side) }
        ensures { self.new ≡ counting self.old kind payment.side payment.amount }
    {
        match (kind, payment.side) {
            (Kind::Approval, Side::Credit) => self.credits.add(payment.amount),
            (Kind::Approval, Side::Debit) => self.debits.add(payment.amount),
            (Kind::Reversal, Side::Credit) => self.credit_reversals.add(payment.amount),
            (Kind::Reversal, Side::Debit) => self.debit_reversals.add(payment.amount),
        }
    }

    // What the issuer owes the acquirer.
    pub(crate) fn net(self) -> i64
        requires { Counted self }
        ensures value { result ≡ net_in self }
        ensures small { Between 1024000000000000 result }
    {
        self.debits.amount as i64 - self.debit_reversals.amount as i64 - self.credits.amount as i64
            + self.credit_reversals.amount as i64
    }
}
