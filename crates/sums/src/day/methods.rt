ghost use Rattle.std.specs.Prelude.{◌≡◌, ℕ, ◌<◌, ◌≤◌, pos, ◌+ℤ◌, ◌-ℤ◌, fold, slice_index_or};
ghost use Rattle.sums.specs.Counting.{Between, Room, with_one};
ghost use Rattle.sums.specs.Days.{sums_of};
ghost use Rattle.sums.specs.Nets.{net, position};
ghost use Rattle.sums.specs.Sums.{Figure, no_sums};
ghost use Rattle.sums.specs.Tables.{figure_in, figures_at};

use crate::day::Day;
use crate::figures::{Figures, Kind};
use crate::payment::Payment;
use std::array;

impl Day {
    // A day without transactions.
    pub fn new() -> Day
        ensures { sums_of result ≡ no_sums }
    {
        Day {
            pairs: [[Figures::default(); 16]; 16],
        }
    }

    // The figures of an acquirer and an issuer: none for a bank that does not exist.
    #[tactic(auto, unfolding(crate::specs::Days::sums_of))]
    pub fn figures(&self, acquirer: u8, issuer: u8) -> Figures
        ensures { (f : Figure) → figure_in result f ≡ sums_of self.now f acquirer issuer }
    {
        self.at(acquirer as usize, issuer as usize)
    }

    // What the table has for an acquirer and an issuer.
    fn at(&self, acquirer: usize, issuer: usize) -> Figures
        ensures { result ≡ figures_at self.now.pairs acquirer issuer }
    {
        self.pairs
            .get(acquirer)
            .and_then(|row| row.get(issuer))
            .copied()
            .unwrap_or_default()
    }

    // Counts the approval or the reversal of a transaction for its acquirer and issuer.
    pub fn count(&mut self, kind: Kind, payment: Payment)
        requires { Room kind (sums_of self.old) }
        ensures { sums_of self.new ≡ with_one kind (sums_of self.old) payment }
    {
        let figures = &mut self.pairs[payment.acquirer as usize][payment.issuer as usize];
        figures.count(kind, payment);
    }

    // The net of an acquirer and an issuer, which the issuer owes: two figures of at most 512 * 10^12 either way.
    #[tactic(auto, using(crate::proofs::Counts::counted), unfolding(crate::specs::Days::sums_of))]
    fn net(&self, acquirer: usize, issuer: usize) -> i64
        ensures value { result ≡ net (sums_of self.now) acquirer issuer }
        ensures small { Between 1024000000000000 result }
    {
        self.at(acquirer, issuer).net()
    }

    // What another bank owes this one as its issuer, less what this one owes it as its issuer.
    fn between(&self, bank: usize, other: usize) -> i64
        ensures value { result ≡ net (sums_of self.now) bank other -ℤ net (sums_of self.now) other bank }
        ensures small { Between 2048000000000000 result }
    {
        self.net(bank, other) - self.net(other, bank)
    }

    // The net position of a bank.
    fn position(&self, bank: usize) -> i64
        ensures { result ≡ position (sums_of self.now) bank }
    {
        // A loop and no `sum`, which says nothing of how far a sum of signed numbers goes on its way.
        let mut sum = 0i64;
        for other in 0..16 {
            sum += self.between(bank, other);
        }
        sum
    }

    // The net positions of all banks, which add up to zero.
    pub fn positions(&self) -> [i64; 16]
        ensures each { (k : ℕ) → k < 16 → slice_index_or result k (pos 0) ≡ position (sums_of self.now) k }
        ensures balanced { fold ◌+ℤ◌ (pos 0) result ≡ pos 0 }
    {
        array::from_fn(|bank| self.position(bank))
    }
}
