// Calls made one after the other, and what they come to.
ghost use Rattle.std.specs.Prelude.{◌≡◌, map};
ghost use Rattle.accounts.specs.Histories.{Ran, Balanced, NoLines};
ghost use Rattle.accounts.specs.Made.{Made, called};
ghost use Rattle.accounts.specs.Views.{view};

use crate::book::BalanceBook;
use crate::exchange::{Answer, Call, Exchange};
use host::Host;

impl BalanceBook {
    // Makes one call.
    #[tactic(auto, using(crate::proofs::Served::post_made, crate::proofs::Served::reverse_made, crate::proofs::Served::forget_made, crate::proofs::Served::line_made))]
    fn make(&mut self, call: Call) -> Answer
        ensures { Made (view self.old) call result (view self.new) }
    {
        match call {
            Call::Post {
                key,
                details,
                must_stand,
            } => Answer::Post(self.post(key, details, must_stand)),
            Call::Reverse { key } => Answer::Reverse(self.reverse(key)),
            Call::Forget { key } => Answer::Forget(self.forget(key)),
            Call::Line { key } => Answer::Line(self.line(key)),
            Call::Turn => {
                self.turn();
                Answer::Turn
            }
        }
    }

    // Makes calls in their order, and writes each answer beside its call. Whatever they are, on a book without lines every
    // balance then is what it was, with each booking once and each booking back once.
    #[tactic(auto, using(crate::proofs::Served::ran_none, crate::proofs::Served::ran_more, crate::proofs::Served::same_calls))]
    pub fn serve(&mut self, exchanges: &mut [Exchange])
        ensures calls { map called exchanges.new ≡ map called exchanges.old }
        ensures balances { (r : Ran (view self.old) exchanges.new (view self.new)) × (NoLines (view self.old) → Balanced r.history (view self.old) (view self.new)) }
    {
        for exchange in exchanges.iter_mut() {
            exchange.answer = Some(self.make(exchange.call));
        }
    }
}
