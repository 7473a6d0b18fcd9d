// Forwarding: what waits or is owed is put to its host, one entry at a time, round the journal.
ghost use Rattle.std.specs.Prelude.{◌≡◌};
ghost use Rattle.books.specs.Ledgers.{forwarded};
ghost use Rattle.journal.specs.Entries.{in_state, undone};
ghost use Rattle.journal.specs.Places.{Next};
ghost use Rattle.journal.specs.declared.entry.State.TheVariants.{Waiting, Owed};
ghost use Rattle.switch.specs.Forwardings.{once_put, once_undone, PutNow, UndoneNow, Forwarded};
ghost use Rattle.switch.specs.States.{view, with};

use crate::switch::Switch;
use host::Host;
use host::ask::{PostAnswer, ReverseAnswer};
use journal::entry::{Held, State};

// What a forwarding tells: a transaction, and where it stands now.
#[derive(Clone, Copy)]
pub struct Told {
    pub number: u64,
    pub state: State,
}

// A waiting entry is completed only when its host says posted.
fn once_put(answer: PostAnswer) -> State
    ensures { result ≡ once_put answer }
{
    match answer {
        PostAnswer::Posted => State::Completed,
        PostAnswer::Declined(_) | PostAnswer::Silence | PostAnswer::Clash => State::Waiting,
    }
}

// An owed one is reversed only when its host says done.
fn once_undone(answer: ReverseAnswer) -> State
    ensures { result ≡ once_undone answer }
{
    match answer {
        ReverseAnswer::Done => State::Reversed,
        ReverseAnswer::Silence => State::Owed,
    }
}

impl<H: Host> Switch<H> {
    // An entry is in this state, now that its host was asked.
    fn settle(&mut self, held: Held, state: State) -> Told
        requires next { Next (view H.meaning self.old).books.places (view H.meaning self.old).books.mark held.place held.entry }
        requires kept { undone state ≡ undone held.entry.state }
        ensures told { result ≡ record { number = held.entry.number; state = state } }
        ensures state { view H.meaning self.new ≡ with (view H.meaning self.old) (forwarded (view H.meaning self.old).books held.place (in_state state held.entry)) (view H.meaning self.old).host }
    {
        self.books.forward(held, state);
        Told {
            number: held.entry.number,
            state,
        }
    }

    // Posts a waiting entry, which must stand: its amount has been paid out.
    fn put(&mut self, held: Held) -> Told
        requires next { Next (view H.meaning self.old).books.places (view H.meaning self.old).books.mark held.place held.entry }
        requires waits { held.entry.state ≡ Waiting }
        ensures { PutNow (view H.meaning self.old) held.place held.entry result (view H.meaning self.new) }
    {
        let answer = self
            .host
            .post(held.entry.key(), held.entry.terms.details(), true);
        self.settle(held, once_put(answer))
    }

    // Takes an owed entry back.
    fn undo(&mut self, held: Held) -> Told
        requires next { Next (view H.meaning self.old).books.places (view H.meaning self.old).books.mark held.place held.entry }
        requires owes { held.entry.state ≡ Owed }
        ensures { UndoneNow (view H.meaning self.old) held.place held.entry result (view H.meaning self.new) }
    {
        let answer = self.host.reverse(held.entry.key());
        self.settle(held, once_undone(answer))
    }

    // Gives the host a turn, then asks it once for the next entry that waits or is owed, and tells what came of it.
    pub fn forward(&mut self) -> Option<Told>
        ensures { Forwarded (view H.meaning self.old) result (view H.meaning self.new) }
    {
        self.host.turn();
        let held = self.books.next_unsettled()?;
        Some(match held.entry.state {
            State::Owed => self.undo(held),
            _ => self.put(held),
        })
    }
}
