// What an issuer's host means to the switch: its lines, and the five calls by which they change.
#![tactic(auto)]

ghost use Rattle.std.specs.Prelude.{◌≡◌};
ghost use Rattle.host.specs.Meaning.{Meaning, Posts, Reverses, Forgets, Turns};

pub mod ask;
pub mod code;
pub mod line;
pub mod log;

use ask::{ForgetAnswer, PostAnswer, ReverseAnswer};
use line::{Details, Key, Line};

// A host, by its meaning. Post and reverse are asks; forget, line and turn are none.
pub trait Host {
    ghost meaning: { Self → Meaning };

    // Books an amount under a key, or says why not. With `must_stand` the amount has been paid out already, and is to be
    // booked even if the card could not have paid it.
    fn post(&mut self, key: Key, details: Details, must_stand: bool) -> PostAnswer
        ensures { Posts (meaning self.old) key details must_stand result (meaning self.new) };

    // Takes a booking back, whether or not it was made.
    fn reverse(&mut self, key: Key) -> ReverseAnswer
        ensures { Reverses (meaning self.old) key result (meaning self.new) };

    // Gives up the memory of a settled line.
    fn forget(&mut self, key: Key) -> ForgetAnswer
        ensures { Forgets (meaning self.old) key result (meaning self.new) };

    // The line of a key.
    fn line(&self, key: Key) -> Line
        ensures { result ≡ (meaning self.now).lines key.issuer key.number };

    // Lets the host run errands of its own.
    fn turn(&mut self)
        ensures { Turns (meaning self.old) (meaning self.new) };
}
