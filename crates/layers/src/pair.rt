// Two hosts side by side.
ghost use Rattle.std.specs.Prelude.{◌≡◌};
ghost use Rattle.host.specs.Logs.{unasked};
ghost use Rattle.host.specs.Meaning.{Posts, Reverses, Forgets, Turns};
ghost use Rattle.layers.specs.Views.{paired, Sent};

use host::Host;
use host::ask::{ForgetAnswer, PostAnswer, ReverseAnswer};
use host::line::{Details, Key, Line};
use host::log::Log;

// Issuers below `split` are sent to the left host, the others to the right one.
#[derive(Drop)]
pub struct Pair<L: Host, R: Host> {
    left: L,
    right: R,
    split: u8,
    log: Log,
}

impl<L: Host, R: Host> Pair<L, R> {
    pub fn new(split: u8, left: L, right: R) -> Pair<L, R>
        ensures left { result.left ≡ left }
        ensures right { result.right ≡ right }
        ensures split { result.split ≡ split }
        ensures log { result.log ≡ unasked }
    {
        Pair {
            left,
            right,
            split,
            log: Log::new(),
        }
    }
}

// Each call says which host it goes to: the two have types of their own, so a value that holds one or the other would need the
// same two ways for each call.
impl<L: Host, R: Host> Host for Pair<L, R> {
    ghost meaning = { λ s. paired L.meaning R.meaning s };

    fn post(&mut self, key: Key, details: Details, must_stand: bool) -> PostAnswer
        ensures kept { Posts (paired L.meaning R.meaning self.old) key details must_stand result (paired L.meaning R.meaning self.new) }
        ensures sent { Sent L.meaning R.meaning (λ m n. Posts m key details must_stand result n) key.issuer self.old self.new }
    {
        let answer = if key.issuer < self.split {
            self.left.post(key, details, must_stand)
        } else {
            self.right.post(key, details, must_stand)
        };
        self.log.posted(key, details, must_stand, answer);
        answer
    }

    fn reverse(&mut self, key: Key) -> ReverseAnswer
        ensures kept { Reverses (paired L.meaning R.meaning self.old) key result (paired L.meaning R.meaning self.new) }
        ensures sent { Sent L.meaning R.meaning (λ m n. Reverses m key result n) key.issuer self.old self.new }
    {
        let answer = if key.issuer < self.split {
            self.left.reverse(key)
        } else {
            self.right.reverse(key)
        };
        self.log.reversed(key, answer);
        answer
    }

    fn forget(&mut self, key: Key) -> ForgetAnswer
        ensures kept { Forgets (paired L.meaning R.meaning self.old) key result (paired L.meaning R.meaning self.new) }
        ensures sent { Sent L.meaning R.meaning (λ m n. Forgets m key result n) key.issuer self.old self.new }
    {
        if key.issuer < self.split {
            self.left.forget(key)
        } else {
            self.right.forget(key)
        }
    }

    fn line(&self, key: Key) -> Line {
        if key.issuer < self.split {
            self.left.line(key)
        } else {
            self.right.line(key)
        }
    }

    // The hosts below get no turn of this one.
    fn turn(&mut self)
        ensures kept { Turns (paired L.meaning R.meaning self.old) (paired L.meaning R.meaning self.new) }
        ensures below { (self.new.left ≡ self.old.left) × (self.new.right ≡ self.old.right) }
        ensures same { self.new.split ≡ self.old.split }
    {
        self.log.turn();
    }
}
