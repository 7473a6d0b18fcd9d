// A host that is asked again where it was silent.
ghost use Rattle.std.specs.Prelude.{◌≡◌, min};
ghost use Rattle.host.specs.Logs.{unasked};
ghost use Rattle.host.specs.Meaning.{Posts, Reverses, Forgets, Turns};
ghost use Rattle.layers.specs.Tries.{Tried, Undone, softened};
ghost use Rattle.layers.specs.Views.{retried};

use host::Host;
use host::ask::{ForgetAnswer, PostAnswer, ReverseAnswer};
use host::line::{Details, Key, Line};
use host::log::Log;

// How often at most the host below is asked again.
const MOST: u8 = 9;

// Asks the host below again after a silence, up to `times` more.
#[derive(Drop)]
pub struct Retry<H: Host> {
    below: H,
    times: u8,
    log: Log,
}

// A decline that follows a silence is no decline: the silent ask may have been booked.
fn soften(answer: PostAnswer) -> PostAnswer
    ensures { result ≡ softened answer }
{
    match answer {
        PostAnswer::Declined(_) => PostAnswer::Silence,
        other => other,
    }
}

impl<H: Host> Retry<H> {
    // More than 9 times counts as 9.
    pub fn new(times: u8, below: H) -> Retry<H>
        ensures below { result.below ≡ below }
        ensures times { result.times ≡ min times 9 }
        ensures log { result.log ≡ unasked }
    {
        Retry {
            below,
            times: times.min(MOST),
            log: Log::new(),
        }
    }
}

// Post and reverse have a loop each: a function over the ask, as a closure, would have to promise what each of its calls did to the
// host below, at more length than the loops are, and a post alone softens what follows a silence.
impl<H: Host> Host for Retry<H> {
    ghost meaning = { λ s. retried H.meaning s };

    #[tactic(auto, using(crate::proofs::Went::once, crate::proofs::Went::again, crate::proofs::Went::ended))]
    fn post(&mut self, key: Key, details: Details, must_stand: bool) -> PostAnswer
        ensures kept { Posts (retried H.meaning self.old) key details must_stand result (retried H.meaning self.new) }
        ensures below { Tried (H.meaning self.old.below) self.old.times key details must_stand result (H.meaning self.new.below) }
        ensures same { self.new.times ≡ self.old.times }
    {
        let mut last = self.below.post(key, details, must_stand);
        let mut answer = last;
        for _ in 0..self.times {
            if last != PostAnswer::Silence {
                break;
            }
            last = self.below.post(key, details, must_stand);
            answer = soften(last);
        }
        self.log.posted(key, details, must_stand, answer);
        answer
    }

    #[tactic(auto, using(crate::proofs::Went::gone_once, crate::proofs::Went::gone_again, crate::proofs::Went::gone_ended))]
    fn reverse(&mut self, key: Key) -> ReverseAnswer
        ensures kept { Reverses (retried H.meaning self.old) key result (retried H.meaning self.new) }
        ensures below { Undone (H.meaning self.old.below) self.old.times key result (H.meaning self.new.below) }
        ensures same { self.new.times ≡ self.old.times }
    {
        let mut answer = self.below.reverse(key);
        for _ in 0..self.times {
            if answer != ReverseAnswer::Silence {
                break;
            }
            answer = self.below.reverse(key);
        }
        self.log.reversed(key, answer);
        answer
    }

    fn forget(&mut self, key: Key) -> ForgetAnswer
        ensures kept { Forgets (retried H.meaning self.old) key result (retried H.meaning self.new) }
        ensures below { Forgets (H.meaning self.old.below) key result (H.meaning self.new.below) }
        ensures same { self.new.times ≡ self.old.times }
    {
        self.below.forget(key)
    }

    fn line(&self, key: Key) -> Line {
        self.below.line(key)
    }

    // The host below gets no turn of this one.
    fn turn(&mut self)
        ensures kept { Turns (retried H.meaning self.old) (retried H.meaning self.new) }
        ensures below { self.new.below ≡ self.old.below }
        ensures same { self.new.times ≡ self.old.times }
    {
        self.log.turn();
    }
}
