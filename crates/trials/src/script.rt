// The script of a trial host.
ghost use Rattle.std.specs.Prelude.{◌≡◌, drop};
ghost use Rattle.trials.specs.Script.{cues_left, first_cue, by_word};

use host::ask::PostAnswer;
use std::vec;

// How an ask is to be answered, as far as the meaning of a host leaves that open.
#[derive(Clone, Copy, PartialEq, Eq, Debug, Default)]
pub enum Word {
    #[default]
    Posted,
    Silence,
    // with a response code; what is outside 1 to 99 counts as the nearest code inside
    Decline(u8),
}

// A word of the script, and whether the key of its ask is held until the next ask or turn.
#[derive(Clone, Copy, PartialEq, Eq, Debug, Default)]
pub struct Cue {
    pub word: Word,
    pub holds: bool,
}

// The cues that are still to be taken.
#[derive(Drop)]
pub struct Script {
    cues: vec::IntoIter<Cue>,
}

impl Word {
    // What is answered where the host may book or not.
    pub(crate) fn answer(self) -> PostAnswer
        ensures { result ≡ by_word self }
    {
        match self {
            Word::Posted => PostAnswer::Posted,
            Word::Silence => PostAnswer::Silence,
            Word::Decline(code) => PostAnswer::Declined(code.clamp(1, 99)),
        }
    }
}

impl Script {
    pub fn new(cues: Vec<Cue>) -> Script
        ensures { cues_left result ≡ cues.items }
    {
        Script {
            cues: cues.into_iter(),
        }
    }

    // The next cue; posted, once they run out.
    pub fn take(&mut self) -> Cue
        ensures cue { result ≡ first_cue (cues_left self.old) }
        ensures left { cues_left self.new ≡ drop 1 (cues_left self.old) }
    {
        self.cues.next().unwrap_or_default()
    }
}
