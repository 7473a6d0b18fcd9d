// What a host was asked: how often, and the latest ask.
ghost use Rattle.std.specs.Prelude.{◌≡◌};
ghost use Rattle.host.specs.Logs.{unasked, asked, turned};
ghost use Rattle.host.specs.declared.ask.Ask.TheVariants.{Post, Reverse};

use crate::ask::{Ask, PostAnswer, ReverseAnswer};
use crate::line::{Details, Key};

// Counts are kept modulo 2^32.
#[derive(Clone, Copy, PartialEq, Eq, Debug)]
pub struct Log {
    pub asks: u32,
    pub turns: u32,
    pub latest: Option<Ask>,
}

impl Log {
    pub fn new() -> Log
        ensures { result ≡ unasked }
    {
        Log {
            asks: 0,
            turns: 0,
            latest: None,
        }
    }

    // One ask more.
    pub fn ask(&mut self, ask: Ask)
        ensures { self.new ≡ asked self.old ask }
    {
        self.asks = self.asks.wrapping_add(1);
        self.latest = Some(ask);
    }

    // A post more, with its answer.
    pub fn posted(&mut self, key: Key, details: Details, must_stand: bool, answer: PostAnswer)
        ensures { self.new ≡ asked self.old (Post key details must_stand answer) }
    {
        self.ask(Ask::Post {
            key,
            details,
            must_stand,
            answer,
        });
    }

    // A reverse more, with its answer.
    pub fn reversed(&mut self, key: Key, answer: ReverseAnswer)
        ensures { self.new ≡ asked self.old (Reverse key answer) }
    {
        self.ask(Ask::Reverse { key, answer });
    }

    // One turn more.
    pub fn turn(&mut self)
        ensures { self.new ≡ turned self.old }
    {
        self.turns = self.turns.wrapping_add(1);
    }
}
