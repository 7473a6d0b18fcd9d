// Calls of a host and their answers, as values.
use host::ask::{ForgetAnswer, PostAnswer, ReverseAnswer};
use host::line::{Details, Key, Line};

#[derive(Clone, Copy)]
pub enum Call {
    Post {
        key: Key,
        details: Details,
        must_stand: bool,
    },
    Reverse {
        key: Key,
    },
    Forget {
        key: Key,
    },
    Line {
        key: Key,
    },
    Turn,
}

#[derive(Clone, Copy)]
pub enum Answer {
    Post(PostAnswer),
    Reverse(ReverseAnswer),
    Forget(ForgetAnswer),
    Line(Line),
    Turn,
}

// A call, and its answer once it was made.
#[derive(Clone, Copy)]
pub struct Exchange {
    pub call: Call,
    pub answer: Option<Answer>,
}
