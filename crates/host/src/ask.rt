// What a host is asked, and what it answers.
use crate::line::{Details, Key};

#[derive(Clone, Copy, PartialEq, Eq, Debug)]
pub enum PostAnswer {
    Posted,
    // with a response code of 1 to 99
    Declined(u8),
    Silence,
    // the line has other details
    Clash,
}

#[derive(Clone, Copy, PartialEq, Eq, Debug)]
pub enum ReverseAnswer {
    Done,
    Silence,
}

#[derive(Clone, Copy, PartialEq, Eq, Debug)]
pub enum ForgetAnswer {
    Done,
    NotNow,
}

// An ask with its answer.
#[derive(Clone, Copy, PartialEq, Eq, Debug)]
pub enum Ask {
    Post {
        key: Key,
        details: Details,
        must_stand: bool,
        answer: PostAnswer,
    },
    Reverse {
        key: Key,
        answer: ReverseAnswer,
    },
}
