// What a line comes to by an answer, and what a line that is there already answers.
ghost use Rattle.std.specs.Prelude.{◌≡◌};
ghost use Rattle.host.specs.Meaning.{reversed};
ghost use Rattle.lines.specs.Answers.{repeated, left_by};

use host::ask::{PostAnswer, ReverseAnswer};
use host::line::{Details, Line};

// A line with these details answers a post that asks for others by clash.
pub fn repeat(found: &Details, asked: &Details) -> PostAnswer
    ensures { result ≡ repeated found.now asked.now }
{
    if *found == *asked {
        PostAnswer::Posted
    } else {
        PostAnswer::Clash
    }
}

// The line that a post leaves.
pub fn after_post(found: Line, details: Details, answer: PostAnswer) -> Line
    ensures { result ≡ left_by found details answer }
{
    match (found, answer) {
        (Line::Absent, PostAnswer::Posted) => Line::Posted(details),
        (Line::Absent, PostAnswer::Silence) => Line::Adrift(details),
        (Line::Adrift(booked), PostAnswer::Posted) => Line::Posted(booked),
        (line, _) => line,
    }
}

// The line that a reverse leaves.
pub fn after_reverse(found: Line, answer: ReverseAnswer) -> Line
    ensures { result ≡ reversed found answer }
{
    match (found, answer) {
        (_, ReverseAnswer::Done) => Line::Closed,
        (Line::Posted(details) | Line::Adrift(details), ReverseAnswer::Silence) => {
            Line::Leaving(details)
        }
        (line, ReverseAnswer::Silence) => line,
    }
}
