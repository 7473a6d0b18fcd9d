// A host without accounts: it books every credit, and every debit up to a limit.
ghost use Rattle.std.specs.Prelude.{◌≡◌, ℕ};
ghost use Rattle.host.specs.Logs.{unasked};
ghost use Rattle.host.specs.Meaning.{Posts, Reverses, Forgets, Turns};
ghost use Rattle.host.specs.declared.line.Line.TheVariants.{Absent};
ghost use Rattle.hosts.specs.Answers.{within_limit, limit_answer};
ghost use Rattle.hosts.specs.Views.{limited};
ghost use Rattle.lines.specs.Answers.{reverse_answer};
ghost use Rattle.lines.specs.Rows.{free, shown, PlacesKept};

use host::ask::{ForgetAnswer, PostAnswer, ReverseAnswer};
use host::line::{Details, Key, Line, Side};
use host::log::Log;
use host::{Host, code};
use lines::change::{after_post, repeat};
use lines::table::Lines;

// How many lines it keeps.
const LINES: usize = 256;

#[derive(Drop)]
pub struct LimitHost {
    limit: u64,
    lines: Lines<LINES>,
    log: Log,
}

impl LimitHost {
    // A new host: no line, no ask.
    pub fn new(limit: u64) -> LimitHost
        ensures lines { (issuer number : ℕ) → (limited result).lines issuer number ≡ Absent }
        ensures own { (result.limit ≡ limit) × (free result.lines.rows ≡ 256) × (result.log ≡ unasked) }
    {
        LimitHost {
            limit,
            lines: Lines::new(),
            log: Log::new(),
        }
    }

    // What is answered where no line is found.
    fn admit(&self, details: &Details) -> PostAnswer
        ensures { result ≡ within_limit self.now.limit (free self.now.lines.rows) details.now }
    {
        if !self.lines.has_room() {
            return PostAnswer::Declined(code::NO_ROOM);
        }
        match details.side {
            Side::Debit if details.amount > self.limit => PostAnswer::Declined(code::EXCEEDS_LIMIT),
            _ => PostAnswer::Posted,
        }
    }

    fn answer(&self, found: Line, details: &Details) -> PostAnswer
        ensures { result ≡ limit_answer self.now.limit (free self.now.lines.rows) found details.now }
    {
        match found {
            Line::Absent => self.admit(details),
            Line::Posted(booked) | Line::Adrift(booked) => repeat(&booked, details),
            Line::Leaving(_) => PostAnswer::Silence,
            Line::Closed => PostAnswer::Declined(code::NO_ACTION_TAKEN),
        }
    }
}

// Each host that keeps lines takes these steps: the line found, the answer, the line left, the log. What else a host knows and
// changes stands between them, so a function over its rule would have to ask of the rule what each host shows here by itself. In a
// reverse of this host nothing does, so `close` takes the first three at once, and looks for the place once.
impl Host for LimitHost {
    ghost meaning = { limited };

    fn post(&mut self, key: Key, details: Details, must_stand: bool) -> PostAnswer
        ensures kept { Posts (limited self.old) key details must_stand result (limited self.new) }
        ensures answer { result ≡ limit_answer self.old.limit (free self.old.lines.rows) (shown self.old.lines.rows key.issuer key.number) details }
        ensures places { PlacesKept self.old.lines.rows key self.new.lines.rows }
        ensures same { self.new.limit ≡ self.old.limit }
    {
        let found = self.lines.get(key);
        let answer = self.answer(found, &details);
        let left = after_post(found, details, answer);
        self.lines.change(key, found, left);
        self.log.posted(key, details, must_stand, answer);
        answer
    }

    fn reverse(&mut self, key: Key) -> ReverseAnswer
        ensures kept { Reverses (limited self.old) key result (limited self.new) }
        ensures answer { result ≡ reverse_answer (free self.old.lines.rows) (shown self.old.lines.rows key.issuer key.number) }
        ensures places { PlacesKept self.old.lines.rows key self.new.lines.rows }
        ensures same { self.new.limit ≡ self.old.limit }
    {
        let answer = self.lines.close(key);
        self.log.reversed(key, answer);
        answer
    }

    fn forget(&mut self, key: Key) -> ForgetAnswer
        ensures kept { Forgets (limited self.old) key result (limited self.new) }
        ensures places { PlacesKept self.old.lines.rows key self.new.lines.rows }
        ensures same { self.new.limit ≡ self.old.limit }
    {
        self.lines.forget(key, false)
    }

    fn line(&self, key: Key) -> Line {
        self.lines.get(key)
    }

    fn turn(&mut self)
        ensures kept { Turns (limited self.old) (limited self.new) }
        ensures same { (self.new.limit ≡ self.old.limit) × (self.new.lines ≡ self.old.lines) }
    {
        self.log.turn();
    }
}
