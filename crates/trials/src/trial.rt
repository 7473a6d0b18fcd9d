// A host for trials: what the meaning of a host leaves open is told by a script.
ghost use Rattle.std.specs.Prelude.{◌≡◌, ℕ, drop, None};
ghost use Rattle.host.specs.Logs.{unasked};
ghost use Rattle.host.specs.Meaning.{Posts, Reverses, Forgets, Turns};
ghost use Rattle.host.specs.declared.line.Line.TheVariants.{Absent};
ghost use Rattle.trials.specs.Script.{cues_left, first_cue, trial_answer, trial_reverse, holding, is_held};
ghost use Rattle.trials.specs.Views.{tried};
ghost use Rattle.lines.specs.Rows.{free, shown, PlacesKept};

use crate::script::{Script, Word};
use host::ask::{ForgetAnswer, PostAnswer, ReverseAnswer};
use host::line::{Details, Key, Line};
use host::log::Log;
use host::{Host, code};
use lines::change::{after_post, after_reverse};
use lines::table::Lines;

// How many lines it keeps.
const LINES: usize = 1024;

// Each ask takes the next cue of the script, also where it cannot matter. Once they run out, it posts.
#[derive(Drop)]
pub struct TrialHost {
    script: Script,
    held: Option<Key>,
    lines: Lines<LINES>,
    log: Log,
}

impl TrialHost {
    // A new host: no line, no ask, no key held.
    pub fn new(script: Script) -> TrialHost
        ensures lines { (issuer number : ℕ) → (tried result).lines issuer number ≡ Absent }
        ensures held { result.held ≡ None }
        ensures own { (result.script ≡ script) × (free result.lines.rows ≡ 1024) × (result.log ≡ unasked) }
    {
        TrialHost {
            script,
            held: None,
            lines: Lines::new(),
            log: Log::new(),
        }
    }

    // Whether a key is held.
    fn holds(&self, key: Key) -> bool
        ensures { result ≡ is_held self.now.held key.issuer key.number }
    {
        self.held == Some(key)
    }

    fn answer(&self, word: Word, found: Line, details: &Details) -> PostAnswer
        ensures { result ≡ trial_answer word (free self.now.lines.rows) found details.now }
    {
        match (found, word) {
            (Line::Absent, Word::Posted | Word::Silence) if !self.lines.has_room() => {
                PostAnswer::Declined(code::NO_ROOM)
            }
            (Line::Absent, word) => word.answer(),
            (Line::Posted(booked) | Line::Adrift(booked), _) if booked != *details => {
                PostAnswer::Clash
            }
            (Line::Posted(_), Word::Silence) => PostAnswer::Silence,
            (Line::Posted(_), _) => PostAnswer::Posted,
            (Line::Adrift(_), word) => word.answer(),
            (Line::Leaving(_), _) => PostAnswer::Silence,
            (Line::Closed, Word::Posted) => PostAnswer::Declined(code::NO_ACTION_TAKEN),
            (Line::Closed, word) => word.answer(),
        }
    }

    // Silent where the script says so, and where a new line finds no place.
    fn reverse_answer(&self, word: Word, found: Line) -> ReverseAnswer
        ensures { result ≡ trial_reverse word (free self.now.lines.rows) found }
    {
        match word {
            Word::Silence => ReverseAnswer::Silence,
            _ => self.lines.reverse_outcome(found),
        }
    }
}

// The steps are those of the limit host, and the script and the key held change between them: no function takes them together,
// since it would have to ask of a host's rule what each host shows here by itself.
impl Host for TrialHost {
    ghost meaning = { tried };

    fn post(&mut self, key: Key, details: Details, must_stand: bool) -> PostAnswer
        ensures kept { Posts (tried self.old) key details must_stand result (tried self.new) }
        ensures answer { result ≡ trial_answer (first_cue (cues_left self.old.script)).word (free self.old.lines.rows) (shown self.old.lines.rows key.issuer key.number) details }
        ensures places { PlacesKept self.old.lines.rows key self.new.lines.rows }
        ensures script { cues_left self.new.script ≡ drop 1 (cues_left self.old.script) }
        ensures held { self.new.held ≡ holding (first_cue (cues_left self.old.script)) key }
    {
        let cue = self.script.take();
        let found = self.lines.get(key);
        let answer = self.answer(cue.word, found, &details);
        self.lines.put(key, after_post(found, details, answer));
        self.held = cue.holds.then_some(key);
        self.log.posted(key, details, must_stand, answer);
        answer
    }

    fn reverse(&mut self, key: Key) -> ReverseAnswer
        ensures kept { Reverses (tried self.old) key result (tried self.new) }
        ensures answer { result ≡ trial_reverse (first_cue (cues_left self.old.script)).word (free self.old.lines.rows) (shown self.old.lines.rows key.issuer key.number) }
        ensures places { PlacesKept self.old.lines.rows key self.new.lines.rows }
        ensures script { cues_left self.new.script ≡ drop 1 (cues_left self.old.script) }
        ensures held { self.new.held ≡ holding (first_cue (cues_left self.old.script)) key }
    {
        let cue = self.script.take();
        let found = self.lines.get(key);
        let answer = self.reverse_answer(cue.word, found);
        self.lines.put(key, after_reverse(found, answer));
        self.held = cue.holds.then_some(key);
        self.log.reversed(key, answer);
        answer
    }

    fn forget(&mut self, key: Key) -> ForgetAnswer
        ensures kept { Forgets (tried self.old) key result (tried self.new) }
        ensures places { PlacesKept self.old.lines.rows key self.new.lines.rows }
        ensures script { self.new.script ≡ self.old.script }
    {
        let held = self.holds(key);
        self.lines.forget(key, held)
    }

    fn line(&self, key: Key) -> Line {
        self.lines.get(key)
    }

    // What was held is held no more.
    fn turn(&mut self)
        ensures kept { Turns (tried self.old) (tried self.new) }
        ensures held { self.new.held ≡ None }
        ensures same { (self.new.script ≡ self.old.script) × (self.new.lines ≡ self.old.lines) }
    {
        self.held = None;
        self.log.turn();
    }
}
