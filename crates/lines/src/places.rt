ghost use Rattle.std.specs.Prelude.{◌≡◌, ℕ, true, ◌≢◌, nat_lt};
ghost use Rattle.std.specs.Option.{option_or};
ghost use Rattle.host.specs.Meaning.{reversed, forgotten, forgetting_answer};
ghost use Rattle.host.specs.declared.line.Line.TheVariants.{Absent};
ghost use Rattle.lines.specs.Answers.{room_for, reverse_answer};
ghost use Rattle.lines.specs.Rows.{shown, free, place_of, lowest_free, Leaves};

use crate::table::{Lines, Row};
use host::ask::{ForgetAnswer, ReverseAnswer};
use host::line::{Key, Line};

// The place of a key.
fn find(rows: &[Option<Row>], key: Key) -> Option<usize>
    ensures { result ≡ place_of rows.now key }
{
    rows.iter()
        .position(|row| row.is_some_and(|row| row.key == key))
}

// The lowest free place.
fn free_place(rows: &[Option<Row>]) -> Option<usize>
    ensures { result ≡ lowest_free rows.now }
{
    rows.iter().position(Option::is_none)
}

// The place that a key has already, or the lowest free one.
fn place_for(rows: &[Option<Row>], key: Key) -> Option<usize>
    ensures { result ≡ option_or (place_of rows.now key) (lowest_free rows.now) }
{
    find(rows, key).or_else(|| free_place(rows))
}

impl<const N: usize> Lines<N> {
    pub fn new() -> Lines<N>
        ensures lines { (issuer number : ℕ) → shown result.rows issuer number ≡ Absent }
        ensures free { free result.rows ≡ N }
    {
        Lines { rows: [None; N] }
    }

    // Whether some place is free.
    pub fn has_room(&self) -> bool
        ensures { result ≡ nat_lt 0 (free self.now.rows) }
    {
        free_place(&self.rows).is_some()
    }

    // The line of a key.
    pub fn get(&self, key: Key) -> Line
        ensures { result ≡ shown self.now.rows key.issuer key.number }
    {
        let Some(i) = find(&self.rows, key) else {
            return Line::Absent;
        };
        self.rows[i].map_or(Line::Absent, |row| row.line)
    }

    // Keeps a line, in the place that the key has already, or in the lowest free one.
    fn store(&mut self, key: Key, line: Line)
        requires solid { line ≢ Absent }
        requires room { room_for (shown self.old.rows key.issuer key.number) line (free self.old.rows) ≡ true }
        ensures { Leaves self.old.rows key line self.new.rows }
    {
        let i = place_for(&self.rows, key).unwrap();
        self.rows[i] = Some(Row { key, line });
    }

    // Keeps no line of a key any more.
    fn clear(&mut self, key: Key)
        ensures { Leaves self.old.rows key Absent self.new.rows }
    {
        if let Some(i) = find(&self.rows, key) {
            self.rows[i] = None;
        }
    }

    // Keeps a line in the stead of the one that a key has; keeps none if it is absent.
    pub fn put(&mut self, key: Key, line: Line)
        requires { room_for (shown self.old.rows key.issuer key.number) line (free self.old.rows) ≡ true }
        ensures { Leaves self.old.rows key line self.new.rows }
    {
        match line {
            Line::Absent => self.clear(key),
            line => self.store(key, line),
        }
    }

    // Keeps the line left in the stead of the one found. Where it stays as it is, there is nothing to write, and no place is looked for.
    pub fn change(&mut self, key: Key, found: Line, left: Line)
        requires found { found ≡ shown self.old.rows key.issuer key.number }
        requires room { room_for found left (free self.old.rows) ≡ true }
        ensures { Leaves self.old.rows key left self.new.rows }
    {
        if left != found {
            self.put(key, left);
        }
    }

    // What a reverse of the line found is to be answered: only a new line can want for a place.
    pub fn reverse_outcome(&self, found: Line) -> ReverseAnswer
        ensures { result ≡ reverse_answer (free self.now.rows) found }
    {
        match found {
            Line::Absent if !self.has_room() => ReverseAnswer::Silence,
            _ => ReverseAnswer::Done,
        }
    }

    // Closes the line of a key, or keeps a closed one where there was none; silent where that finds no place. It need not know which
    // line it closes, so its place is looked for once.
    pub fn close(&mut self, key: Key) -> ReverseAnswer
        ensures answer { result ≡ reverse_answer (free self.old.rows) (shown self.old.rows key.issuer key.number) }
        ensures lines { Leaves self.old.rows key (reversed (shown self.old.rows key.issuer key.number) result) self.new.rows }
    {
        let Some(place) = place_for(&self.rows, key) else {
            return ReverseAnswer::Silence;
        };
        self.rows[place] = Some(Row {
            key,
            line: Line::Closed,
        });
        ReverseAnswer::Done
    }

    // Forgets the line of a key that is not held, if it is settled.
    pub fn forget(&mut self, key: Key, held: bool) -> ForgetAnswer
        ensures answer { result ≡ forgetting_answer held (shown self.old.rows key.issuer key.number) }
        ensures lines { Leaves self.old.rows key (forgotten result (shown self.old.rows key.issuer key.number)) self.new.rows }
    {
        if held {
            return ForgetAnswer::NotNow;
        }
        match self.get(key) {
            Line::Adrift(_) | Line::Leaving(_) => ForgetAnswer::NotNow,
            Line::Absent | Line::Posted(_) | Line::Closed => {
                self.clear(key);
                ForgetAnswer::Done
            }
        }
    }
}
