// A table of lines with a fixed number of places.
ghost use Rattle.std.specs.Prelude.{◌≡◌, true, length};
ghost use Rattle.lines.specs.Rows.{distinct};

use host::line::{Key, Line};

// A place that is taken: the line of a key.
#[derive(Clone, Copy)]
pub struct Row {
    pub key: Key,
    pub line: Line,
}

// Every table that exists has no key at two places. It is an array that is searched, and no map: a host takes its memory once, and
// none from the heap.
#[derive(Clone, Copy)]
pub struct Lines<const N: usize> {
    pub rows: [Option<Row>; N],
    ghost full: { length rows ≡ N },
    ghost once: { distinct rows ≡ true },
}
