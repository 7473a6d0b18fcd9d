// Where an element stands in a message: its characters from `start` up to `end`, without length digits.
#[derive(Clone, Copy, Default)]
pub struct Found {
    pub element: u8,
    pub start: usize,
    pub end: usize,
}
