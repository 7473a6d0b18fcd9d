// The elements that a message may have.
ghost use Rattle.std.specs.Prelude.{◌≡◌};
ghost use Rattle.elements.specs.Table.{table, fits, admits, lead};

// The characters that an element is made of: `n` digits, `an` digits and letters, `ans` everything from blank to tilde.
#[derive(Clone, Copy)]
pub enum Format {
    Numeric,
    Alphanumeric,
    Printable,
}

// How long an element is: always the same, or as two digits before it say, from 1 up to a limit.
#[derive(Clone, Copy)]
pub enum Length {
    Fixed(u8),
    UpTo(u8),
}

// What the table says of one element.
#[derive(Clone, Copy)]
pub struct Row {
    pub element: u8,
    pub format: Format,
    pub length: Length,
}

// The table, in rising order. A new element is one line here and the same line in specs/Table.antt.
#[rattlefmt::skip]
const TABLE: &[Row] = &[
    Row { element: 2, format: Format::Numeric, length: Length::UpTo(19) },
    Row { element: 3, format: Format::Numeric, length: Length::Fixed(6) },
    Row { element: 4, format: Format::Numeric, length: Length::Fixed(12) },
    Row { element: 7, format: Format::Numeric, length: Length::Fixed(10) },
    Row { element: 11, format: Format::Numeric, length: Length::Fixed(6) },
    Row { element: 12, format: Format::Numeric, length: Length::Fixed(6) },
    Row { element: 13, format: Format::Numeric, length: Length::Fixed(4) },
    Row { element: 32, format: Format::Numeric, length: Length::UpTo(11) },
    Row { element: 33, format: Format::Numeric, length: Length::UpTo(11) },
    Row { element: 37, format: Format::Alphanumeric, length: Length::Fixed(12) },
    Row { element: 39, format: Format::Alphanumeric, length: Length::Fixed(2) },
    Row { element: 41, format: Format::Printable, length: Length::Fixed(8) },
    Row { element: 49, format: Format::Numeric, length: Length::Fixed(3) },
    Row { element: 90, format: Format::Numeric, length: Length::Fixed(42) },
];

// How many rows the table has, and so how many elements a message can have.
pub const ROWS: usize = TABLE.len();

pub fn rows() -> &'static [Row]
    ensures { result.now ≡ table }
{
    TABLE
}

impl Format {
    // Whether a character belongs to the format.
    pub fn fits(self, c: u8) -> bool
        ensures { result ≡ fits self c }
    {
        match self {
            Format::Numeric => c.is_ascii_digit(),
            Format::Alphanumeric => c.is_ascii_alphanumeric(),
            Format::Printable => matches!(c, b' '..=b'~'),
        }
    }
}

impl Length {
    // How many length digits stand before the element.
    pub fn lead(self) -> usize
        ensures { result ≡ lead self }
    {
        match self {
            Length::Fixed(_) => 0,
            Length::UpTo(_) => 2,
        }
    }

    // Whether an element may have n characters.
    pub fn admits(self, n: usize) -> bool
        ensures { result ≡ admits self n }
    {
        match self {
            Length::Fixed(length) => n == usize::from(length),
            Length::UpTo(limit) => 1 <= n && n <= usize::from(limit),
        }
    }
}
