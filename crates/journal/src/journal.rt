// The 512 places.
ghost use Rattle.std.specs.Prelude.{◌≡◌, length};
ghost use Rattle.journal.specs.Places.{Apart};

use crate::entry::Entry;

pub mod places;

// How many places there are.
pub const PLACES: usize = 512;

// Every journal that exists has no number at two places.
#[derive(Drop)]
pub struct Journal {
    // Places and no list: one in the middle may be freed.
    pub places: [Option<Entry>; PLACES],
    ghost full: { length places ≡ 512 },
    ghost apart: { ∥ Apart places ∥₁ },
}
