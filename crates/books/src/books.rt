// The journal and the sums that count its entries.
ghost use Rattle.std.specs.Prelude.{◌≡◌, ◌<◌, true};
ghost use Rattle.books.specs.Sizes.{all_small};
ghost use Rattle.journal.specs.Places.{taken, undone};
ghost use Rattle.sums.specs.Days.{sums_of};
ghost use Rattle.sums.specs.Sums.{ApprovedWithin, ReversedWithin};

pub mod entries;

use journal::journal::Journal;
use sums::day::Day;

// An entry may hold any numbers; that those in the books are small is the books' own fact, asked for where one is taken in. Within a
// day nothing leaves the journal, so what today approved is no more than the entries there are, and what it reversed no
// more than those that are owed or reversed: no sum overflows.
#[derive(Drop)]
pub struct Books {
    journal: Journal,
    // Where forwarding goes on.
    mark: usize,
    // Messages from this moment or before are too late.
    horizon: u64,
    // The moment of the last cutover, 0 before the first.
    last: u64,
    today: Day,
    closed: Option<Day>,
    ghost near: { mark < 512 },
    ghost small: { all_small journal.places ≡ true },
    ghost approved: { ApprovedWithin (taken journal.places) (sums_of today) },
    ghost reversed: { ReversedWithin (undone journal.places) (sums_of today) },
}
