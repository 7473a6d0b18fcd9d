// The sums of a day.
ghost use Rattle.std.specs.Prelude.{◌≡◌, length};
ghost use Rattle.sums.specs.Sums.{ApprovedWithin, ReversedWithin};
ghost use Rattle.sums.specs.Tables.{Square, table_sums};

mod methods;

use crate::figures::Figures;

// The figures by acquirer and issuer. No day that exists has counted more than 512 approvals or 512 reversals of at most 10^12
// each, so no sum of its figures overflows.
#[derive(Clone, Copy)]
pub struct Day {
    pairs: [[Figures; 16]; 16],
    ghost full: { length pairs ≡ 16 },
    ghost square: { Square pairs },
    ghost approved: { ApprovedWithin 512 (table_sums pairs) },
    ghost reversed: { ReversedWithin 512 (table_sums pairs) },
}
