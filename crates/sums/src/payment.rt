// What is counted.
ghost use Rattle.std.specs.Prelude.{◌<◌, ◌≤◌};

use host::line::Side;

// A transaction as the sums see it: there are sixteen banks, and an amount has twelve digits at most.
#[derive(Clone, Copy)]
pub struct Payment {
    pub acquirer: u8,
    pub issuer: u8,
    pub side: Side,
    pub amount: u64,
    ghost banks: { (acquirer < 16) × (issuer < 16) },
    ghost small: { amount ≤ 1000000000000 },
}
