// The transaction number: acquirer, moment and trace number in one, and parted again. It is a plain `u64`: hosts
// know a transaction by it, and any number may be sought.
ghost use Rattle.std.specs.Prelude.{◌≡◌, ◌*◌, ◌^◌, ◌<◌};
ghost use Rattle.journal.specs.Numbers;
ghost use Rattle.journal.specs.Numbers.{joined, InRange};

// The number of a transaction: its parts as digits, one behind the other. Parted again, it gives the same acquirer, moment and
// trace number.
#[tactic(auto, unfolding(crate::specs::Numbers::joined, crate::specs::Numbers::acquirer, crate::specs::Numbers::moment, crate::specs::Numbers::trace))]
pub fn join(acquirer: u8, moment: u64, trace: u32) -> u64
    requires { InRange acquirer moment trace }
    ensures { (result ≡ joined acquirer moment trace) × (result < 16 * 10 ^ 16) × (Numbers.acquirer result ≡ acquirer) × (Numbers.moment result ≡ moment) × (Numbers.trace result ≡ trace) }
{
    u64::from(acquirer) * 10_000_000_000_000_000 + moment * 1_000_000 + u64::from(trace)
}

// The moment in any number: ten digits in front of the last six.
#[tactic(auto, unfolding(crate::specs::Numbers::moment))]
pub fn moment(number: u64) -> u64
    ensures { (result ≡ Numbers.moment number) × (result < 10 ^ 10) }
{
    number / 1_000_000 % 10_000_000_000
}

// Acquirer, moment and trace number of a transaction. Joined again, they give the same number.
#[tactic(auto, unfolding(crate::specs::Numbers::joined, crate::specs::Numbers::acquirer, crate::specs::Numbers::moment, crate::specs::Numbers::trace))]
pub fn parts(number: u64) -> (u8, u64, u32)
    requires { number < 16 * 10 ^ 16 }
    ensures { (result.0 ≡ Numbers.acquirer number) × (result.1 ≡ Numbers.moment number) × (result.2 ≡ Numbers.trace number) × InRange result.0 result.1 result.2 × (joined result.0 result.1 result.2 ≡ number) }
{
    let acquirer = number / 10_000_000_000_000_000;
    let trace = number % 1_000_000;
    (acquirer as u8, moment(number), trace as u32)
}
