// Moments as messages tell them: month, day, hour, minute and second, MMDDhhmmss, two digits each and no year.
ghost use Rattle.std.specs.Prelude.{◌≡◌, ℕ, ◌^◌, ◌<◌, true};
ghost use Rattle.elements.specs.Moments.{is_moment, moment_of, moment_numbered};

use crate::number::number;
use std::marker::Model;

// How many digits a moment has.
const DIGITS: usize = 10;

// A moment, held as the number that its ten digits write: within a year, numbers are in the order of moments.
#[derive(Clone, Copy, PartialEq, Eq, PartialOrd, Ord, Debug)]
pub struct Moment {
    number: u64,
}

impl Model for Moment {
    ghost Value = { ℕ };

    ghost view = { λ m. m.number };

    ghost inverse = { λ n. record { number = n } };

    ghost invariant = { λ m. is_moment m.number ≡ true };
}

// Whether each of the five fields is in its range. Day 31 is taken in every month.
fn in_range(number: u64) -> bool
    ensures { result ≡ is_moment number }
{
    let month = number / 100_000_000;
    let day = number / 1_000_000 % 100;
    let hour = number / 10_000 % 100;
    let minute = number / 100 % 100;
    let second = number % 100;
    matches!(month, 1..=12) && matches!(day, 1..=31) && hour <= 23 && minute <= 59 && second <= 59
}

impl Moment {
    // The moment with this number, if there is one.
    pub fn new(number: u64) -> Option<Moment>
        ensures { result ≡ moment_numbered number }
    {
        if in_range(number) {
            Some(Moment { number })
        } else {
            None
        }
    }

    // The moment that ten digits write, if they write one.
    pub fn read(digits: &[u8]) -> Option<Moment>
        ensures { result ≡ moment_of digits.now }
    {
        if digits.len() != DIGITS {
            return None;
        }
        Moment::new(number(digits)?)
    }

    // The number that its ten digits write.
    pub fn number(self) -> u64
        ensures value { result ≡ self }
        ensures valid { is_moment result ≡ true }
        ensures small { result < 10 ^ 10 }
    {
        self.number
    }
}
