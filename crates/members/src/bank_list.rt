ghost use Rattle.std.specs.Prelude.{◌≡◌, ◌<◌, ◌≤◌, cond, length, IfSome, Some, None};
ghost use Rattle.members.specs.Codes.{place_in, code_at, proper_code};
ghost use Rattle.members.specs.Members.{codes_of, Opened};

use crate::banks::{Banks, MOST_BANKS};
use crate::keeping::{all_kept, laid_out};
use arrayvec::ArrayVec;
use elements::fault::SwitchFault;

// The highest code that a bank can have: eleven digits.
const HIGHEST_CODE: u64 = 99_999_999_999;

// The place of a code, counted from 0.
fn place_in(codes: &[u64], code: u64) -> Option<usize>
    ensures which { result ≡ place_in codes.now code }
    ensures within { IfSome result (λ i. i < length codes.now) }
{
    codes.iter().position(|c| *c == code)
}

// Whether a bank may have this code, beside those that come after it.
fn proper(code: u64, later: &[u64]) -> bool
    ensures { result ≡ proper_code code later.now }
{
    (1..=HIGHEST_CODE).contains(&code) && place_in(later, code).is_none()
}

impl Banks {
    // The banks with these codes, in this order.
    pub fn open(codes: &[u64]) -> Result<Banks, SwitchFault>
        ensures { Opened codes.now result }
    {
        if codes.is_empty() {
            return Err(SwitchFault::Banks);
        }
        let kept = all_kept(codes, |code, later| proper(*code, later).then_some(*code));
        let codes: ArrayVec<u64, MOST_BANKS> = kept.ok_or(SwitchFault::Banks)?;
        Ok(Banks {
            codes: laid_out(&codes),
            count: codes.len(),
        })
    }

    // How many they are.
    pub fn count(&self) -> usize
        ensures { (result ≡ length (codes_of self.now)) × ((1 ≤ result) × (result ≤ 16)) }
    {
        self.count
    }

    // The place of the bank with this code.
    pub fn place(&self, code: u64) -> Option<u8>
        ensures which { result ≡ place_in (codes_of self.now) code }
        ensures within { IfSome result (λ i. (i < 16) × (i < length (codes_of self.now))) }
    {
        let count = self.count;
        let place = place_in(&self.codes[..count], code)?;
        Some(place as u8)
    }

    // The code of the bank at a place.
    pub fn code(&self, place: u8) -> Option<u64>
        ensures { result ≡ code_at (codes_of self.now) place }
    {
        let count = self.count;
        self.codes[..count].get(usize::from(place)).copied()
    }
}
