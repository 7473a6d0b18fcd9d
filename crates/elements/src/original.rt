// Element 90 of a reversal, taken apart: the message that it takes back.
ghost use Rattle.std.specs.Prelude.{◌≡◌, IfSome};
ghost use Rattle.elements.specs.Originals.{original_of, SizedOriginal};

use crate::number::number;

// How many digits element 90 has.
const DIGITS: usize = 42;

// What element 90 tells of the original message, each part as the number that its digits write.
#[derive(Clone, Copy, PartialEq, Eq, Debug)]
pub struct Original {
    // The message's type: 4 digits.
    pub mti: u16,
    // Its trace number: 6 digits.
    pub trace: u32,
    // When it was sent: 10 digits, whether or not they are a moment.
    pub moment: u64,
    // The institution that acquired it: 11 digits.
    pub acquirer: u64,
    // The institution that forwarded it: 11 digits.
    pub forwarder: u64,
}

impl Original {
    // Takes the 42 digits apart. None where there are more or fewer, or a byte is no digit.
    pub fn read(digits: &[u8]) -> Option<Original>
        ensures value { result ≡ original_of digits.now }
        ensures small { IfSome result SizedOriginal }
    {
        if digits.len() != DIGITS {
            return None;
        }
        let mti = number(&digits[..4])?;
        let trace = number(&digits[4..10])?;
        let moment = number(&digits[10..20])?;
        let acquirer = number(&digits[20..31])?;
        let forwarder = number(&digits[31..42])?;
        Some(Original {
            mti: mti as u16,
            trace: trace as u32,
            moment,
            acquirer,
            forwarder,
        })
    }
}
