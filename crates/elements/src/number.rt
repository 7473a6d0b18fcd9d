// Numbers written in digits.
ghost use Rattle.std.specs.Prelude.{◌≡◌, ◌+◌, ◌^◌, ◌<◌, ◌≤◌, length, drop, IfOk, IfSome};
ghost use Rattle.elements.specs.Numbers.{radix, digit_of, digit_in, numeral, number_of};

// The most digits of which every decimal number fits 64 bits.
const MOST_DIGITS: usize = 19;

// How a number is written: its digits are 0 to 9, and in a hexadecimal one capital A to F too.
#[derive(Clone, Copy)]
pub enum Base {
    Decimal,
    Hexadecimal,
}

impl Base {
    // How many digits there are.
    pub fn radix(self) -> u64
        ensures { result ≡ radix self }
    {
        match self {
            Base::Decimal => 10,
            Base::Hexadecimal => 16,
        }
    }

    // The digit that a character is, if it is one.
    fn digit(self, c: u8) -> Option<u8>
        ensures { result ≡ digit_of self c }
    {
        match (self, c) {
            (_, b'0'..=b'9') => Some(c - b'0'),
            (Base::Hexadecimal, b'A'..=b'F') => Some(c - b'A' + 10),
            _ => None,
        }
    }

    // The digit that stands at a place, if one does.
    fn digit_at(self, bytes: &[u8], place: usize) -> Option<u8>
        ensures { result ≡ digit_in self (drop place bytes.now) }
    {
        self.digit(*bytes.get(place)?)
    }
}

// The number that n digits write from a place on, or the place of the first byte that is missing or no digit.
pub fn numeral(base: Base, bytes: &[u8], at: usize, n: usize) -> Result<u64, usize>
    requires places { at + n < 2 ^ 64 }
    requires fits { radix base ^ n ≤ 2 ^ 64 }
    ensures value { result ≡ numeral base bytes.now at n }
    ensures small { IfOk result (λ v. v < radix base ^ n) }
{
    let mut number = 0;
    // By places, and not over the bytes: where one is missing, that has a place too.
    for place in at..at + n {
        let digit = base.digit_at(bytes, place).ok_or(place)?;
        number = number * base.radix() + u64::from(digit);
    }
    Ok(number)
}

// The number that 1 to 19 digits write. None for any other length, and where a byte is no digit.
pub fn number(digits: &[u8]) -> Option<u64>
    ensures value { result ≡ number_of digits.now }
    ensures small { IfSome result (λ n. n < 10 ^ length digits.now) }
{
    if digits.is_empty() || digits.len() > MOST_DIGITS {
        return None;
    }
    numeral(Base::Decimal, digits, 0, digits.len()).ok()
}
