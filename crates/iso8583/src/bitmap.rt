// The bitmap: 128 bits, of which bit 1 is the highest.
ghost use Rattle.std.specs.Prelude.{◌≡◌, ℕ, ◌-◌, ◌^◌, ◌≤◌, ◌||◌, ◌==◌};
ghost use Rattle.iso8583.specs.Bitmap.{marked, joined};
ghost use Rattle.iso8583.specs.Reading.{body, second_empty, marks_of};
ghost use Rattle.elements.specs.Table.{table, known};

use elements::fault::MessageFault;
use elements::table::rows;

// What the second bitmap counts up to.
const SECOND: u128 = 1 << 64;

// The bit of an element, in a number of 128.
pub fn bit(element: u8) -> u128
    requires { (1 ≤ element) × (element ≤ 128) }
    ensures { result ≡ 2 ^ (128 - element) }
{
    1 << (128 - element)
}

pub fn is_marked(bitmap: u128, element: u8) -> bool
    requires { (1 ≤ element) × (element ≤ 128) }
    ensures { result ≡ marked bitmap element }
{
    (bitmap >> (128 - element)) & 1 == 1
}

// Where the first element of a message starts.
pub fn body(bitmap: u128) -> usize
    ensures { result ≡ body bitmap }
{
    if is_marked(bitmap, 1) { 36 } else { 20 }
}

// The first bitmap and the second as one.
pub(crate) fn joined(high: u64, low: u64) -> u128
    ensures { result ≡ joined high low }
{
    (u128::from(high) << 64) | u128::from(low)
}

// The bits of the table's elements, and bit 1.
pub fn known_bits() -> u128
    ensures { (k : ℕ) → 1 ≤ k → k ≤ 128 → marked result k ≡ (1 == k || known table k) }
{
    let mut bits = bit(1);
    for row in rows() {
        bits |= bit(row.element);
    }
    bits
}

// Whether a second bitmap is announced and marks nothing.
fn second_is_empty(bitmap: u128) -> bool
    ensures { result ≡ second_empty bitmap }
{
    is_marked(bitmap, 1) && bitmap % SECOND == 0
}

// The bitmap again, if it marks only elements of the table, and its second half at least one where it is announced.
pub(crate) fn known_marks(bitmap: u128) -> Result<u128, MessageFault>
    ensures { result ≡ marks_of bitmap }
{
    let strange = bitmap & !known_bits();
    if strange != 0 {
        let element = strange.leading_zeros() as u8 + 1;
        let place = 4 + usize::from(element - 1) / 4;
        return Err(MessageFault::Unknown { element, place });
    }
    if second_is_empty(bitmap) {
        return Err(MessageFault::Empty);
    }
    Ok(bitmap)
}
