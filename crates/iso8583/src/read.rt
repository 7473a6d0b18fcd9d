// A message is read from the left: type, bitmaps, then each element that is marked.
ghost use Rattle.std.specs.Prelude.{◌≡◌, ◌+◌, ◌^◌, ◌<◌, ◌≤◌, length, drop};
ghost use Rattle.iso8583.specs.Reading.{mti_of, half, bits_of, body, wrong, characters, sized};
ghost use Rattle.elements.specs.Table.{fits};
ghost use Rattle.iso8583.specs.Walked.{Walked};

use crate::bitmap::{body, is_marked, joined};
use crate::found::Found;
use elements::fault::{ElementFault, MessageFault};
use elements::number::{Base, number, numeral};
use elements::table::{Format, Length, ROWS, Row, rows};

pub(crate) fn read_mti(bytes: &[u8]) -> Result<u16, MessageFault>
    ensures { result ≡ mti_of bytes.now }
{
    let mti = numeral(Base::Decimal, bytes, 0, 4).map_err(|place| MessageFault::Mti { place })?;
    Ok(mti as u16)
}

// The bitmap that stands at a place.
fn read_half(bytes: &[u8], at: usize) -> Result<u64, MessageFault>
    requires { at ≤ 20 }
    ensures { result ≡ half at (drop at bytes.now) }
{
    numeral(Base::Hexadecimal, bytes, at, 16).map_err(|place| MessageFault::Bitmap { place })
}

pub(crate) fn read_bitmap(bytes: &[u8]) -> Result<u128, MessageFault>
    ensures { result ≡ bits_of bytes.now }
{
    let high = read_half(bytes, 4)?;
    let first = joined(high, 0);
    if !is_marked(first, 1) {
        return Ok(first);
    }
    let low = read_half(bytes, 20)?;
    Ok(joined(high, low))
}

// The place of the first character that does not fit a format, counted from `start`.
pub fn first_wrong(format: Format, start: usize, chars: &[u8]) -> Option<usize>
    requires { start + length chars.now < 2 ^ 64 }
    ensures { result ≡ wrong (fits format) (length chars.now) start chars.now }
{
    let place = chars.iter().position(|c| !format.fits(*c))?;
    Some(start + place)
}

// n characters of an element, of which `rest` has what stands from `start` on. With its length the element starts at `at`.
fn read_characters(
    row: &Row,
    at: usize,
    start: usize,
    n: usize,
    rest: &[u8],
) -> Result<Found, ElementFault>
    requires { start + length rest.now < 2 ^ 64 }
    ensures { result ≡ characters row.now at start n rest.now }
{
    let element = row.element;
    let Some(chars) = rest.get(..n) else {
        return Err(ElementFault::Truncated { element, place: at });
    };
    if let Some(place) = first_wrong(row.format, start, chars) {
        return Err(ElementFault::Character { element, place });
    }
    Ok(Found {
        element,
        start,
        end: start + n,
    })
}

// An element, of which `rest` has what stands from `at` on.
fn read_element(row: &Row, at: usize, rest: &[u8]) -> Result<Found, ElementFault>
    requires { at + length rest.now < 2 ^ 64 }
    ensures { result ≡ sized row.now.length row.now at rest.now }
{
    let element = row.element;
    if let Length::Fixed(n) = row.length {
        return read_characters(row, at, at, usize::from(n), rest);
    }
    let [tens, units, chars @ ..] = rest else {
        return Err(ElementFault::Truncated { element, place: at });
    };
    match number(&[*tens, *units]) {
        Some(n) if row.length.admits(n as usize) => {
            read_characters(row, at, at + 2, n as usize, chars)
        }
        _ => Err(ElementFault::Length { element, place: at }),
    }
}

// Puts to the front of `found` where the elements stand that a bitmap marks, and answers how many they are.
pub(crate) fn read_elements(
    bytes: &[u8],
    bitmap: u128,
    found: &mut [Found; ROWS],
) -> Result<usize, MessageFault>
    requires { body bitmap ≤ length bytes.now }
    ensures { Walked bytes.now bitmap found.new result }
{
    let mut count = 0;
    let mut at = body(bitmap);
    for row in rows() {
        if is_marked(bitmap, row.element) {
            let element = read_element(row, at, &bytes[at..])?;
            found[count] = element;
            count += 1;
            at = element.end;
        }
    }
    if at < bytes.len() {
        return Err(MessageFault::Trailing { place: at });
    }
    Ok(count)
}
