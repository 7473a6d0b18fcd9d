// A message over the bytes that it was read from.
ghost use Rattle.std.specs.Prelude.{◌≡◌, ◌≤◌, length, take, Ok};
ghost use Rattle.std.specs.List.{between};
ghost use Rattle.iso8583.specs.Reading.{reading, parts, body};
ghost use Rattle.iso8583.specs.Tiled.{Tiled};

use crate::found::Found;
use elements::table::ROWS;

mod methods;

// Where the parts of a message lie in its bytes: the type, the bitmap, and the offsets of the elements, of which `found` has `count`.
// It is kept without the bytes and copied, and an `ArrayVec` has no `Copy`: so an array, with the count beside it.
#[derive(Clone, Copy)]
pub struct Layout {
    mti: u16,
    bitmap: u128,
    found: [Found; ROWS],
    count: usize,
}

// A message over the bytes that it was read from, made by `Message::read`, or by `Layout::over` of a layout that was read from the
// same bytes. Every message that exists is what the format says of its bytes: its elements lie inside them, in rising order and without
// gap, from the bitmaps' end to the last byte.
#[derive(Clone, Copy)]
pub struct Message<'a> {
    bytes: &'a [u8],
    layout: Layout,
    ghost few: { layout.count ≤ length layout.found },
    ghost whole: { ∥ reading bytes.now ≡ Ok (parts layout.mti layout.bitmap (take layout.count layout.found)) ∥₁ },
    ghost tiled: { ∥ Tiled (body layout.bitmap) 1 (take layout.count layout.found) (length bytes.now) ∥₁ },
}

// An element of a message: its characters, a part of the message's own bytes, and their offset there.
#[derive(Clone, Copy, PartialEq, Eq, Debug)]
pub struct Element<'a> {
    pub number: u8,
    pub offset: usize,
    pub chars: &'a [u8],
}

impl Found {
    // The element that was found in these bytes.
    pub(crate) fn lend<'a>(&self, bytes: &'a [u8]) -> Element<'a>
        requires { (self.now.start ≤ self.now.end) × (self.now.end ≤ length bytes.now) }
        ensures number { result.number ≡ self.now.element }
        ensures offset { result.offset ≡ self.now.start }
        ensures chars { result.chars.now ≡ between self.now.start self.now.end bytes.now }
    {
        let start = self.start;
        let end = self.end;
        Element {
            number: self.element,
            offset: start,
            chars: &bytes[start..end],
        }
    }
}
