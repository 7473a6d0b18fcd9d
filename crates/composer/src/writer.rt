// A message is written in steps: its type and the elements that it will have, then each of them in rising order, then the end.
ghost use Rattle.std.specs.Prelude.{◌≡◌, ℕ, ◌+◌, ◌<◌, ◌≤◌, List, [], ◌∷◌, length, find, option_copied};
ghost use Rattle.std.specs.List.{All};
ghost use Rattle.std.specs.Iterator.{IsFinite};
ghost use Rattle.std.specs.Iterator.Runs.{WholeRun};
ghost use Rattle.iso8583.specs.Reading.{body};
ghost use Rattle.composer.specs.Writers.{rest_of, Started, Placed, Put};
ghost use Rattle.elements.specs.Fields.{field};
ghost use Rattle.elements.specs.Table.{table};
ghost use Rattle.iso8583.specs.Bitmap.{marked};
ghost use Rattle.composer.specs.Writing.{head, laid, checked, ending};

use crate::marks::announce;
use crate::spell::{lay, spell};
use elements::fault::{ElementFault, MessageFault};
use elements::number::Base;
use elements::table::{Length, Row, rows};
use iso8583::bitmap::{bit, body, is_marked};
use iso8583::read::first_wrong;

// A writer under way: how much of the message is written, and marks of the elements that are still to come. The buffer stays with
// its caller and is passed to each step: were it lent to the writer, a caller could not know that a refused start left it alone.
#[derive(Drop)]
pub struct Writer {
    used: usize,
    left: u128,
}

// The type and the bitmaps.
#[tactic(auto, using(crate::proofs::Lays::head_single, crate::proofs::Lays::head_double))]
fn lay_head(out: &mut [u8], mti: u16, bitmap: u128)
    requires { body bitmap ≤ length out.old }
    ensures { out.new ≡ laid out.old 0 (head mti bitmap) }
{
    let mti = spell::<4>(Base::Decimal, u64::from(mti));
    lay(out, 0, &mti);
    let high = spell::<16>(Base::Hexadecimal, (bitmap >> 64) as u64);
    lay(out, 4, &high);
    if is_marked(bitmap, 1) {
        let low = spell::<16>(Base::Hexadecimal, (bitmap % (1 << 64)) as u64);
        lay(out, 20, &low);
    }
}

// Whether an element has a length and characters that the table allows.
fn check(row: &Row, chars: &[u8]) -> Result<(), ElementFault>
    ensures { result ≡ checked row.now chars.now }
{
    let element = row.element;
    if !row.length.admits(chars.len()) {
        return Err(ElementFault::Length { element, place: 0 });
    }
    if first_wrong(row.format, 0, chars).is_some() {
        return Err(ElementFault::Character { element, place: 0 });
    }
    Ok(())
}

// Writes an element from a place on, after its length digits where its length varies. Answers where it ends, or none where it does
// not fit the buffer.
fn lay_field(out: &mut [u8], at: usize, size: Length, chars: &[u8]) -> Option<usize>
    ensures { Placed out.old at (field size chars.now) result out.new }
{
    let end = at.checked_add(size.lead() + chars.len())?;
    if out.len() < end {
        return None;
    }
    match size {
        Length::Fixed(_) => lay(out, at, chars),
        Length::UpTo(_) => {
            lay(out, at, &spell::<2>(Base::Decimal, chars.len() as u64));
            lay(out, at + 2, chars);
        }
    }
    Some(end)
}

impl Writer {
    // Starts a message of a type with the elements that an iterator gives: their order does not count, nor does how often one is named.
    pub fn start_with<I: Iterator<Item = u8>>(
        out: &mut [u8],
        mti: u16,
        elements: I,
    ) -> Result<Writer, MessageFault>
        requires can { I.can_next elements }
        requires ends { IsFinite (I.remaining elements) }
        ensures { WholeRun I.next_gives elements (λ p. All (λ e. e < 256) p.items × Started out.old mti p.items result out.new) }
    {
        // A type that is none is told before an element that is unknown.
        let bitmap = announce(elements);
        if mti > 9999 {
            return Err(MessageFault::Mti { place: 0 });
        }
        let bitmap = bitmap?;
        let used = body(bitmap);
        if out.len() < used {
            return Err(MessageFault::Room { element: 0 });
        }
        lay_head(out, mti, bitmap);
        Ok(Writer { used, left: bitmap })
    }

    // Starts a message of a type with a set of elements.
    pub fn start(out: &mut [u8], mti: u16, elements: &[u8]) -> Result<Writer, MessageFault>
        ensures { Started out.old mti elements.now result out.new }
    {
        Writer::start_with(out, mti, elements.iter().copied())
    }

    // The row of the next element announced.
    fn next(&self) -> Option<&'static Row>
        ensures { option_copied result ≡ find (λ row. marked self.now.left row.element) table }
    {
        rows().iter().find(|row| is_marked(self.left, row.element))
    }

    // One element more: the next one announced, with its characters. A refusal leaves writer and buffer as they were.
    #[tactic(auto, using(crate::proofs::Rests::none_left, crate::proofs::Rests::next_left))]
    pub fn put(&mut self, out: &mut [u8], element: u8, chars: &[u8]) -> Result<(), MessageFault>
        ensures { Put out.old self.old element chars.now result out.new self.new }
    {
        let row = self.next().ok_or(MessageFault::Order { next: 0 })?;
        if row.element != element {
            return Err(MessageFault::Order { next: row.element });
        }
        check(row, chars)?;
        let end = lay_field(out, self.used, row.length, chars);
        self.used = end.ok_or(MessageFault::Room { element })?;
        self.left &= !bit(element);
        Ok(())
    }

    // Ends the message, and answers its length.
    #[tactic(auto, using(crate::proofs::Rests::none_left, crate::proofs::Rests::next_left))]
    pub fn end(self) -> Result<usize, MessageFault>
        ensures { result ≡ ending self.used (rest_of self) }
    {
        match self.next() {
            Some(row) => Err(MessageFault::Order { next: row.element }),
            None => Ok(self.used),
        }
    }
}
