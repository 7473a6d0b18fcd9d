ghost use Rattle.std.specs.Prelude.{◌≡◌, is_some};
ghost use Rattle.iso8583.specs.Messages.{LaidOut, LiesIn, layout_of, Read, Handed, present, parts_of, found_of};

use crate::bitmap::{is_marked, known_marks};
use crate::found::Found;
use crate::message::{Element, Layout, Message};
use crate::read::{read_bitmap, read_elements, read_mti};
use elements::fault::MessageFault;
use elements::table::ROWS;

impl Layout {
    // Finds the parts of a message in bytes of any length and content, or refuses them. The layout does not borrow the bytes: it
    // may be kept, and laid over them wherever they lie by then.
    pub fn read(bytes: &[u8]) -> Result<Layout, MessageFault>
        ensures { LaidOut bytes.now result }
    {
        let mti = read_mti(bytes)?;
        let bitmap = known_marks(read_bitmap(bytes)?)?;
        let mut found = [Found::default(); ROWS];
        let count = read_elements(bytes, bitmap, &mut found)?;
        Ok(Layout {
            mti,
            bitmap,
            found,
            count,
        })
    }

    // The message over the bytes that the layout was read from.
    pub fn over(self, bytes: &[u8]) -> Message<'_>
        requires { LiesIn bytes.now self }
        ensures bytes { result.bytes.now ≡ bytes.now }
        ensures layout { layout_of result ≡ self }
    {
        Message {
            bytes,
            layout: self,
        }
    }
}

impl<'a> Message<'a> {
    // The message that bytes of any length and content are, or the fault that they are refused for.
    pub fn read(bytes: &'a [u8]) -> Result<Message<'a>, MessageFault>
        ensures { Read bytes.now result }
    {
        Ok(Layout::read(bytes)?.over(bytes))
    }

    // The message's type, as a number: 0200 is 200.
    pub fn mti(&self) -> u16
        ensures { result ≡ self.now.layout.mti }
    {
        self.layout.mti
    }

    // Whether the message has an element.
    pub fn has(&self, number: u8) -> bool
        ensures { result ≡ present self.now number }
    {
        matches!(number, 2..=128) && is_marked(self.layout.bitmap, number)
    }

    // Where an element lies, if the message has it.
    fn find(&self, number: u8) -> Option<Found>
        ensures { result ≡ found_of (parts_of self.now).elements number }
    {
        let count = self.layout.count;
        self.layout.found[..count]
            .iter()
            .find(|found| found.element == number)
            .copied()
    }

    // An element, if the message has it: a part of the message's own bytes.
    pub fn element(&self, number: u8) -> Option<Element<'a>>
        ensures part { Handed self.now number result }
        ensures there { is_some result ≡ present self.now number }
    {
        Some(self.find(number)?.lend(self.bytes))
    }
}
