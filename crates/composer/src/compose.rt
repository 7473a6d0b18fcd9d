// A whole message from its elements.
ghost use Rattle.composer.specs.Composes.{Steps, Puts, items};
ghost use Rattle.composer.specs.Contents.{composed};
ghost use Rattle.composer.specs.Laws.{ReadAgain, YieldedAgain};

use crate::writer::Writer;
use elements::fault::MessageFault;
use iso8583::message::Element;

// Each element, then the end.
fn put_all(mut writer: Writer, out: &mut [u8], elements: &[Element]) -> Result<usize, MessageFault>
    ensures { Puts out.old writer (items elements.now) result out.new }
{
    for element in elements {
        writer.put(out, element.number, element.chars)?;
    }
    writer.end()
}

// Writes the message of a type with these elements at the front of a buffer, and answers its length.
pub fn compose(out: &mut [u8], mti: u16, elements: &[Element]) -> Result<usize, MessageFault>
    ensures steps { Steps (composed out.old mti (items elements.now)) result out.new }
    ensures read_again { ReadAgain mti (items elements.now) result out.new }
    ensures yielded_again { YieldedAgain out.old mti (items elements.now) result out.new }
{
    let writer = Writer::start_with(out, mti, elements.iter().map(|element| element.number))?;
    put_all(writer, out, elements)
}
