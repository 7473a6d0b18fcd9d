// The reply to a message, written at the front of a buffer that its caller lends.
ghost use Rattle.std.specs.Prelude.{◌≡◌, ◌≤◌, length, take, is_some};
ghost use Rattle.composer.specs.Composes.{Steps};
ghost use Rattle.composer.specs.Contents.{all_put, composed};
ghost use Rattle.composer.specs.Writers.{Started, state_of};
ghost use Rattle.composer.specs.Writing.{laid};
ghost use Rattle.replies.specs.Replies.{Reads, answer, bytes_of, reply_type};

use composer::spell::spell;
use composer::writer::Writer;
use elements::fault::MessageFault;
use elements::number::Base;
use iso8583::message::Message;

// The elements that a reply may have, in rising order as the writer wants them: those that it repeats, and the response code.
const REPLIED: &[u8] = &[3, 4, 7, 11, 32, 37, RESPONSE_CODE, 41, 49];

const RESPONSE_CODE: u8 = 39;

// What a reply is made of: the message that it answers, of a type that has a reply, and a response code of two digits.
#[derive(Drop)]
struct Response<'a> {
    message: &'a Message<'a>,
    code: u8,
    ghost small: { code ≤ 99 },
    ghost answered: { message.now.layout.mti ≤ 9989 },
}

impl Response<'_> {
    ghost use Rattle.replies.specs.Picks.{PutTold, items_of, numbers_of, told_by};

    // Its type: the third digit is raised by one, the last is 0.
    fn mti(&self) -> u16
        ensures { result ≡ reply_type self.now.message.now.layout.mti }
    {
        (self.message.mti() / 10 + 1) * 10
    }

    // Whether it has an element: the response code always, any other if it came.
    #[tactic(auto, using(crate::proofs::Requests::came_present))]
    fn has(&self, number: u8) -> bool
        ensures { result ≡ is_some (told_by self.now number) }
    {
        number == RESPONSE_CODE || self.message.has(number)
    }

    // Announces its elements.
    fn begin(&self, out: &mut [u8]) -> Result<Writer, MessageFault>
        ensures { Started out.old (reply_type self.now.message.now.layout.mti) (numbers_of (items_of self.now)) result out.new }
    {
        let elements = REPLIED.iter().copied().filter(|number| self.has(*number));
        Writer::start_with(out, self.mti(), elements)
    }

    // One element of it: the response code, or an element as it came, if it came.
    fn put(&self, writer: &mut Writer, out: &mut [u8], number: u8) -> Result<(), MessageFault>
        ensures { PutTold out.old writer.old number (told_by self.now number) result out.new writer.new }
    {
        if number == RESPONSE_CODE {
            let digits = spell::<2>(Base::Decimal, u64::from(self.code));
            return writer.put(out, number, &digits);
        }
        match self.message.element(number) {
            Some(element) => writer.put(out, number, element.chars),
            None => Ok(()),
        }
    }

    // Each element in rising order, then the end.
    fn put_all(&self, mut writer: Writer, out: &mut [u8]) -> Result<usize, MessageFault>
        ensures { Steps (all_put (state_of out.old writer) (items_of self.now)) result out.new }
    {
        for number in REPLIED {
            self.put(&mut writer, out, *number)?;
        }
        writer.end()
    }

    // The steps of the writer, any of which might refuse.
    fn write(&self, out: &mut [u8]) -> Result<usize, MessageFault>
        ensures { Steps (composed out.old (reply_type self.now.message.now.layout.mti) (items_of self.now)) result out.new }
    {
        let writer = self.begin(out)?;
        self.put_all(writer, out)
    }
}

// Writes the reply with a response code, and answers its length; the rest of the buffer keeps its bytes. What came was read, so
// the table allows it, and no reply has more than 92 bytes: so the writer refuses none. A type above 9989 has no reply of four
// digits.
pub fn reply(out: &mut [u8], message: &Message, code: u8) -> usize
    requires { (96 ≤ length out.old) × ((code ≤ 99) × (message.now.layout.mti ≤ 9989)) }
    ensures long { result ≡ length (answer (bytes_of message.now) code) }
    ensures short { result ≤ 92 }
    ensures written { out.new ≡ laid out.old 0 (answer (bytes_of message.now) code) }
    ensures reads { Reads (bytes_of message.now) code (take result out.new) }
{
    Response { message, code }.write(out).unwrap()
}
