// A message is taken in: it is short enough, it is a message, and it has what its type requires.
ghost use Rattle.std.specs.Prelude.{◌≡◌, ◌≤◌, IfOk, OnOk};
ghost use Rattle.intake.specs.Orders.{text_of, elements_of, told_by, presented, reversed, service_of, asked_by, fitting};
ghost use Rattle.intake.specs.Sizes.{Sized};
ghost use Rattle.intake.specs.Takes.{Taken};

use crate::fields::{card, figure, original, particulars};
use crate::order::{Order, Particulars, Presentment, Reversal, Service};
use elements::fault::SwitchFault;
use iso8583::message::Message;
use journal::entry::Kind;

// The length of the longest message that is taken.
const LONGEST: usize = 2048;

// The room that is wanted for a reply.
const REPLY_ROOM: usize = 96;

// A request or an advice. What is missing is found in rising order, as the elements are read.
fn presentment(message: &Message, kind: Kind) -> Result<Order, SwitchFault>
    ensures value { result ≡ presented kind (text_of message.now) (elements_of message.now) }
    ensures small { IfOk result Sized }
{
    Ok(Order::Presented(Presentment {
        kind,
        card: card(message)?,
        processing: figure(message, 3)? as u32,
        particulars: particulars(message)?,
    }))
}

// A reversal.
fn reversal(message: &Message) -> Result<Order, SwitchFault>
    ensures value { result ≡ reversed (text_of message.now) (elements_of message.now) }
    ensures small { IfOk result Sized }
{
    Ok(Order::Reversed(Reversal {
        particulars: particulars(message)?,
        original: original(message)?,
    }))
}

impl Service {
    // What a message of a type is for, if the switch takes the type.
    pub fn of(mti: u16) -> Option<Service>
        ensures { result ≡ service_of mti }
    {
        match mti {
            200 | 201 => Some(Service::Present(Kind::Request)),
            220 | 221 => Some(Service::Present(Kind::Advice)),
            400 | 401 | 420 | 421 => Some(Service::Reverse),
            _ => None,
        }
    }
}

impl Order {
    pub fn particulars(&self) -> Particulars
        ensures { result ≡ told_by self.now }
    {
        match self {
            Order::Presented(presentment) => presentment.particulars,
            Order::Reversed(reversal) => reversal.particulars,
        }
    }

    // What a message asks for, if the switch takes its type and nothing is missing.
    pub fn of(message: &Message) -> Result<Order, SwitchFault>
        ensures value { result ≡ asked_by message.now }
        ensures small { IfOk result Sized }
        ensures known { OnOk result (message.now.layout.mti ≤ 421) }
    {
        match Service::of(message.mti()).ok_or(SwitchFault::Mti)? {
            Service::Present(kind) => presentment(message, kind),
            Service::Reverse => reversal(message),
        }
    }
}

// Whether a message is short enough, and there is room enough for the reply.
fn fit(size: usize, room: usize) -> Result<(), SwitchFault>
    ensures value { result ≡ fitting size room }
    ensures small { OnOk result ((size ≤ 2048) × (96 ≤ room)) }
{
    if size > LONGEST {
        return Err(SwitchFault::Long);
    }
    if room < REPLY_ROOM {
        return Err(SwitchFault::Buffer);
    }
    Ok(())
}

// What a call of the switch asks for: bytes of any length and content, and how much room there is for the reply. With it comes
// the message, for whoever wants to read on.
pub fn take(bytes: &[u8], room: usize) -> Result<(Message<'_>, Order), SwitchFault>
    ensures { Taken bytes.now room result }
{
    fit(bytes.len(), room)?;
    let message = Message::read(bytes)?;
    let order = Order::of(&message)?;
    Ok((message, order))
}
