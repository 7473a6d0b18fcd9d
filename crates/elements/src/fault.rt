// What is wrong with a message, with a step of its writer, or with a call of the switch.
ghost use Rattle.std.specs.Prelude.{◌≡◌, Some};
ghost use Rattle.elements.specs.Refusals.{refusal, turned_away, layer_text, refusal_text};
ghost use Rattle.elements.specs.declared.fault.MessageFault.TheVariants.{Element};
ghost use Rattle.elements.specs.declared.fault.SwitchFault.TheVariants.{Message};

use std::fmt;

// The part of the switch that a refusal comes from.
#[derive(Clone, Copy, PartialEq, Eq, Debug)]
pub enum Layer {
    Element,
    Message,
    Switch,
}

// A refusal as it is told and printed: its number, the layer that it comes from, the element that it is about, and a place in the
// message. Where there is no element or no place, 0 is what is told, so it stands here as a number, as do the faults' own.
#[derive(Clone, Copy, PartialEq, Eq, Debug)]
pub struct Refusal {
    pub number: u8,
    pub layer: Layer,
    pub element: u8,
    pub place: usize,
}

// A fault of one element.
#[derive(Clone, Copy, PartialEq, Eq, Debug)]
pub enum ElementFault {
    // The message ends inside the element.
    Truncated { element: u8, place: usize },
    // The length is not one that the element may have.
    Length { element: u8, place: usize },
    // A character does not fit the element's format.
    Character { element: u8, place: usize },
}

// A fault of a message, or of a step of the writer.
#[derive(Clone, Copy, PartialEq, Eq, Debug)]
pub enum MessageFault {
    // The type is short, or not four digits.
    Mti { place: usize },
    // A bitmap is short, or has a character that is no hexadecimal digit.
    Bitmap { place: usize },
    // An element is marked that the table does not have.
    Unknown { element: u8, place: usize },
    // A second bitmap is announced and marks nothing.
    Empty,
    // An element is at fault.
    Element(ElementFault),
    // Bytes follow the last element.
    Trailing { place: usize },
    // The writer was given another element than the next one announced, or was ended before it (0: none is left).
    Order { next: u8 },
    // The writer's buffer is too short.
    Room { element: u8 },
}

// Why the switch turns a call away.
#[derive(Clone, Copy, PartialEq, Eq, Debug)]
pub enum SwitchFault {
    // The message is longer than any that the switch takes.
    Long,
    // The buffer for the reply is too short.
    Buffer,
    // The message is at fault.
    Message(MessageFault),
    // The switch does not take messages of this type.
    Mti,
    // An element that the type requires is missing.
    Missing { element: u8 },
    // Element 32 names no bank; it starts, with its length, at this place.
    Acquirer { place: usize },
    // The switch cannot be opened with these banks.
    Banks,
    // It cannot be opened with these routes or accounts.
    Routes,
    // A cutover has no moment, or none that is later than the last.
    Cutover,
    // What a reading asks for is not on hand.
    Reading,
}

impl From<ElementFault> for MessageFault {
    ghost from_gives = { λ e m. m ≡ Element e };

    fn from(fault: ElementFault) -> MessageFault {
        MessageFault::Element(fault)
    }
}

impl From<MessageFault> for SwitchFault {
    ghost from_gives = { λ m s. s ≡ Message m };

    fn from(fault: MessageFault) -> SwitchFault {
        SwitchFault::Message(fault)
    }
}

impl From<ElementFault> for Refusal {
    ghost from_gives = { λ e r. r ≡ refusal (Element e) };

    fn from(fault: ElementFault) -> Refusal {
        let (number, element, place) = match fault {
            ElementFault::Truncated { element, place } => (6, element, place),
            ElementFault::Length { element, place } => (7, element, place),
            ElementFault::Character { element, place } => (8, element, place),
        };
        Refusal {
            number,
            layer: Layer::Element,
            element,
            place,
        }
    }
}

impl From<MessageFault> for Refusal {
    ghost from_gives = { λ m r. r ≡ refusal m };

    fn from(fault: MessageFault) -> Refusal {
        let (number, element, place) = match fault {
            MessageFault::Element(fault) => return Refusal::from(fault),
            MessageFault::Mti { place } => (3, 0, place),
            MessageFault::Bitmap { place } => (4, 0, place),
            MessageFault::Unknown { element, place } => (5, element, place),
            MessageFault::Empty => (5, 0, 20),
            MessageFault::Trailing { place } => (9, 0, place),
            MessageFault::Order { next } => (13, next, 0),
            MessageFault::Room { element } => (14, element, 0),
        };
        Refusal {
            number,
            layer: Layer::Message,
            element,
            place,
        }
    }
}

impl From<SwitchFault> for Refusal {
    ghost from_gives = { λ s r. r ≡ turned_away s };

    fn from(fault: SwitchFault) -> Refusal {
        let (number, element, place) = match fault {
            SwitchFault::Message(fault) => return Refusal::from(fault),
            SwitchFault::Long => (1, 0, 0),
            SwitchFault::Buffer => (2, 0, 0),
            SwitchFault::Mti => (10, 0, 0),
            SwitchFault::Missing { element } => (11, element, 0),
            SwitchFault::Acquirer { place } => (12, 32, place),
            SwitchFault::Banks => (15, 0, 0),
            SwitchFault::Routes => (16, 0, 0),
            SwitchFault::Cutover => (17, 0, 0),
            SwitchFault::Reading => (18, 0, 0),
        };
        Refusal {
            number,
            layer: Layer::Switch,
            element,
            place,
        }
    }
}

impl fmt::Display for Layer {
    ghost output = { λ l. Some (layer_text l) };

    fn fmt<W: fmt::Write>(&self, f: &mut fmt::Formatter<W>) -> fmt::Result {
        f.write_str(match self {
            Layer::Element => "element",
            Layer::Message => "message",
            Layer::Switch => "switch",
        })
    }
}

impl fmt::Display for Refusal {
    ghost output = { λ r. Some (refusal_text r) };

    fn fmt<W: fmt::Write>(&self, f: &mut fmt::Formatter<W>) -> fmt::Result {
        let Refusal {
            number,
            layer,
            element,
            place,
        } = *self;
        write!(f, "{number} {layer} {element} {place}")
    }
}
