// The elements of a message as numbers. Each is required: where the message does not have it, that is what is answered.
ghost use Rattle.std.specs.Prelude.{◌≡◌, ◌^◌, ◌<◌, ◌≤◌, true, length, IfOk};
ghost use Rattle.std.specs.Str.Parse.{digits_value};
ghost use Rattle.elements.specs.Numbers.{all_decimal};
ghost use Rattle.elements.specs.Moments.{moment_of};
ghost use Rattle.elements.specs.Originals.{parts, SizedOriginal};
ghost use Rattle.intake.specs.Conforms.{figures, chars_in, told, Stands, Required};
ghost use Rattle.intake.specs.Orders.{text_of, elements_of, card_of};
ghost use Rattle.intake.specs.Sizes.{TenDigits, SizedCard, SizedParticulars};

use crate::order::Particulars;
use elements::fault::SwitchFault;
use elements::moment::Moment;
use elements::number::number;
use elements::original::Original;
use host::line::Card;
use iso8583::message::{Element, Message};

// How many length digits stand before an acquirer's code.
const LENGTH_DIGITS: usize = 2;

// An element of the message. It stands behind type and bitmap, so there is room before it.
fn element<'a>(message: &Message<'a>, number: u8) -> Result<Element<'a>, SwitchFault>
    ensures { Required message.now number (Stands message.now number) result }
{
    message
        .element(number)
        .ok_or(SwitchFault::Missing { element: number })
}

// The number that 1 to 19 digits write.
fn digits(chars: &[u8]) -> u64
    requires { (1 ≤ length chars.now) × (length chars.now ≤ 19) × (all_decimal chars.now ≡ true) }
    ensures value { result ≡ digits_value 10 chars.now }
    ensures small { result < 10 ^ length chars.now }
{
    number(chars).unwrap()
}

// An element that is a plain number.
pub(crate) fn figure(message: &Message, number: u8) -> Result<u64, SwitchFault>
    requires { 1 ≤ figures number }
    ensures { Required message.now number (λ n. (n ≡ digits_value 10 (chars_in message.now number)) × (n < 10 ^ figures number)) result }
{
    Ok(digits(element(message, number)?.chars))
}

// Element 2: the card's digits, and how many they are.
pub(crate) fn card(message: &Message) -> Result<Card, SwitchFault>
    ensures { Required message.now 2 (λ c. (c ≡ card_of (chars_in message.now 2)) × SizedCard c) result }
{
    let chars = element(message, 2)?.chars;
    Ok(Card {
        digits: digits(chars),
        count: chars.len() as u8,
    })
}

// Element 7: the number of a moment, if its digits are one.
fn moment(message: &Message) -> Result<Option<u64>, SwitchFault>
    ensures { Required message.now 7 (λ m. (m ≡ moment_of (chars_in message.now 7)) × TenDigits m) result }
{
    Ok(Moment::read(element(message, 7)?.chars).map(Moment::number))
}

// Element 90, taken apart. A message that was read has 42 digits there.
pub(crate) fn original(message: &Message) -> Result<Original, SwitchFault>
    ensures { Required message.now 90 (λ o. (o ≡ parts (chars_in message.now 90)) × SizedOriginal o) result }
{
    Ok(Original::read(element(message, 90)?.chars).unwrap())
}

// What every message that the switch takes has to tell.
pub(crate) fn particulars(message: &Message) -> Result<Particulars, SwitchFault>
    ensures value { result ≡ told (text_of message.now) (elements_of message.now) }
    ensures small { IfOk result SizedParticulars }
{
    Ok(Particulars {
        amount: figure(message, 4)?,
        moment: moment(message)?,
        trace: figure(message, 11)? as u32,
        acquirer: figure(message, 32)?,
        place: element(message, 32)?.offset - LENGTH_DIGITS,
    })
}
