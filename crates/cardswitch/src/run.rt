// Makes the calls of a deck, in their order, and prints what came of each.
use composer::compose::compose;
use deck::{Command, Deck};
use elements::fault::{MessageFault, Refusal};
use iso8583::message::{Element, Message};
use std::str;

// The length of the writer's buffer until a deck says another.
const ROOM: usize = 256;

// A buffer of this length holds any message that a table of elements can make, whatever their lengths: a type and two
// bitmaps are 36 bytes, and none of 127 elements has more than 257 with its length digits. So more is never set aside.
const ENOUGH: usize = 65_536;

pub fn run(rt: &HostRuntime, deck: &Deck) -> anyhow::Result<()> {
    let mut room = ROOM;
    for command in &deck.commands {
        match command {
            Command::Message(bytes) | Command::Show(bytes) => {
                take_apart(rt, bytes.as_slice(), room)?;
            }
            Command::Room(length) => {
                room = *length;
                println!(rt; "room {room}")?;
            }
        }
    }
    Ok(())
}

// A refusal is an answer, which is printed like any other, and no error of the run: so no `?` hands it on.
fn take_apart(rt: &HostRuntime, bytes: &[u8], room: usize) -> anyhow::Result<()> {
    match Message::read(bytes) {
        Ok(message) => show(rt, &message, room),
        Err(fault) => print_refusal(rt, fault),
    }
}

// Prints the type of a message, its elements, and the message that the writer makes from them again.
fn show(rt: &HostRuntime, message: &Message, room: usize) -> anyhow::Result<()> {
    let mti = message.mti();
    println!(rt; "type {mti:04}")?;
    let mut elements = Vec::new(rt.alloc());
    for element in (2..=128).filter_map(|number| message.element(number)) {
        print_element(rt, &element)?;
        elements.push(element)?;
    }
    write_again(rt, mti, elements.as_slice(), room)
}

fn print_element(rt: &HostRuntime, element: &Element) -> anyhow::Result<()> {
    let Element {
        number,
        offset,
        chars,
    } = *element;
    let chars = str::from_utf8(chars)?;
    println!(rt; "element {number} at {offset} {chars}")?;
    Ok(())
}

fn write_again(
    rt: &HostRuntime,
    mti: u16,
    elements: &[Element],
    room: usize,
) -> anyhow::Result<()> {
    let mut buffer = vec![in rt.alloc(); 0; room.min(ENOUGH)]?;
    match compose(buffer.as_mut_slice(), mti, elements) {
        Ok(length) => {
            buffer.truncate(length);
            let text = str::from_utf8(buffer.as_slice())?;
            println!(rt; "again {text}")?;
        }
        Err(fault) => print_refusal(rt, fault)?,
    }
    Ok(())
}

fn print_refusal(rt: &HostRuntime, fault: MessageFault) -> anyhow::Result<()> {
    let refusal = Refusal::from(fault);
    println!(rt; "refused {refusal}")?;
    Ok(())
}
