use crate::common::{QUESTION, check_told, told};
use elements::fault::{Layer, Refusal};
use iso8583::message::{Element, Layout, Message};
use std::process::Abort;
use std::test::Fail;

const REVERSAL: &[u8] =
    b"040092200001000000000000004000000000000000002500010510150000000203111020000000101051015000000000011100000000000";

// Every element at its full length: 194 bytes.
const LONGEST: &[u8] = b"9999F23800018A8080000000004000000000\
19123456789012345678912345612345678901212312359591234562359591231\
111234567890111109876543210987aZzA32100aaZ~ !/:@978\
123456789012345678901234567890123456789012";

// Bytes that are refused.
struct Case {
    bytes: &'static [u8],
    refusal: Refusal,
}

// In the order of the tests that the reader makes. Where an element above 64 is marked, a second bitmap stands from 20 to 35.
#[rattlefmt::skip]
const REFUSED: &[Case] = &[
    // The type: short, and with a letter.
    Case { bytes: b"", refusal: Refusal { number: 3, layer: Layer::Message, element: 0, place: 0 } },
    Case { bytes: b"020", refusal: Refusal { number: 3, layer: Layer::Message, element: 0, place: 3 } },
    Case { bytes: b"02A07220000100000000", refusal: Refusal { number: 3, layer: Layer::Message, element: 0, place: 2 } },
    // A bitmap: missing, short, with a small letter, and the second short and wrong at its end.
    Case { bytes: b"0200", refusal: Refusal { number: 4, layer: Layer::Message, element: 0, place: 4 } },
    Case { bytes: b"02007220", refusal: Refusal { number: 4, layer: Layer::Message, element: 0, place: 8 } },
    Case { bytes: b"0200722000010000000a", refusal: Refusal { number: 4, layer: Layer::Message, element: 0, place: 19 } },
    Case { bytes: b"0400922000010000000000000040", refusal: Refusal { number: 4, layer: Layer::Message, element: 0, place: 28 } },
    Case { bytes: b"04008800000000000000000000400000000x", refusal: Refusal { number: 4, layer: Layer::Message, element: 0, place: 35 } },
    // Elements 5, 64 before 65, 65 and 128 are not in the table.
    Case { bytes: b"02000800000000000000", refusal: Refusal { number: 5, layer: Layer::Message, element: 5, place: 5 } },
    Case { bytes: b"020080000000000000018000000000000000", refusal: Refusal { number: 5, layer: Layer::Message, element: 64, place: 19 } },
    Case { bytes: b"020080000000000000008000000000000000", refusal: Refusal { number: 5, layer: Layer::Message, element: 65, place: 20 } },
    Case { bytes: b"020080000000000000000000000000000001", refusal: Refusal { number: 5, layer: Layer::Message, element: 128, place: 35 } },
    // An empty second bitmap, and element 5 before it.
    Case { bytes: b"020080000000000000000000000000000000", refusal: Refusal { number: 5, layer: Layer::Message, element: 0, place: 20 } },
    Case { bytes: b"020088000000000000000000000000000000", refusal: Refusal { number: 5, layer: Layer::Message, element: 5, place: 5 } },
    // The end comes inside an element: before it, in its characters, in its length digits, and in the one after it.
    Case { bytes: b"02002000000000000000", refusal: Refusal { number: 6, layer: Layer::Element, element: 3, place: 20 } },
    Case { bytes: b"0200200000000000000012x45", refusal: Refusal { number: 6, layer: Layer::Element, element: 3, place: 20 } },
    Case { bytes: b"02004000000000000000x", refusal: Refusal { number: 6, layer: Layer::Element, element: 2, place: 20 } },
    Case { bytes: b"0200400000000000000016500000000000000", refusal: Refusal { number: 6, layer: Layer::Element, element: 2, place: 20 } },
    Case { bytes: b"020060000000000000000212123", refusal: Refusal { number: 6, layer: Layer::Element, element: 3, place: 24 } },
    // Lengths 00 and 20 of element 2, no number, and 12 of elements 32 and 33.
    Case { bytes: b"0200400000000000000000", refusal: Refusal { number: 7, layer: Layer::Element, element: 2, place: 20 } },
    Case { bytes: b"020040000000000000002012345678901234567890", refusal: Refusal { number: 7, layer: Layer::Element, element: 2, place: 20 } },
    Case { bytes: b"020040000000000000001x7", refusal: Refusal { number: 7, layer: Layer::Element, element: 2, place: 20 } },
    Case { bytes: b"0200000000010000000012123456789012", refusal: Refusal { number: 7, layer: Layer::Element, element: 32, place: 20 } },
    Case { bytes: b"0200000000018000000001112123456789012", refusal: Refusal { number: 7, layer: Layer::Element, element: 33, place: 23 } },
    // A letter among digits, `-` and `_` among letters, and a byte above the tilde.
    Case { bytes: b"0200200000000000000000a000", refusal: Refusal { number: 8, layer: Layer::Element, element: 3, place: 22 } },
    Case { bytes: b"0200400000000000000016500000000000000x", refusal: Refusal { number: 8, layer: Layer::Element, element: 2, place: 37 } },
    Case { bytes: b"021000000000020000000-", refusal: Refusal { number: 8, layer: Layer::Element, element: 39, place: 21 } },
    Case { bytes: b"02100000000008000000aZ09aZ09aZ0_", refusal: Refusal { number: 8, layer: Layer::Element, element: 37, place: 31 } },
    Case { bytes: b"02100000000000800000       \x7F", refusal: Refusal { number: 8, layer: Layer::Element, element: 41, place: 27 } },
    // A byte behind the bitmap that marks nothing, and three behind element 3.
    Case { bytes: b"080000000000000000001", refusal: Refusal { number: 9, layer: Layer::Message, element: 0, place: 20 } },
    Case { bytes: b"02002000000000000000000000000", refusal: Refusal { number: 9, layer: Layer::Message, element: 0, place: 26 } },
];

fn element(number: u8, offset: usize, chars: &[u8]) -> Option<Element> {
    Some(Element {
        number,
        offset,
        chars,
    })
}

fn check_refused(rt: &impl Abort, i: usize, case: &Case) -> Result<(), Fail> {
    match Message::read(case.bytes) {
        Ok(_) => Err(Fail::new(format_args!("taken: case {i}"))),
        Err(fault) => check_told(rt, i, fault, case.refusal),
    }
}

#[test]
fn a_question_is_taken_apart(rt: HostRuntime) -> Result<(), Fail> {
    let Ok(message) = Message::read(QUESTION) else {
        return Err(Fail::new("refused"));
    };
    assert_eq!(rt; message.mti(), 200);
    assert_eq!(rt; message.element(2), element(2, 22, b"5000000000000001"));
    assert_eq!(rt; message.element(3), element(3, 38, b"000000"));
    assert_eq!(rt; message.element(4), element(4, 44, b"000000002500"));
    assert_eq!(rt; message.element(7), element(7, 56, b"0105101500"));
    assert_eq!(rt; message.element(11), element(11, 66, b"000001"));
    assert_eq!(rt; message.element(32), element(32, 74, b"111"));
    Ok(())
}

#[test]
fn a_clone_is_the_same_message(rt: HostRuntime) -> Result<(), Fail> {
    let Ok(message) = Message::read(QUESTION) else {
        return Err(Fail::new("refused"));
    };
    let copy = message.clone()?;
    assert_eq!(rt; copy.mti(), 200);
    assert_eq!(rt; copy.element(32), element(32, 74, b"111"));
    assert_eq!(rt; copy.element(33), None);
    Ok(())
}

#[test]
fn a_layout_is_laid_over_moved_bytes(rt: HostRuntime) -> Result<(), Fail> {
    let Ok(layout) = Layout::read(QUESTION) else {
        return Err(Fail::new("refused"));
    };
    let mut moved = [0; 77];
    moved.copy_from_slice(QUESTION);
    let message = layout.over(&moved);
    let copy = message;
    assert_eq!(rt; message.element(32), element(32, 74, b"111"));
    assert_eq!(rt; copy.element(32), layout.over(QUESTION).element(32));
    Ok(())
}

#[test]
fn two_bitmaps_mark_five_elements(rt: HostRuntime) -> Result<(), Fail> {
    let Ok(message) = Message::read(REVERSAL) else {
        return Err(Fail::new("refused"));
    };
    for number in 0..=255 {
        let marked = matches!(number, 4 | 7 | 11 | 32 | 90);
        assert_eq!(rt; message.has(number), marked, "{}", number);
        assert_eq!(rt; message.element(number).is_some(), marked, "{}", number);
    }
    assert_eq!(rt; message.element(32), element(32, 66, b"111"));
    assert_eq!(rt;
        message.element(90),
        element(90, 69, b"020000000101051015000000000011100000000000")
    );
    Ok(())
}

// Element 2 of 19 characters, and a character of each kind that `ans` has.
#[test]
fn the_longest_message_is_taken(rt: HostRuntime) -> Result<(), Fail> {
    assert_eq!(rt; LONGEST.len(), 194);
    let Ok(message) = Message::read(LONGEST) else {
        return Err(Fail::new("refused"));
    };
    assert_eq!(rt; message.mti(), 9999);
    assert_eq!(rt; message.element(2), element(2, 38, b"1234567890123456789"));
    assert_eq!(rt; message.element(41), element(41, 141, b"aZ~ !/:@"));
    assert_eq!(rt;
        message.element(90),
        element(90, 152, b"123456789012345678901234567890123456789012")
    );
    Ok(())
}

#[test]
fn a_message_without_elements_is_taken(rt: HostRuntime) {
    let mti = Message::read(b"08000000000000000000").map(|message| message.mti());
    assert_eq!(rt; mti, Ok(800));
}

#[test]
fn each_refusal_at_its_place(rt: HostRuntime) -> Result<(), Fail> {
    for (i, case) in REFUSED.iter().enumerate() {
        check_refused(&rt, i, case)?;
    }
    Ok(())
}

#[test]
fn bytes_behind_a_message_are_refused(rt: HostRuntime) -> Result<(), Fail> {
    let mut bytes = [b'0'; 3000];
    bytes[..77].copy_from_slice(QUESTION);
    for length in [78, 2047, 2048, 2049, 3000] {
        let Err(fault) = Message::read(&bytes[..length]) else {
            return Err(Fail::new(format_args!("taken: {length} bytes")));
        };
        check_told(&rt, length, fault, told(9, Layer::Message, 0, 77))?;
    }
    Ok(())
}
