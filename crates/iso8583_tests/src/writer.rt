use crate::common::{QUESTION, check_told, told};
use composer::compose::compose;
use composer::spell::spell;
use composer::writer::Writer;
use elements::fault::{Layer, Refusal};
use elements::number::Base;
use iso8583::message::Element;
use std::process::Abort;
use std::test::Fail;

// A start that is refused: the buffer's length, type and elements.
struct Start {
    room: usize,
    mti: u16,
    elements: &'static [u8],
    refusal: Refusal,
}

// 3 goes before 5, and 5 before 14. One bitmap takes 20 bytes with the type, two take 36.
#[rattlefmt::skip]
const STARTS: &[Start] = &[
    Start { room: 40, mti: 10000, elements: &[5], refusal: Refusal { number: 3, layer: Layer::Message, element: 0, place: 0 } },
    Start { room: 40, mti: 200, elements: &[3, 200, 5], refusal: Refusal { number: 5, layer: Layer::Message, element: 5, place: 0 } },
    Start { room: 40, mti: 200, elements: &[3, 0], refusal: Refusal { number: 5, layer: Layer::Message, element: 0, place: 0 } },
    Start { room: 40, mti: 200, elements: &[1], refusal: Refusal { number: 5, layer: Layer::Message, element: 1, place: 0 } },
    Start { room: 0, mti: 200, elements: &[129, 128], refusal: Refusal { number: 5, layer: Layer::Message, element: 128, place: 0 } },
    Start { room: 0, mti: 200, elements: &[], refusal: Refusal { number: 14, layer: Layer::Message, element: 0, place: 0 } },
    Start { room: 19, mti: 200, elements: &[3], refusal: Refusal { number: 14, layer: Layer::Message, element: 0, place: 0 } },
    Start { room: 35, mti: 200, elements: &[90], refusal: Refusal { number: 14, layer: Layer::Message, element: 0, place: 0 } },
];

// An element that is refused right after the start: the buffer's length, what was announced, and the element.
struct Step {
    room: usize,
    announced: &'static [u8],
    element: u8,
    chars: &'static [u8],
    refusal: Refusal,
}

// 13 goes before 7, 7 before 8, and 8 before 14. The refusal is always about the next element announced.
#[rattlefmt::skip]
const STEPS: &[Step] = &[
    Step { room: 40, announced: &[4, 3], element: 4, chars: b"000000002500", refusal: Refusal { number: 13, layer: Layer::Message, element: 3, place: 0 } },
    Step { room: 40, announced: &[4, 3], element: 5, chars: b"", refusal: Refusal { number: 13, layer: Layer::Message, element: 3, place: 0 } },
    Step { room: 40, announced: &[3], element: 3, chars: b"00000", refusal: Refusal { number: 7, layer: Layer::Element, element: 3, place: 0 } },
    Step { room: 20, announced: &[3], element: 3, chars: b"xxxxxxx", refusal: Refusal { number: 7, layer: Layer::Element, element: 3, place: 0 } },
    Step { room: 40, announced: &[2], element: 2, chars: b"", refusal: Refusal { number: 7, layer: Layer::Element, element: 2, place: 0 } },
    Step { room: 40, announced: &[2], element: 2, chars: b"12345678901234567890", refusal: Refusal { number: 7, layer: Layer::Element, element: 2, place: 0 } },
    Step { room: 20, announced: &[3], element: 3, chars: b"00000x", refusal: Refusal { number: 8, layer: Layer::Element, element: 3, place: 0 } },
    Step { room: 40, announced: &[39], element: 39, chars: b"0-", refusal: Refusal { number: 8, layer: Layer::Element, element: 39, place: 0 } },
    Step { room: 40, announced: &[41], element: 41, chars: b"TERM\n001", refusal: Refusal { number: 8, layer: Layer::Element, element: 41, place: 0 } },
    Step { room: 20, announced: &[3], element: 3, chars: b"000000", refusal: Refusal { number: 14, layer: Layer::Message, element: 3, place: 0 } },
    Step { room: 25, announced: &[3], element: 3, chars: b"000000", refusal: Refusal { number: 14, layer: Layer::Message, element: 3, place: 0 } },
    Step { room: 37, announced: &[2], element: 2, chars: b"5000000000000001", refusal: Refusal { number: 14, layer: Layer::Message, element: 2, place: 0 } },
];

#[test]
fn a_refused_start_leaves_the_buffer(rt: HostRuntime) -> Result<(), Fail> {
    for (i, start) in STARTS.iter().enumerate() {
        let mut out = [b'.'; 40];
        let room = start.room.min(40);
        let Err(fault) = Writer::start(&mut out[..room], start.mti, start.elements) else {
            return Err(Fail::new(format_args!("taken: case {i}")));
        };
        check_told(&rt, i, fault, start.refusal)?;
        assert_eq!(rt; out, [b'.'; 40], "case {i}");
    }
    Ok(())
}

// The end is refused too, and tells that the writer still expects the same element. The buffer is as the start left it: `same` is.
fn check_step(
    rt: &impl Abort,
    case: usize,
    step: &Step,
    out: &mut [u8],
    same: &mut [u8],
) -> Result<(), Fail> {
    assert!(rt;
        Writer::start(same, 200, step.announced).is_ok(),
        "case {case}"
    );
    let Ok(mut writer) = Writer::start(out, 200, step.announced) else {
        return Err(Fail::new(format_args!("no start: case {case}")));
    };
    let Err(fault) = writer.put(out, step.element, step.chars) else {
        return Err(Fail::new(format_args!("taken: case {case}")));
    };
    check_told(rt, case, fault, step.refusal)?;
    assert_eq!(rt; &out[..], &same[..], "case {case}");
    let Err(fault) = writer.end() else {
        return Err(Fail::new(format_args!("ended: case {case}")));
    };
    check_told(
        rt,
        case,
        fault,
        told(13, Layer::Message, step.refusal.element, 0),
    )
}

#[test]
fn a_refused_step_leaves_writer_and_buffer(rt: HostRuntime) -> Result<(), Fail> {
    for (i, step) in STEPS.iter().enumerate() {
        let mut out = [b'.'; 40];
        let mut same = [b'.'; 40];
        let room = step.room.min(40);
        check_step(&rt, i, step, &mut out[0..room], &mut same[0..room])?;
    }
    Ok(())
}

#[test]
fn a_refused_step_is_tried_again(rt: HostRuntime) -> Result<(), Fail> {
    let mut out = [b'.'; 30];
    let Ok(mut writer) = Writer::start(&mut out, 200, &[3, 2, 3]) else {
        return Err(Fail::new("no start"));
    };
    assert!(rt;
        writer.put(&mut out, 2, b"123456789").is_err(),
        "ends at 31"
    );
    assert!(rt; writer.put(&mut out, 2, b"1").is_ok());
    assert!(rt; writer.put(&mut out, 3, b"00000x").is_err());
    assert!(rt; writer.put(&mut out, 3, b"000000").is_ok());
    let Err(fault) = writer.put(&mut out, 4, b"000000002500") else {
        return Err(Fail::new("one element too many is taken"));
    };
    check_told(&rt, 0, fault, told(13, Layer::Message, 0, 0))?;
    let Ok(length) = writer.end() else {
        return Err(Fail::new("not ended"));
    };
    assert_eq!(rt; length, 29);
    assert_eq!(rt; out, *b"02006000000000000000011000000.");
    Ok(())
}

#[test]
fn a_number_is_spelled_by_its_last_digits(rt: HostRuntime) {
    assert_eq!(rt; spell::<4>(Base::Decimal, 200), *b"0200");
    assert_eq!(rt; spell::<2>(Base::Decimal, 123), *b"23");
    assert_eq!(rt; spell::<4>(Base::Hexadecimal, 43981), *b"ABCD");
}

#[test]
fn two_bitmaps_are_laid(rt: HostRuntime) {
    let mut out = [b'.'; 37];
    assert!(rt; Writer::start(&mut out, 400, &[90, 32, 11, 7, 4, 7]).is_ok());
    assert_eq!(rt; out, *b"040092200001000000000000004000000000.");
}

fn element(number: u8, chars: &[u8]) -> Element {
    Element {
        number,
        offset: 0,
        chars,
    }
}

#[test]
fn a_question_is_composed(rt: HostRuntime) -> Result<(), Fail> {
    let mut out = [b'.'; 77];
    let elements = [
        element(2, b"5000000000000001"),
        element(3, b"000000"),
        element(4, b"000000002500"),
        element(7, b"0105101500"),
        element(11, b"000001"),
        element(32, b"111"),
    ];
    let Ok(length) = compose(&mut out, 200, &elements) else {
        return Err(Fail::new("refused"));
    };
    assert_eq!(rt; length, 77);
    assert_eq!(rt; &out[..], QUESTION);
    Ok(())
}

#[test]
fn elements_are_composed_in_their_order_only(rt: HostRuntime) -> Result<(), Fail> {
    let mut out = [b'.'; 77];
    let elements = [element(3, b"000000"), element(2, b"5000000000000001")];
    let Err(fault) = compose(&mut out, 200, &elements) else {
        return Err(Fail::new("taken"));
    };
    check_told(&rt, 0, fault, told(13, Layer::Message, 2, 0))
}
