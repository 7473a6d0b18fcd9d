// What the tests share.
use elements::fault::{Layer, MessageFault, Refusal};
use std::process::Abort;
use std::test::Fail;

// A request with elements 2, 3, 4, 7, 11 and 32: 77 bytes.
pub(crate) const QUESTION: &[u8] =
    b"02007220000100000000165000000000000001000000000000002500010510150000000103111";

// A refusal by its number, its layer, the element that it is about and its place.
pub(crate) fn told(number: u8, layer: Layer, element: u8, place: usize) -> Refusal {
    Refusal {
        number,
        layer,
        element,
        place,
    }
}

// A fault is told as this refusal. `case` says which one of many it is that fails.
pub(crate) fn check_told(
    rt: &impl Abort,
    case: usize,
    fault: MessageFault,
    refusal: Refusal,
) -> Result<(), Fail> {
    assert_eq!(rt; Refusal::from(fault), refusal, "case {case}");
    Ok(())
}
