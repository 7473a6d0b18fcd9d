// The set of elements that a message is to have.
ghost use Rattle.std.specs.Prelude.{◌≡◌, ℕ, ◌<◌, ◌≤◌, List, [], ◌∷◌, ◌++◌};
ghost use Rattle.std.specs.List.{All};
ghost use Rattle.std.specs.Iterator.{IsFinite};
ghost use Rattle.std.specs.Iterator.Runs.{WholeRun};
ghost use Rattle.composer.specs.Announced.{gathered};
ghost use Rattle.iso8583.specs.Bitmap.{marked};
ghost use Rattle.elements.specs.Table.{table, known};
ghost use Rattle.composer.specs.Writing.{announced, sets};

use elements::fault::MessageFault;
use iso8583::bitmap::{bit, is_marked, known_bits};

#[tactic(auto, using(crate::proofs::Gathers::unknown))]
fn is_known(element: u8) -> bool
    ensures { result ≡ known table element }
{
    matches!(element, 2..=128) && is_marked(known_bits(), element)
}

// The bits that an element sets: its own, and bit 1 if it is above 64.
fn bits_of(element: u8) -> u128
    requires { (2 ≤ element) × (element ≤ 128) }
    ensures { (k : ℕ) → 1 ≤ k → k ≤ 128 → marked result k ≡ sets element k }
{
    if element > 64 {
        bit(1) | bit(element)
    } else {
        bit(element)
    }
}

// One element more of a set: the bits of all, or the lowest that the table does not have.
fn add(set: Result<u128, u8>, element: u8) -> Result<u128, u8>
    ensures { (es : List ℕ) → set ≡ gathered es → result ≡ gathered (es ++ element ∷ []) }
{
    match (set, is_known(element)) {
        (Ok(bits), true) => Ok(bits | bits_of(element)),
        (Ok(_), false) => Err(element),
        (Err(lowest), true) => Err(lowest),
        (Err(lowest), false) => Err(lowest.min(element)),
    }
}

// The bitmap of a set, if the table has all its elements: their order does not count, nor does how often one is named.
pub(crate) fn announce<I: Iterator<Item = u8>>(elements: I) -> Result<u128, MessageFault>
    requires can { I.can_next elements }
    requires ends { IsFinite (I.remaining elements) }
    ensures { WholeRun I.next_gives elements (λ p. All (λ e. e < 256) p.items × (result ≡ announced p.items)) }
{
    let mut set = Ok(0);
    for element in elements {
        set = add(set, element);
    }
    set.map_err(|element| MessageFault::Unknown { element, place: 0 })
}
