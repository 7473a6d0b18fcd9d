ghost use Rattle.std.specs.Prelude.{◌≡◌, ◌≤◌, true, length, take};
ghost use Rattle.members.specs.Codes.{sound_banks};

// How many banks there can be.
pub const MOST_BANKS: usize = 16;

// The codes of the banks, of which the first `count` count. Banks that exist can be opened: 1 to 16 codes, none twice.
// An array with a count, which `few` bounds: an `ArrayVec` would bound it by itself, but is not `Copy`.
#[derive(Clone, Copy)]
pub struct Banks {
    pub(crate) codes: [u64; MOST_BANKS],
    pub(crate) count: usize,
    ghost room: { length codes ≡ 16 },
    ghost few: { count ≤ 16 },
    ghost sound: { sound_banks (take count codes) ≡ true },
}
