ghost use Rattle.std.specs.Prelude.{◌≡◌, ◌<◌, ◌≤◌, length, take, All};

use crate::prefix::Prefix;

// How many routes there can be.
pub const MOST_ROUTES: usize = 64;

// A route as it is asked for: cards that begin with the prefix are issued by the bank with this code.
#[derive(Clone, Copy)]
pub struct Route {
    pub prefix: Prefix,
    pub bank: u64,
}

// A route as it is kept, with the bank's place: a plain number, as the hosts and the books keep it. That it is one of 16
// is said of the routes as a whole.
#[derive(Clone, Copy, Default)]
pub struct Way {
    pub prefix: Prefix,
    pub issuer: u8,
}

// The routes of a switch, of which the first `count` count. Every issuer is one of 16 banks.
// An array with a count, which `few` bounds: an `ArrayVec` would bound it by itself, but is not `Copy`.
#[derive(Clone, Copy)]
pub struct Routes {
    pub(crate) ways: [Way; MOST_ROUTES],
    pub(crate) count: usize,
    ghost room: { length ways ≡ 64 },
    ghost few: { count ≤ 64 },
    ghost banks: { All (λ w. w.issuer < 16) (take count ways) },
}
