ghost use Rattle.std.specs.Prelude.{◌≡◌, ◌<◌, ◌≤◌, cond, length, IfSome, Some, None};
ghost use Rattle.members.specs.Members.{codes_of, routes_of, Routed};
ghost use Rattle.members.specs.Routing.{among, proper_route, way_of, better, longest, route_of, Issued};

use crate::banks::Banks;
use crate::keeping::{all_kept, laid_out};
use crate::prefix::Prefix;
use crate::routes::{MOST_ROUTES, Route, Routes, Way};
use arrayvec::ArrayVec;
use elements::fault::SwitchFault;
use host::line::Card;

// Whether some route has this prefix.
fn among(prefix: &Prefix, routes: &[Route]) -> bool
    ensures { result ≡ among prefix.now routes.now }
{
    routes.iter().any(|route| route.prefix == *prefix)
}

// A route by its bank's place, if a switch with these banks may have it beside those that come after it.
fn way(banks: &Banks, route: &Route, later: &[Route]) -> Option<Way>
    ensures { result ≡ cond (proper_route (codes_of banks.now) route.now later.now) (Some (way_of (codes_of banks.now) route.now)) None }
{
    let issuer = banks.place(route.bank)?;
    if !route.prefix.formed() || among(&route.prefix, later) {
        return None;
    }
    Some(Way {
        prefix: route.prefix,
        issuer,
    })
}

// Whether a card takes a way rather than the one found so far.
fn better(way: &Way, best: &Option<Way>, card: &Card) -> bool
    ensures { result ≡ better way.now best.now card.now }
{
    way.prefix.fits(card) && best.is_none_or(|best| best.prefix.count < way.prefix.count)
}

// The way with the longest prefix that fits a card.
fn longest(ways: &[Way], card: &Card) -> Option<Way>
    ensures { result ≡ longest None ways.now card.now }
{
    // A fold, since `max_by_key` takes the last of ways with equally long prefixes, and the first is meant.
    ways.iter().fold(None, |best, way| {
        if better(way, &best, card) {
            Some(*way)
        } else {
            best
        }
    })
}

impl Routes {
    // The routes of a switch with these banks.
    pub fn open(banks: &Banks, routes: &[Route]) -> Result<Routes, SwitchFault>
        ensures { Routed (codes_of banks.now) routes.now result }
    {
        let kept = all_kept(routes, |route, later| way(banks, route, later));
        let ways: ArrayVec<Way, MOST_ROUTES> = kept.ok_or(SwitchFault::Routes)?;
        Ok(Routes {
            ways: laid_out(&ways),
            count: ways.len(),
        })
    }

    // How many they are.
    pub fn count(&self) -> usize
        ensures { (result ≡ length (routes_of self.now)) × (result ≤ 64) }
    {
        self.count
    }

    // The place of the bank that issued a card: that of the longest prefix which the card begins with.
    pub fn issuer(&self, card: &Card) -> Option<u8>
        ensures which { result ≡ route_of (routes_of self.now) card.now }
        ensures longest { Issued (routes_of self.now) card.now result }
        ensures within { IfSome result (λ i. i < 16) }
    {
        let count = self.count;
        longest(&self.ways[..count], card).map(|way| way.issuer)
    }
}
