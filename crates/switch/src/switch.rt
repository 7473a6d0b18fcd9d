// A switch over any host.
ghost use Rattle.std.specs.Prelude.{◌≡◌};
ghost use Rattle.members.specs.Members.{codes_of, routes_of};
ghost use Rattle.switch.specs.States.{view, opened};

use books::books::Books;
use host::Host;
use members::banks::Banks;
use members::routes::Routes;

// The banks and the routes it serves, its books, and the host that it asks.
#[derive(Drop)]
pub struct Switch<H: Host> {
    pub(crate) banks: Banks,
    pub(crate) routes: Routes,
    pub(crate) books: Books,
    pub(crate) host: H,
}

impl<H: Host> Switch<H> {
    // Opens a switch: nothing in the journal, no sums, the mark at place 0, the horizon 0, and nothing closed.
    pub fn open(banks: Banks, routes: Routes, host: H) -> Switch<H>
        ensures { view H.meaning result ≡ opened (codes_of banks) (routes_of routes) (H.meaning host) }
    {
        Switch {
            banks,
            routes,
            books: Books::new(),
            host,
        }
    }
}
