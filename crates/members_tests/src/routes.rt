use elements::fault::{Refusal, SwitchFault};
use host::line::Card;
use members::banks::Banks;
use members::prefix::Prefix;
use members::routes::{Route, Routes};
use std::array;
use std::test::Fail;

fn route(digits: u64, count: u8, bank: u64) -> Route {
    let prefix = Prefix { digits, count };
    Route { prefix, bank }
}

fn card(digits: u64, count: u8) -> Card {
    Card { digits, count }
}

fn number_of(fault: SwitchFault) -> u8 {
    Refusal::from(fault).number
}

// Opens these routes between banks 111 and 222, or gives the number that they are refused with.
fn open(routes: &[Route]) -> Result<(), u8> {
    let banks = Banks::open(&[111, 222]).map_err(number_of)?;
    Routes::open(&banks, routes).map_err(number_of)?;
    Ok(())
}

#[test]
fn the_longest_prefix_is_the_route(rt: HostRuntime) -> Result<(), Fail> {
    let Ok(banks) = Banks::open(&[111, 222, 333]) else {
        return Err(Fail::new("banks refused"));
    };
    let asked = [route(51, 2, 111), route(5, 1, 222), route(5123, 4, 333)];
    let Ok(routes) = Routes::open(&banks, &asked) else {
        return Err(Fail::new("routes refused"));
    };
    assert_eq!(rt; routes.issuer(&card(5_000_000_000_000_001, 16)), Some(1));
    assert_eq!(rt; routes.issuer(&card(5_122_000_000_000_000, 16)), Some(0));
    assert_eq!(rt;
        routes.issuer(&card(5_123_999_999_999_999_999, 19)),
        Some(2)
    );
    assert_eq!(rt;
        routes.issuer(&card(512, 3)),
        Some(0),
        "5123 is longer than the card"
    );
    assert_eq!(rt; routes.issuer(&card(4_123_000_000_000_000, 16)), None);
    Ok(())
}

#[test]
fn leading_zeros_count(rt: HostRuntime) -> Result<(), Fail> {
    let Ok(banks) = Banks::open(&[111, 222]) else {
        return Err(Fail::new("banks refused"));
    };
    let asked = [route(1, 1, 111), route(1, 2, 222)];
    let Ok(routes) = Routes::open(&banks, &asked) else {
        return Err(Fail::new("routes refused"));
    };
    assert_eq!(rt; routes.issuer(&card(12, 2)), Some(0), "12 begins with 1");
    assert_eq!(rt; routes.issuer(&card(12, 3)), Some(1), "012 begins with 01");
    assert_eq!(rt;
        routes.issuer(&card(12, 4)),
        None,
        "0012 begins with neither"
    );
    assert_eq!(rt; routes.issuer(&card(0, 1)), None);
    Ok(())
}

#[test]
fn routes_that_are_refused(rt: HostRuntime) {
    assert_eq!(rt; open(&[]), Ok(()), "no routes are fine");
    assert_eq!(rt;
        open(&[route(99_999_999, 8, 111), route(0, 1, 222)]),
        Ok(())
    );
    assert_eq!(rt; open(&[route(100_000_000, 9, 111)]), Err(16), "nine digits");
    assert_eq!(rt; open(&[route(0, 0, 111)]), Err(16), "no digit");
    assert_eq!(rt;
        open(&[route(10, 1, 111)]),
        Err(16),
        "two digits said to be one"
    );
    assert_eq!(rt;
        open(&[route(5, 1, 111), route(5, 1, 222)]),
        Err(16),
        "one prefix twice"
    );
    assert_eq!(rt; open(&[route(5, 1, 333)]), Err(16), "a bank unknown");
}

// Routes with the prefixes 00, 01, 02 and so on.
fn numbered<const N: usize>() -> [Route; N] {
    array::from_fn(|i| route(i as u64, 2, 222))
}

#[test]
fn sixty_four_routes_are_taken(rt: HostRuntime) {
    assert_eq!(rt; open(&numbered::<64>()), Ok(()));
    assert_eq!(rt; open(&numbered::<65>()), Err(16));
}

#[test]
fn a_clone_has_the_same_routes(rt: HostRuntime) -> Result<(), Fail> {
    let Ok(banks) = Banks::open(&[111, 222]) else {
        return Err(Fail::new("banks refused"));
    };
    let Ok(routes) = Routes::open(&banks, &[route(5, 1, 222)]) else {
        return Err(Fail::new("routes refused"));
    };
    let copy = routes.clone()?;
    assert_eq!(rt; copy.count(), 1);
    assert_eq!(rt; copy.issuer(&card(5_000_000_000_000_001, 16)), Some(1));
    Ok(())
}
