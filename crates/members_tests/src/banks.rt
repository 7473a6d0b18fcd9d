use elements::fault::Refusal;
use members::banks::Banks;
use std::test::Fail;

// Opens banks with these codes, or gives the number that they are refused with.
fn open(codes: &[u64]) -> Result<(), u8> {
    Banks::open(codes).map_err(|fault| Refusal::from(fault).number)?;
    Ok(())
}

#[test]
fn banks_count_from_zero(rt: HostRuntime) -> Result<(), Fail> {
    let Ok(banks) = Banks::open(&[111, 99_999_999_999, 1]) else {
        return Err(Fail::new("refused"));
    };
    assert_eq!(rt; banks.count(), 3);
    assert_eq!(rt; banks.place(111), Some(0));
    assert_eq!(rt; banks.place(1), Some(2));
    assert_eq!(rt;
        banks.place(0),
        None,
        "what lies behind the last bank is none"
    );
    assert_eq!(rt; banks.code(1), Some(99_999_999_999));
    assert_eq!(rt; banks.code(3), None);
    Ok(())
}

#[test]
fn one_to_sixteen_codes_are_taken(rt: HostRuntime) {
    assert_eq!(rt; open(&[7]), Ok(()));
    assert_eq!(rt;
        open(&[1, 2, 3, 4, 5, 6, 7, 8, 9, 10, 11, 12, 13, 14, 15, 16]),
        Ok(())
    );
    assert_eq!(rt;
        open(&[1, 2, 3, 4, 5, 6, 7, 8, 9, 10, 11, 12, 13, 14, 15, 16, 17]),
        Err(15)
    );
    assert_eq!(rt; open(&[]), Err(15));
}

#[test]
fn codes_are_in_range_and_not_twice(rt: HostRuntime) {
    assert_eq!(rt; open(&[5, 0]), Err(15));
    assert_eq!(rt; open(&[100_000_000_000]), Err(15));
    assert_eq!(rt; open(&[5, 6, 5]), Err(15));
    assert_eq!(rt; open(&[5, 6, 55]), Ok(()));
}

#[test]
fn a_clone_has_the_same_banks(rt: HostRuntime) -> Result<(), Fail> {
    let Ok(banks) = Banks::open(&[111, 222]) else {
        return Err(Fail::new("refused"));
    };
    let copy = banks.clone()?;
    assert_eq!(rt; copy.count(), 2);
    assert_eq!(rt; copy.place(222), Some(1));
    Ok(())
}
