use elements::moment::Moment;
use elements::number::number;
use elements::original::Original;

#[test]
fn one_to_nineteen_digits(rt: HostRuntime) {
    assert_eq!(rt; number(b"0"), Some(0));
    assert_eq!(rt;
        number(b"9999999999999999999"),
        Some(9_999_999_999_999_999_999)
    );
    assert_eq!(rt; number(b""), None);
    assert_eq!(rt; number(b"00000000000000000001"), None, "twenty digits");
    assert_eq!(rt; number(b"12a"), None);
}

#[test]
fn a_moment_is_taken(rt: HostRuntime) {
    let number = Moment::read(b"0105101500").map(|moment| moment.number());
    assert_eq!(rt; number, Some(105_101_500));
}

#[test]
fn what_is_no_moment_is_refused(rt: HostRuntime) {
    assert!(rt; Moment::read(b"0010101010").is_none(), "month 00");
    assert!(rt; Moment::read(b"1301000000").is_none(), "month 13");
    assert!(rt; Moment::read(b"0132000000").is_none(), "day 32");
    assert!(rt; Moment::read(b"0101240000").is_none(), "hour 24");
    assert!(rt; Moment::read(b"0101006000").is_none(), "minute 60");
    assert!(rt; Moment::read(b"0101000060").is_none(), "second 60");
    assert!(rt; Moment::read(b"105101500").is_none(), "nine digits");
}

#[test]
fn element_90_is_taken_apart(rt: HostRuntime) {
    assert_eq!(rt;
        Original::read(b"020000000101051015000000000011100000000000"),
        Some(Original {
            mti: 200,
            trace: 1,
            moment: 105_101_500,
            acquirer: 111,
            forwarder: 0,
        })
    );
}

#[test]
fn other_lengths_and_letters_are_refused(rt: HostRuntime) {
    assert!(rt;
        Original::read(b"02000000010105101500000000001110000000000").is_none(),
        "41 digits"
    );
    assert!(rt;
        Original::read(b"0200000001010510150000000000111000000000000").is_none(),
        "43 digits"
    );
    assert!(rt;
        Original::read(b"02000000010105101500000000001110000000000a").is_none(),
        "a letter"
    );
}
