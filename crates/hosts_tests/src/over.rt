use crate::common::{details, key};
use host::Host;
use host::ask::{ForgetAnswer, PostAnswer, ReverseAnswer};
use host::line::{Details, Line, Side};
use hosts::limit::LimitHost;
use layers::pair::Pair;
use layers::retry::Retry;

fn debit(amount: u64) -> Details {
    details(Side::Debit, amount)
}

#[test]
fn a_pair_sends_by_the_issuer(rt: HostRuntime) {
    let mut host = Pair::new(3, LimitHost::new(10), LimitHost::new(1000));
    assert_eq!(rt;
        host.post(key(2, 5), debit(11), false),
        PostAnswer::Declined(61)
    );
    assert_eq!(rt; host.post(key(3, 5), debit(11), false), PostAnswer::Posted);
    assert_eq!(rt; host.line(key(2, 5)), Line::Absent);
    assert_eq!(rt; host.line(key(3, 5)), Line::Posted(debit(11)));
    assert_eq!(rt; host.reverse(key(2, 5)), ReverseAnswer::Done);
    assert_eq!(rt; host.line(key(2, 5)), Line::Closed);
    assert_eq!(rt; host.line(key(3, 5)), Line::Posted(debit(11)));
    host.turn();
    assert_eq!(rt; host.forget(key(3, 5)), ForgetAnswer::Done);
    assert_eq!(rt; host.line(key(3, 5)), Line::Absent);
    assert_eq!(rt; host.line(key(2, 5)), Line::Closed);
}

#[test]
fn a_retry_passes_answers_on(rt: HostRuntime) {
    let mut host = Retry::new(200, LimitHost::new(10));
    assert_eq!(rt; host.post(key(1, 5), debit(10), false), PostAnswer::Posted);
    assert_eq!(rt;
        host.post(key(1, 6), debit(11), false),
        PostAnswer::Declined(61),
        "no silence before it"
    );
    assert_eq!(rt; host.post(key(1, 5), debit(9), false), PostAnswer::Clash);
    assert_eq!(rt; host.reverse(key(1, 5)), ReverseAnswer::Done);
    assert_eq!(rt;
        host.post(key(1, 5), debit(10), false),
        PostAnswer::Declined(21)
    );
    host.turn();
    assert_eq!(rt; host.forget(key(1, 5)), ForgetAnswer::Done);
    assert_eq!(rt; host.line(key(1, 5)), Line::Absent);
}

#[test]
fn a_silence_that_lasts_is_passed_on(rt: HostRuntime) {
    let mut host = Retry::new(2, LimitHost::new(10));
    for number in 0u64..256 {
        assert_eq!(rt;
            host.post(key(1, number), debit(1), false),
            PostAnswer::Posted
        );
    }
    assert_eq!(rt; host.reverse(key(1, 256)), ReverseAnswer::Silence);
    assert_eq!(rt; host.line(key(1, 256)), Line::Absent);
}
