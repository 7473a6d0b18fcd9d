use crate::common::{details, key};
use host::Host;
use host::ask::{ForgetAnswer, PostAnswer, ReverseAnswer};
use host::line::{Line, Side};
use hosts::limit::LimitHost;

#[test]
fn a_debit_up_to_the_limit_is_posted(rt: HostRuntime) {
    let mut host = LimitHost::new(1000);
    let debit = details(Side::Debit, 1000);
    assert_eq!(rt; host.post(key(1, 5), debit, false), PostAnswer::Posted);
    assert_eq!(rt; host.line(key(1, 5)), Line::Posted(debit));
    assert_eq!(rt; host.line(key(2, 5)), Line::Absent, "another issuer");
    let above = details(Side::Debit, 1001);
    assert_eq!(rt;
        host.post(key(1, 6), above, false),
        PostAnswer::Declined(61)
    );
    assert_eq!(rt;
        host.post(key(1, 6), above, true),
        PostAnswer::Declined(61),
        "must stand"
    );
    assert_eq!(rt; host.line(key(1, 6)), Line::Absent);
    let credit = details(Side::Credit, 1001);
    assert_eq!(rt; host.post(key(1, 6), credit, false), PostAnswer::Posted);
}

#[test]
fn a_repeat_is_posted_and_other_details_clash(rt: HostRuntime) {
    let mut host = LimitHost::new(1000);
    let debit = details(Side::Debit, 700);
    assert_eq!(rt; host.post(key(1, 5), debit, false), PostAnswer::Posted);
    assert_eq!(rt; host.post(key(1, 5), debit, true), PostAnswer::Posted);
    let credit = details(Side::Credit, 700);
    assert_eq!(rt; host.post(key(1, 5), credit, false), PostAnswer::Clash);
    let other = details(Side::Debit, 701);
    assert_eq!(rt; host.post(key(1, 5), other, false), PostAnswer::Clash);
    assert_eq!(rt; host.line(key(1, 5)), Line::Posted(debit));
}

#[test]
fn a_closed_line_stays_closed_until_it_is_forgotten(rt: HostRuntime) {
    let mut host = LimitHost::new(1000);
    let debit = details(Side::Debit, 700);
    assert_eq!(rt; host.post(key(1, 5), debit, false), PostAnswer::Posted);
    assert_eq!(rt; host.reverse(key(1, 5)), ReverseAnswer::Done);
    assert_eq!(rt; host.line(key(1, 5)), Line::Closed);
    assert_eq!(rt;
        host.post(key(1, 5), debit, false),
        PostAnswer::Declined(21)
    );
    assert_eq!(rt; host.reverse(key(1, 5)), ReverseAnswer::Done, "again");
    assert_eq!(rt; host.reverse(key(1, 9)), ReverseAnswer::Done, "no line");
    assert_eq!(rt; host.line(key(1, 9)), Line::Closed);
    host.turn();
    assert_eq!(rt; host.forget(key(1, 5)), ForgetAnswer::Done);
    assert_eq!(rt; host.line(key(1, 5)), Line::Absent);
    assert_eq!(rt;
        host.forget(key(1, 5)),
        ForgetAnswer::Done,
        "nothing to forget"
    );
    assert_eq!(rt; host.post(key(1, 5), debit, false), PostAnswer::Posted);
}

#[test]
fn a_full_table_declines_and_is_silent(rt: HostRuntime) {
    let mut host = LimitHost::new(1000);
    let debit = details(Side::Debit, 1);
    for number in 0u64..256 {
        assert_eq!(rt; host.post(key(1, number), debit, false), PostAnswer::Posted);
    }
    assert_eq!(rt;
        host.post(key(1, 256), debit, false),
        PostAnswer::Declined(96)
    );
    let above = details(Side::Debit, 1001);
    assert_eq!(rt;
        host.post(key(1, 256), above, false),
        PostAnswer::Declined(96),
        "96 goes before 61"
    );
    assert_eq!(rt; host.reverse(key(1, 256)), ReverseAnswer::Silence);
    assert_eq!(rt; host.line(key(1, 256)), Line::Absent);
    assert_eq!(rt; host.reverse(key(1, 17)), ReverseAnswer::Done);
    assert_eq!(rt; host.forget(key(1, 17)), ForgetAnswer::Done);
    assert_eq!(rt; host.reverse(key(1, 256)), ReverseAnswer::Done);
    assert_eq!(rt;
        host.post(key(1, 17), debit, false),
        PostAnswer::Declined(96)
    );
}
