// Messages: requests, advices and reversals.
ghost use Rattle.std.specs.Prelude.{◌≡◌, ◌*◌, ◌^◌, ◌<◌, ◌≤◌, true, Some, None};
ghost use Rattle.intake.specs.Sizes.{Sized, SizedPresentment, SizedReversal};
ghost use Rattle.books.specs.Sizes.{small};
ghost use Rattle.journal.specs.Entries.{repeated, same_terms, effect, reversal_of};
ghost use Rattle.journal.specs.Places.{seek, Found, lowest_free};
ghost use Rattle.switch.specs.Handled.{Handles};
ghost use Rattle.switch.specs.Orders.{Coded, Fits, PresentedSo, TakenBackSo, EnteredSo, Obeyed};
ghost use Rattle.switch.specs.Requests.{terms_of, state_by, code_by};
ghost use Rattle.switch.specs.Reversals.{proper, presents, ByEffect, ByEntry};
ghost use Rattle.switch.specs.States.{view};

use crate::switch::Switch;
use elements::fault::SwitchFault;
use elements::moment::Moment;
use host::ask::PostAnswer;
use host::line::Key;
use host::{Host, code};
use intake::order::{Order, Presentment, Reversal, Service};
use intake::take::take;
use journal::entry::{Effect, Entry, Held, Kind, State, Terms};
use journal::number;
use replies::reply::reply;

// What a request or an advice asks for.
fn terms(p: &Presentment) -> Terms
    ensures { result ≡ terms_of p.now }
{
    Terms {
        card: p.card,
        processing: p.processing,
        amount: p.particulars.amount,
        kind: p.kind,
    }
}

// By its host's answer, where a new request stands.
fn state_by(answer: PostAnswer) -> State
    ensures { result ≡ state_by answer }
{
    match answer {
        PostAnswer::Posted => State::Completed,
        PostAnswer::Declined(_) => State::Declined,
        PostAnswer::Silence | PostAnswer::Clash => State::Owed,
    }
}

// By its host's answer, what a new request is answered.
fn code_by(answer: PostAnswer) -> u8
    ensures { result ≡ code_by answer }
{
    match answer {
        PostAnswer::Posted => code::APPROVED,
        PostAnswer::Declined(code) => code,
        PostAnswer::Silence | PostAnswer::Clash => code::ISSUER_INOPERATIVE,
    }
}

// What a repeat is answered.
fn repeat(entry: &Entry, terms: &Terms) -> u8
    requires { small entry.now ≡ true }
    ensures code { result ≡ repeated entry.now.state (same_terms entry.now terms.now) entry.now.code }
    ensures small { result ≤ 99 }
{
    entry.repeated(terms)
}

// Whether a reversal says of what it takes back what it has to say.
fn proper(v: &Reversal) -> bool
    ensures { result ≡ proper v.now }
{
    v.particulars.moment.is_some()
        && Moment::new(v.original.moment).is_some()
        && presents(v.original.mti)
        && v.original.acquirer == v.particulars.acquirer
}

// The types of requests and advices.
fn presents(mti: u16) -> bool
    ensures { result ≡ presents mti }
{
    matches!(Service::of(mti), Some(Service::Present(_)))
}

impl<H: Host> Switch<H> {
    // Enters what is new. The host of a request is asked once, and need not let it stand; that of an advice is not asked yet.
    fn enter(&mut self, key: Key, place: usize, terms: Terms) -> u8
        requires room { lowest_free (view H.meaning self.old).books.places ≡ Some place }
        requires new { seek (view H.meaning self.old).books.places key.number ≡ None }
        requires size { Fits key.number key.issuer terms }
        ensures { EnteredSo (view H.meaning self.old) key.number key.issuer place terms result (view H.meaning self.new) }
    {
        match terms.kind {
            Kind::Request => {
                let answer = self.host.post(key, terms.details(), false);
                let code = code_by(answer);
                let entry = Entry::new(key, terms, state_by(answer), code);
                self.books.take(place, entry);
                code
            }
            Kind::Advice => {
                let entry = Entry::new(key, terms, State::Waiting, code::APPROVED);
                self.books.take(place, entry);
                code::APPROVED
            }
        }
    }

    // The first step that applies gives the response code.
    fn present(&mut self, acquirer: u8, p: &Presentment) -> u8
        requires bank { acquirer < 16 }
        requires size { SizedPresentment p.now }
        ensures { PresentedSo (view H.meaning self.old) acquirer p.now result (view H.meaning self.new) }
    {
        let Some(moment) = p.particulars.moment else {
            return code::FORMAT_ERROR;
        };
        if p.processing / 10_000 >= 30 {
            return code::INVALID_TRANSACTION;
        }
        if p.particulars.amount == 0 {
            return code::INVALID_AMOUNT;
        }
        let number = number::join(acquirer, moment, p.particulars.trace);
        let terms = terms(p);
        if let Some(held) = self.books.find(number) {
            return repeat(&held.entry, &terms);
        }
        if moment <= self.books.horizon() {
            return code::CUTOFF_PASSED;
        }
        let Some(issuer) = self.routes.issuer(&p.card) else {
            return code::NO_SUCH_ISSUER;
        };
        let Some(place) = self.books.free() else {
            return code::NO_ROOM;
        };
        self.enter(Key { issuer, number }, place, terms)
    }

    // A reversal of a number that the journal does not have: unless it is too late, the number is barred, so that a request that
    // comes after its reversal is not booked.
    fn bar(&mut self, number: u64) -> u8
        requires range { number < 16 * 10 ^ 16 }
        requires new { seek (view H.meaning self.old).books.places number ≡ None }
        ensures { Coded (λ said. ByEntry None (view H.meaning self.old) number 0 said (view H.meaning self.new)) result }
    {
        if number::moment(number) <= self.books.horizon() {
            return code::NO_SUCH_RECORD;
        }
        let Some(place) = self.books.free() else {
            return code::NO_ROOM;
        };
        self.books.take(place, Entry::barred(number));
        code::NO_SUCH_RECORD
    }

    // A reversal of an entry: state and reversal together decide.
    fn reverse(&mut self, held: Held, amount: u64) -> u8
        requires { Found (view H.meaning self.old).books.places held.entry.number held.place held.entry }
        ensures { Coded (λ said. ByEffect (effect held.entry.state (reversal_of held.entry amount)) (view H.meaning self.old) held.entry said (view H.meaning self.new)) result }
    {
        match held.entry.reversed(held.entry.reversal(amount)) {
            Effect::Answers(code) => code,
            Effect::Owes => {
                self.books.owe(held);
                code::APPROVED
            }
        }
    }

    // The first step that applies gives the response code. The host is not asked.
    fn take_back(&mut self, acquirer: u8, v: &Reversal) -> u8
        requires bank { acquirer < 16 }
        requires size { SizedReversal v.now }
        ensures { TakenBackSo (view H.meaning self.old) acquirer v.now result (view H.meaning self.new) }
    {
        if !proper(v) {
            return code::FORMAT_ERROR;
        }
        let number = number::join(acquirer, v.original.moment, v.original.trace);
        match self.books.find(number) {
            Some(held) => self.reverse(held, v.particulars.amount),
            None => self.bar(number),
        }
    }

    // Carries an order out, and answers its response code.
    fn obey(&mut self, acquirer: u8, order: &Order) -> u8
        requires bank { acquirer < 16 }
        requires size { Sized order.now }
        ensures { Obeyed (view H.meaning self.old) acquirer order.now result (view H.meaning self.new) }
    {
        match order {
            Order::Presented(presentment) => self.present(acquirer, presentment),
            Order::Reversed(reversal) => self.take_back(acquirer, reversal),
        }
    }

    // Takes a message of any bytes, and writes one reply to the front of the buffer, of which it answers the length. A message
    // that is refused changes nothing: neither the switch, nor its host, nor a byte of the buffer.
    pub fn handle(&mut self, bytes: &[u8], out: &mut [u8]) -> Result<usize, SwitchFault>
        ensures { Handles (view H.meaning self.old) bytes.now out.old result (view H.meaning self.new) out.new }
    {
        let (message, order) = take(bytes, out.len())?;
        let told = order.particulars();
        let acquirer = self
            .banks
            .place(told.acquirer)
            .ok_or(SwitchFault::Acquirer { place: told.place })?;
        let code = self.obey(acquirer, &order);
        Ok(reply(out, &message, code))
    }
}
