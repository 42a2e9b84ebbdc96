// Why a message isn't accepted: the tests of the single word's calls, in the paper's order.
ghost use Rattle.std.specs.Prelude.{◌≡◌, pos, get_or};
ghost use Rattle.refusal.specs.Check.{first};
ghost use Rattle.sheet.specs.Inner.{entries};
ghost use Rattle.act.specs.Cause.{why_of, cause_code, row_or_zeros, is_offered, moves_to, on_entry, on_bracket, takes_zero, causes, because};
ghost use Rattle.act.specs.Inner.{scan_causes, row_causes};

use crate::{Offer, Request, Setup};
use message::{Body, Message};
use sheet::{Index, Row};

// Why a message is answered with `N` or with silence, or a word with silence: what the paper gives beside the reply. A closed message that
// isn't well formed has the position of its first character that no well-formed message could have there.
#[derive(Clone, Copy)]
pub enum Cause {
    NoSuchIdentifier,
    Access,
    WrongDecimals,
    OutOfRange,
    AtLimit,
    NotForThisCard,
    NoOffer,
    NoMessageClosed,
    NotWellFormed(u8),
    MinusZero,
}

// How a message stands with the card, by what the sheets, the values and the offer say, in the order of the tests: each is true where that
// test is passed, or its type doesn't make it. Whom it is for and minus zero are judged by the setup. Six flags, and no value beside one.
#[derive(Clone, Copy)]
pub struct Standing {
    pub offered: bool, // the identifier, for a Type 4
    pub exists: bool, // the row, or the scan
    pub allowed: bool, // by its access
    pub matching: bool, // the decimals, for a Type 3
    pub within: bool, // its number in range
    pub reachable: bool, // a step's result in range
}

// Every test passed.
const PASSED: Standing = Standing {
    offered: true,
    exists: true,
    allowed: true,
    matching: true,
    within: true,
    reachable: true,
};

const ROW_OF_ZEROS: Row = Row {
    access: 0,
    decimals: 0,
    step: 0,
    least: 0,
    greatest: 0,
};

impl Cause {
    // The code of a cause. No `From<Cause> for u8`: a cause is its code and its position, and the C interface takes the two apart.
    pub fn code(self) -> u8
        ensures { result ≡ cause_code self }
    {
        match self {
            Cause::NoSuchIdentifier => 1,
            Cause::Access => 2,
            Cause::WrongDecimals => 3,
            Cause::MinusZero => 4,
            Cause::OutOfRange => 5,
            Cause::AtLimit => 6,
            Cause::NotForThisCard => 7,
            Cause::NoOffer => 8,
            Cause::NoMessageClosed => 9,
            Cause::NotWellFormed(_) => 10,
        }
    }

    // The position in a message that isn't well formed, 0 for any other cause.
    pub fn position(self) -> u8
        ensures { result ≡ (why_of (Some self)).position }
    {
        match self {
            Cause::NotWellFormed(at) => at,
            _ => 0,
        }
    }
}

// The code of a cause, 0 for none.
pub fn cause_code(cause: Option<Cause>) -> u8
    ensures { result ≡ (why_of cause).code }
{
    cause.map_or(0, |cause| cause.code())
}

// The position in a message that isn't well formed, 0 for any other cause and for none.
pub fn cause_position(cause: Option<Cause>) -> u8
    ensures { result ≡ (why_of cause).position }
{
    cause.map_or(0, |cause| cause.position())
}

// Only a Type 3 can be of minus zero.
#[tactic(auto, unfolding(crate::specs::Cause::takes_zero, message::specs::Message::asks_minus_zero))]
fn takes_zero(setup: Setup, body: Body) -> bool
    ensures { result ≡ takes_zero setup body }
{
    match body {
        Body::Set(x) => setup.takes(x),
        Body::Status | Body::Query | Body::Up | Body::Down | Body::Store => true,
    }
}

// A test is passed where its part is true; the first that isn't gives the cause.
#[tactic(auto, unfolding(crate::specs::Cause::causes, refusal::specs::Check::first))]
fn first_cause(setup: Setup, message: Message, standing: Standing) -> Option<Cause>
    ensures { why_of result ≡ because (first (causes setup message standing)) }
{
    if !setup.is_for(message) {
        return Some(Cause::NotForThisCard);
    }
    if !standing.offered {
        return Some(Cause::NoOffer);
    }
    if !standing.exists {
        return Some(Cause::NoSuchIdentifier);
    }
    if !standing.allowed {
        return Some(Cause::Access);
    }
    if !standing.matching {
        return Some(Cause::WrongDecimals);
    }
    if !takes_zero(setup, message.body) {
        return Some(Cause::MinusZero);
    }
    if !standing.within {
        return Some(Cause::OutOfRange);
    }
    if !standing.reachable {
        return Some(Cause::AtLimit);
    }
    None
}

// The row of an entry; where there is none, one of zeros.
pub(crate) fn row_or_zeros(entry: Option<Row>) -> Row
    ensures { result ≡ row_or_zeros entry }
{
    entry.unwrap_or(ROW_OF_ZEROS)
}

// Whether the offer is for this identifier.
#[tactic(auto, unfolding(crate::specs::Cause::is_offered))]
fn is_offered(offer: Option<Offer>, identifier: u8) -> bool
    ensures { result ≡ is_offered offer identifier }
{
    offer.is_some_and(|offer| offer.identifier == identifier)
}

// One step to the next value.
fn moves_to(exists: bool, row: Row, next: i32) -> Standing
    ensures { result ≡ moves_to exists row next }
{
    Standing {
        exists,
        allowed: row.is_read_write(),
        reachable: crate::within_row(row, next),
        ..PASSED
    }
}

impl Request {
    // How it stands with a card that has this offer, by its type.
    #[tactic(auto, unfolding(crate::specs::Cause::standing))]
    fn standing(self, offer: Option<Offer>) -> Standing
        ensures { result ≡ on_entry self.entry offer self.value self.message.identifier self.message.body }
    {
        let exists = self.entry.is_some();
        let row = row_or_zeros(self.entry);
        match self.message.body {
            Body::Status => PASSED,
            Body::Query => Standing {
                exists,
                allowed: row.is_readable(),
                ..PASSED
            },
            Body::Up => moves_to(exists, row, number::raised(self.value, row.step)),
            Body::Down => moves_to(exists, row, number::lowered(self.value, row.step)),
            Body::Set(x) => Standing {
                exists,
                allowed: row.is_writable(),
                matching: x.decimals == row.decimals,
                within: crate::within_row(row, x.number),
                ..PASSED
            },
            Body::Store => Standing {
                offered: is_offered(offer, self.message.identifier),
                ..PASSED
            },
        }
    }
}

// A message on `]`, where the card names some identifiers or none: no number is judged, and only a Type 2 `?` is allowed.
#[tactic(auto, unfolding(crate::specs::Cause::on_bracket))]
fn on_bracket(some: bool, body: Body) -> Standing
    ensures { result ≡ on_bracket some body }
{
    Standing {
        offered: !matches!(body, Body::Store),
        exists: some,
        allowed: matches!(body, Body::Query),
        ..PASSED
    }
}

// Why a message on `]` isn't accepted, at a card with this setup.
pub fn scan_cause(setup: Setup, message: Message) -> Option<Cause>
    ensures { why_of result ≡ because (first (scan_causes setup message)) }
{
    let some = setup.count != 0;
    first_cause(setup, message, on_bracket(some, message.body))
}

// Why a message on any other identifier isn't accepted, at a card with this setup and offer.
pub fn row_cause<'a>(
    setup: Setup,
    offer: Option<Offer>,
    index: &Index<'a>,
    values: &[i32],
    message: Message,
) -> Option<Cause>
    ensures { why_of result ≡ because (first (row_causes setup offer (entries index.now) (λ i. get_or values.now i (pos 0)) message)) }
{
    let request = Request::of(index, values, message);
    first_cause(setup, message, request.standing(offer))
}
