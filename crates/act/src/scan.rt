// What a message on `]` leads to: the values of the identifiers that a card names for its scan.
ghost use Rattle.std.specs.Prelude.{◌≡◌, pos, get_or};
ghost use Rattle.sheet.specs.Inner.{entries};
ghost use Rattle.act.specs.Act.{value_of, scan_of};
ghost use Rattle.act.specs.Inner.{declines_scan, serve_scan, on_scan};

use crate::{Effect, Offer, Setup, causes};
use message::{Body, Message};
use number::Decimal;
use reply::{Content, Mark};
use sheet::Index;

// The value of an identifier, with the decimals of its row.
#[tactic(auto, unfolding(crate::specs::Act::value_of))]
fn value_of<'a>(index: &Index<'a>, values: &[i32], identifier: u8) -> Decimal
    ensures { result ≡ value_of (entries index.now) (λ i. get_or values.now i (pos 0)) identifier }
{
    let entry = index.find(identifier);
    Decimal {
        number: crate::value_at(values, identifier),
        decimals: causes::row_or_zeros(entry).decimals,
    }
}

// The values of the identifiers that the card names, four or five.
#[tactic(auto, unfolding(crate::specs::Act::scan_of, crate::specs::Act::value_of))]
fn scan_of<'a>(setup: Setup, index: &Index<'a>, values: &[i32]) -> Content
    ensures { result ≡ scan_of setup (value_of (entries index.now) (λ i. get_or values.now i (pos 0))) }
{
    let [a, b, c, d, e] = setup
        .scan
        .map(|identifier| value_of(index, values, identifier));
    if setup.count == 4 {
        Content::Four(a, b, c, d)
    } else {
        Content::Five(a, b, c, d, e)
    }
}

#[tactic(auto, unfolding(crate::specs::Inner::declines_scan))]
fn declines_scan(message: Message) -> Effect
    ensures { result ≡ declines_scan message }
{
    crate::says(message, Mark::Declined, crate::no_number())
}

// A message on `]`, by its type.
#[tactic(auto, unfolding(crate::specs::Inner::serve_scan))]
fn serve_scan<'a>(setup: Setup, index: &Index<'a>, values: &[i32], message: Message) -> Effect
    ensures { result ≡ serve_scan setup message (scan_of setup (value_of (entries index.now) (λ i. get_or values.now i (pos 0)))) message.body }
{
    match message.body {
        Body::Query if setup.count != 0 => {
            crate::says(message, Mark::Accepted, scan_of(setup, index, values))
        }
        Body::Status | Body::Query | Body::Up | Body::Down | Body::Set(_) => declines_scan(message),
        Body::Store => crate::silent(),
    }
}

// What a message on `]` leads to, at a card with this setup and offer. It is apart from the others, so that they carry no room for five numbers.
#[tactic(auto, using(crate::proofs::Judged::bracket_is), unfolding(crate::specs::Inner::addressed))]
pub fn on_scan<'a>(
    setup: Setup,
    offer: Option<Offer>,
    index: &Index<'a>,
    values: &[i32],
    message: Message,
) -> Effect
    ensures { result ≡ on_scan setup offer (entries index.now) (λ i. get_or values.now i (pos 0)) message }
{
    if setup.is_for(message) {
        serve_scan(setup, index, values, message)
    } else {
        crate::no_effect(offer)
    }
}
