// What a card does with a heard message: what it says, the offer afterwards, and what is stored.
#![tactic(auto)]

ghost use Rattle.std.specs.Prelude.{◌≡◌, pos, get_or};
ghost use Rattle.number.specs.Data.{with_decimals};
ghost use Rattle.number.specs.Number.{in_range};
ghost use Rattle.sheet.specs.Inner.{entries};
ghost use Rattle.act.specs.Cause.{is_for, takes_zero};
ghost use Rattle.act.specs.Act.{no_effect, silent, answer_to, says, accepts, shown_by, offers};
ghost use Rattle.act.specs.Inner.{declines, query, moved, set_to, store, serve, on_row};

use message::{Body, Message};
use number::{Decimal, Numeral};
use reply::{Answer, Content, Mark};
use sheet::{Index, Row};

pub mod causes;
pub mod scan;

// The most identifiers that a scan names.
pub const MOST_NAMED: usize = 5;

// What a card is set to; the first `count` of `scan` are the identifiers that it names for its scan, and `revision` is 1 or 2 in a sound card.
// All are numbers of the host's row (crate `row`), which also has some that no card may have: claims on unsound cards speak of them, as
// `unknown` of `demands/specs/Zeros` of the revision and `sound_scan` of `card/specs/Refusals` of the count. So none is an enum or a slice.
#[derive(Clone, Copy)]
pub struct Setup {
    pub letter: u8,
    pub address: u8,
    pub count: u8,
    pub scan: [u8; MOST_NAMED],
    pub revision: u8,
}

impl Setup {
    // Whether the message is for a card with this setup.
    #[tactic(auto, unfolding(crate::specs::Cause::is_for))]
    pub(crate) fn is_for(self, message: Message) -> bool
        ensures { result ≡ is_for self message }
    {
        (message.letter == self.letter) & (message.address == self.address)
    }

    // Whether the card takes this number, minus zero or not.
    #[tactic(auto, unfolding(crate::specs::Cause::takes_zero, message::specs::Message::asks_minus_zero))]
    pub(crate) fn takes(self, x: Numeral) -> bool
        ensures { result ≡ takes_zero self (Body.Set x) }
    {
        !(x.minus_zero & (self.revision == 2))
    }
}

// A number that a Type 3 message left, to be stored by a Type 4.
#[derive(Clone, Copy)]
pub struct Offer {
    pub identifier: u8,
    pub value: i32,
}

// A value to be stored.
#[derive(Clone, Copy)]
pub struct Store {
    pub place: u8,
    pub value: i32,
}

// What a heard message leads to: what the card says, if anything, what is on offer afterwards, and what is stored.
#[derive(Clone, Copy)]
pub struct Effect {
    pub said: Option<Answer>,
    pub offer: Option<Offer>,
    pub store: Option<Store>,
}

// Silence, the offer as it was, nothing stored.
pub fn no_effect(offer: Option<Offer>) -> Effect
    ensures { result ≡ no_effect offer }
{
    Effect {
        said: None,
        offer,
        store: None,
    }
}

// Silence, offer gone.
pub(crate) fn silent() -> Effect
    ensures { result ≡ silent }
{
    no_effect(None)
}

fn answer_to(message: Message, mark: Mark, content: Content) -> Answer
    ensures { result ≡ answer_to message mark content }
{
    Answer {
        letter: message.letter,
        address: message.address,
        identifier: message.identifier,
        mark,
        content,
    }
}

// A reply, offer gone, nothing stored.
#[tactic(auto, unfolding(crate::specs::Act::says))]
pub(crate) fn says(message: Message, mark: Mark, content: Content) -> Effect
    ensures { result ≡ says message mark content }
{
    Effect {
        said: Some(answer_to(message, mark, content)),
        ..silent()
    }
}

// The new value and `A`, offer gone.
#[tactic(auto, unfolding(crate::specs::Act::accepts, crate::specs::Act::says))]
fn accepts(message: Message, value: i32, decimals: u8) -> Effect
    ensures { result ≡ accepts message value decimals }
{
    let number = Decimal {
        number: value,
        decimals,
    };
    let store = Store {
        place: message.identifier,
        value,
    };
    Effect {
        store: Some(store),
        ..says(message, Mark::Accepted, Content::Number(number))
    }
}

// The value with the decimals of its row.
fn number_in(row: Row, number: i32) -> Content
    ensures { result ≡ Content.Number (with_decimals number row.decimals) }
{
    Content::Number(Decimal {
        number,
        decimals: row.decimals,
    })
}

// `00000`.
pub(crate) fn no_number() -> Content
    ensures { result ≡ Content.Number (with_decimals (pos 0) 0) }
{
    Content::Number(Decimal::default())
}

// What `N` carries.
#[tactic(auto, unfolding(crate::specs::Act::shown_by))]
fn shown_by(entry: Option<Row>, value: i32) -> Content
    ensures { result ≡ shown_by entry value }
{
    match entry {
        Some(row) if row.is_readable() => number_in(row, value),
        _ => no_number(),
    }
}

// Whether a number is in the range of a row.
pub(crate) fn within_row(row: Row, x: i32) -> bool
    ensures { result ≡ in_range row.least x row.greatest }
{
    number::in_range(row.least, x, row.greatest)
}

// The number cut down, offered.
#[tactic(auto, unfolding(crate::specs::Act::offers, crate::specs::Act::says))]
fn offers(message: Message, row: Row, number: i32) -> Effect
    ensures { result ≡ offers message row number }
{
    let value = number::cut(number, row.step);
    let offer = Offer {
        identifier: message.identifier,
        value,
    };
    Effect {
        offer: Some(offer),
        ..says(message, Mark::Offered, number_in(row, value))
    }
}

// Type 4. Document 01 asks for this `let .. else`, whose other branch is silence with the offer gone.
#[tactic(auto, unfolding(crate::specs::Inner::store))]
fn store_offer(message: Message, entry: Option<Row>, offer: Option<Offer>) -> Effect
    ensures { result ≡ store message entry offer }
{
    let Some(Offer { identifier, value }) = offer else {
        return silent();
    };
    if identifier == message.identifier {
        accepts(message, value, causes::row_or_zeros(entry).decimals)
    } else {
        silent()
    }
}

// The value stored at a place.
pub(crate) fn value_at(values: &[i32], place: u8) -> i32
    ensures { result ≡ get_or values.now place (pos 0) }
{
    values.get(usize::from(place)).copied().unwrap_or(0)
}

// A message with what is kept for its identifier: the entry in the sheets, and the value.
#[derive(Clone, Copy)]
pub(crate) struct Request {
    pub(crate) message: Message,
    pub(crate) entry: Option<Row>,
    pub(crate) value: i32,
}

impl Request {
    // A message with what the index and the values give.
    pub(crate) fn of<'a>(index: &Index<'a>, values: &[i32], message: Message) -> Request
        ensures { result ≡ record { message = message; entry = entries index.now message.identifier; value = get_or values.now message.identifier (pos 0) } }
    {
        Request {
            message,
            entry: index.find(message.identifier),
            value: value_at(values, message.identifier),
        }
    }

    #[tactic(auto, unfolding(crate::specs::Inner::declines))]
    fn declines(self) -> Effect
        ensures { result ≡ declines self.message self.entry self.value }
    {
        says(
            self.message,
            Mark::Declined,
            shown_by(self.entry, self.value),
        )
    }

    // Type 2 `?`.
    #[tactic(auto, unfolding(crate::specs::Inner::query))]
    fn query(self) -> Effect
        ensures { result ≡ query self.message self.entry self.value }
    {
        match self.entry {
            Some(row) if row.is_readable() => {
                says(self.message, Mark::Accepted, number_in(row, self.value))
            }
            _ => self.declines(),
        }
    }

    // Type 2 `+` or `-`: one step to the next value, where there is a row and it allows it.
    #[tactic(auto, unfolding(crate::specs::Inner::moved, crate::specs::Inner::moves))]
    fn moves(self, next: i32) -> Effect
        ensures { result ≡ moved self.message self.entry self.value next }
    {
        match self.entry {
            Some(row) if row.is_read_write() & within_row(row, next) => {
                accepts(self.message, next, row.decimals)
            }
            _ => self.declines(),
        }
    }

    // Type 3: the range is tested before the cut.
    #[tactic(auto, unfolding(crate::specs::Inner::set_to))]
    fn set_to(self, setup: Setup, x: Numeral) -> Effect
        ensures { result ≡ set_to setup self.message self.entry self.value x }
    {
        match self.entry {
            Some(row)
                if row.is_writable()
                    & (x.decimals == row.decimals)
                    & setup.takes(x)
                    & within_row(row, x.number) => offers(self.message, row, x.number),
            _ => self.declines(),
        }
    }

    // By its type, at the card that it is for.
    #[tactic(auto, unfolding(crate::specs::Inner::serve, crate::specs::Inner::up, crate::specs::Inner::down, crate::specs::Inner::moved))]
    fn serve(self, setup: Setup, offer: Option<Offer>) -> Effect
        ensures { result ≡ serve setup self.message self.entry offer self.value self.message.body }
    {
        let step = causes::row_or_zeros(self.entry).step;
        match self.message.body {
            Body::Status => says(self.message, Mark::Accepted, Content::Empty),
            Body::Query => self.query(),
            Body::Up => self.moves(number::raised(self.value, step)),
            Body::Down => self.moves(number::lowered(self.value, step)),
            Body::Set(x) => self.set_to(setup, x),
            Body::Store => store_offer(self.message, self.entry, offer),
        }
    }
}

// What a message on any other identifier leads to, at a card with this setup and offer. The offer and the values change from one message to
// the next, and the setup and the index don't: a struct of the four would be made anew for each message, from the same four.
#[tactic(auto, using(crate::proofs::Judged::row_is), unfolding(crate::specs::Inner::addressed))]
pub fn on_row<'a>(
    setup: Setup,
    offer: Option<Offer>,
    index: &Index<'a>,
    values: &[i32],
    message: Message,
) -> Effect
    ensures { result ≡ on_row setup offer (entries index.now) (λ i. get_or values.now i (pos 0)) message }
{
    if !setup.is_for(message) {
        return no_effect(offer);
    }
    Request::of(index, values, message).serve(setup, offer)
}
