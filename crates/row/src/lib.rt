// A card as a row of twenty-three numbers, for hosts and for what holds many cards: letter, address, count of open characters, ten
// characters (0 behind), 1 or 0 for an offer, its identifier, its value (0, 0 where there is none), count of the scan's identifiers,
// five identifiers, revision.
#![tactic(auto)]

ghost use Rattle.std.specs.Prelude.{◌≡◌, ◌+◌, ◌≤◌, pos, length, drop};
ghost use Rattle.refusal.specs.Buffer.{placed};
ghost use Rattle.sheet.specs.Sheet.{at as number_at};
ghost use Rattle.std.specs.List.{list_all};
ghost use Rattle.hearing.specs.Hearing.{open_of};
ghost use Rattle.row.specs.Row.{is_byte, byte_or, byte_of, is_row, bytes_in, setup_of, pending_of, offer_of, card_of, pending_row, offer_row, stored_in};

use act::{Offer, Setup};
use card::Card;
use hearing::Pending;

// The numbers of a row.
pub const LENGTH: usize = 23;

// The place of an offer's mark. Those before it are bytes: letter, address and the open message.
const MARK: usize = 13;

// Words change the numbers from 2 up to this.
const CHANGING_END: usize = 16;

// ---- from numbers to a card

// A number that a byte can be.
fn is_byte(x: i32) -> bool
    ensures { result ≡ is_byte x }
{
    u8::try_from(x).is_ok()
}

// The number as a byte; `none` where it is no byte.
fn byte_or(none: u8, x: i32) -> u8
    ensures { result ≡ byte_or none x }
{
    u8::try_from(x).unwrap_or(none)
}

fn all_bytes(numbers: &[i32]) -> bool
    ensures { result ≡ list_all is_byte numbers.now }
{
    numbers.iter().all(|number| is_byte(*number))
}

// Whether the numbers are some card, sound or not.
#[tactic(auto, using(refusal::proofs::Lists::every_all), unfolding(crate::specs::Row::is_row))]
pub fn is_row(row: &[i32]) -> bool
    ensures { result ≡ is_row row.now }
{
    row.len() == LENGTH && all_bytes(&row[..MARK])
}

fn number_at(row: &[i32], k: usize) -> i32
    ensures { result ≡ number_at row.now k }
{
    row.get(k).copied().unwrap_or(0)
}

fn byte_at(row: &[i32], k: usize) -> u8
    ensures { result ≡ byte_of (number_at row.now k) }
{
    byte_or(0, number_at(row, k))
}

// The bytes that so many numbers of a row are, from a place on.
fn bytes_from<const N: usize>(row: &[i32], start: usize) -> [u8; N]
    requires { start + N ≤ LENGTH }
    ensures { result ≡ bytes_in N (drop start row.now) }
{
    std::array::from_fn(|k| byte_at(row, start + k))
}

#[tactic(auto, unfolding(crate::specs::Row::setup_of))]
fn setup_of(row: &[i32]) -> Setup
    ensures { result ≡ setup_of row.now }
{
    Setup {
        letter: byte_at(row, 0),
        address: byte_at(row, 1),
        count: byte_or(255, number_at(row, 16)),
        scan: bytes_from(row, 17),
        revision: byte_at(row, 22),
    }
}

#[tactic(auto, unfolding(crate::specs::Row::pending_of))]
fn pending_of(row: &[i32]) -> Pending
    ensures { result ≡ pending_of row.now }
{
    Pending {
        chars: bytes_from(row, 3),
        len: usize::from(byte_at(row, 2)),
    }
}

// 0, 0, 0 is no offer. Any other numbers that are no offer stand for an offer for identifier 0. A mark beside the values, since C lends a row
// of numbers.
fn offer_of(mark: i32, identifier: i32, value: i32) -> Option<Offer>
    ensures { result ≡ offer_of mark identifier value }
{
    if mark == 0 && identifier == 0 && value == 0 {
        return None;
    }
    match u8::try_from(identifier) {
        Ok(identifier) if mark == 1 => Some(Offer { identifier, value }),
        _ => Some(Offer {
            identifier: 0,
            value: 0,
        }),
    }
}

// The card that the numbers are.
#[tactic(auto, unfolding(crate::specs::Row::card_of))]
#[inline(always)]
pub fn card_of(row: &[i32]) -> Card
    ensures { result ≡ card_of row.now }
{
    Card {
        setup: setup_of(row),
        pending: pending_of(row),
        offer: offer_of(number_at(row, 13), number_at(row, 14), number_at(row, 15)),
    }
}

// ---- from a card to numbers

// A byte, widened: `i32::from`, which `.map` takes by this name too.
pub fn wide(x: u8) -> i32
    ensures { result ≡ pos x }
{
    i32::from(x)
}

// The count of open characters.
#[tactic(auto, unfolding(hearing::specs::Hearing::open_of))]
fn open_count(pending: Pending) -> i32
    ensures { result ≡ pos (length (open_of pending)) }
{
    pending.len.min(hearing::MOST) as i32
}

fn put_pending(pending: Pending, row: &mut [i32])
    requires { 13 ≤ length row.old }
    ensures { row.new ≡ placed (pending_row pending) 2 row.old }
{
    row[2] = open_count(pending);
    row[3..MARK].copy_from_slice(&pending.chars.map(wide));
}

// The mark, the identifier and the value of an offer, or of none.
#[tactic(auto, unfolding(crate::specs::Row::offer_row))]
fn offer_row(offer: Option<Offer>) -> [i32; 3]
    ensures { result ≡ offer_row offer }
{
    match offer {
        None => [0, 0, 0],
        Some(Offer { identifier, value }) => [1, wide(identifier), value],
    }
}

// Numbers 2 to 15 of the row anew, which are what words change; a row too short for them is left.
pub fn store(card: Card, row: &mut [i32])
    ensures { row.new ≡ stored_in card row.old }
{
    if row.len() < CHANGING_END {
        return;
    }
    put_pending(card.pending, row);
    row[MARK..CHANGING_END].copy_from_slice(&offer_row(card.offer));
}
