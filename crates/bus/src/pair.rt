// The cards that share a pair: whether they can, and the words of a run over them. They hear as one, and the card that is meant is found
// by its letter and address.
ghost use Rattle.std.specs.Prelude.{◌≡◌, true, not, map, ◌*◌, ◌≤◌, ◌<◌, length, take};
ghost use Rattle.refusal.specs.Lists.{every};
ghost use Rattle.refusal.specs.Refusal.{gave};
ghost use Rattle.refusal.specs.Check.{first};
ghost use Rattle.card.specs.Refusals.{sound_setup};
ghost use Rattle.bus.specs.Refusals.{alike, apart, same_open, sound_bus};
ghost use Rattle.bus.specs.Rows.{cards_of, rows_checks, stored_back};
ghost use Rattle.bus.specs.Inner.{setup_in, offer_in, pending_in, slot_of, Finds, meant_by, cards_with, served_rows};

use crate::rows_in;
use act::{Offer, Setup};
use card::{Card, Took, answering};
use hearing::Pending;
use message::Message;
use sheet::{Index, Sheets};

// The most cards on one pair.
const MOST_CARDS: usize = 32;

// A place for each letter and address.
const SLOTS: usize = 256;

// What stands behind the last card's.
const NO_SETUP: Setup = Setup {
    letter: 0,
    address: 0,
    count: 0,
    scan: [0; act::MOST_NAMED],
    revision: 0,
};

// ---- the cards

// The setups of the cards, and what they have on offer. They stand in two arrays: in one array of whole cards a run takes longer.
fn held_in(rows: &[[i32; row::LENGTH]]) -> ([Setup; MOST_CARDS], [Option<Offer>; MOST_CARDS])
    requires { length rows.now ≤ 32 }
    ensures setups { take (length rows.now) result.0 ≡ map setup_in rows.now }
    ensures offers { take (length rows.now) result.1 ≡ map offer_in rows.now }
{
    let mut setups = [NO_SETUP; MOST_CARDS];
    let mut offers = [None; MOST_CARDS];
    for (i, row) in rows.iter().enumerate() {
        let Card { setup, offer, .. } = row::card_of(row);
        setups[i] = setup;
        offers[i] = offer;
    }
    (setups, offers)
}

// The open message of a card.
fn open_in(row: &[i32]) -> Pending
    ensures { result ≡ pending_in row.now }
{
    row::card_of(row).pending
}

// ---- number 8

// The same letter and address.
#[tactic(auto, unfolding(crate::specs::Refusals::alike))]
fn is_alike(setup: &Setup, other: &Setup) -> bool
    ensures { result ≡ alike setup.now other.now }
{
    setup.letter == other.letter && setup.address == other.address
}

// Whether each of these cards has another letter or address.
fn differs(setup: &Setup, others: &[Setup]) -> bool
    ensures { result ≡ every (λ t. not (alike setup.now t)) others.now }
{
    others.iter().all(|other| !is_alike(setup, other))
}

// No two of the cards share letter and address.
fn are_apart(setups: &[Setup]) -> bool
    ensures { result ≡ apart setups.now }
{
    let mut left = setups;
    while let Some((setup, others)) = left.split_first() {
        if !differs(setup, others) {
            return false;
        }
        left = others;
    }
    true
}

// The same open message.
fn same_open(p: Pending, q: Pending) -> bool
    ensures { result ≡ same_open p q }
{
    p == q
}

// All hold this open message.
fn all_hold(rows: &[[i32; row::LENGTH]], pending: Pending) -> bool
    ensures { result ≡ every (λ row. same_open pending (pending_in row)) rows.now }
{
    rows.iter().all(|row| same_open(pending, open_in(row)))
}

// Whether these cards can share a pair.
pub(crate) fn sound_bus(numbers: &[i32]) -> bool
    ensures { result ≡ sound_bus (cards_of numbers.now) }
{
    let rows = rows_in(numbers);
    let count = rows.len();
    if count == 0 {
        return true;
    }
    if MOST_CARDS < count {
        return false;
    }
    let (setups, _) = held_in(rows);
    are_apart(&setups[..count]) && all_hold(rows, open_in(&rows[0]))
}

// ---- the card that is meant

// The place of a letter and an address in the table.
#[tactic(auto, unfolding(crate::specs::Inner::slot_of))]
fn slot(letter: u8, address: u8) -> usize
    ensures { (result ≡ slot_of letter address) × (result < 256) }
{
    let low = usize::from(address % 128);
    if letter == b'R' { 128 + low } else { low }
}

// The cards by their letters and addresses.
fn table_of(setups: &[Setup]) -> [usize; SLOTS]
    requires { (1 ≤ length setups.now) × (every sound_setup setups.now ≡ true) × (apart setups.now ≡ true) }
    ensures { Finds setups.now result }
{
    let mut table = [0; SLOTS];
    for (i, setup) in setups.iter().enumerate() {
        table[slot(setup.letter, setup.address)] = i;
    }
    table
}

// The card that is meant by what was closed. What isn't heard and what is for nobody are given to the first card, which takes no notice of
// them.
#[tactic(auto, unfolding(crate::specs::Inner::meant_by))]
fn meant_by(table: &[usize; SLOTS], message: Option<Message>) -> usize
    ensures { result ≡ meant_by table.now message }
{
    match message {
        Some(message) => table[slot(message.letter, message.address)],
        None => 0,
    }
}

// ---- the words

// Each of the cards stored back in its row, all with this open message.
fn store_all(setups: &[Setup], offers: &[Option<Offer>], pending: Pending, numbers: &mut [i32])
    requires { (length setups.now ≡ length offers.now) × (length setups.now * 23 ≤ length numbers.old) }
    ensures { numbers.new ≡ stored_back (cards_with pending setups.now offers.now) numbers.old }
{
    for (i, setup) in setups.iter().enumerate() {
        let held = Card {
            setup: *setup,
            pending,
            offer: offers[i],
        };
        let start = i * row::LENGTH;
        row::store(held, &mut numbers[start..start + row::LENGTH]);
    }
}

// The words of a run that passed. They are heard once for all the cards, up to one that closes a message; that one is for the card that is
// meant, and no other would take notice of it.
pub(crate) fn take_all<'a>(
    numbers: &mut [i32],
    sheets: &Sheets<'a>,
    values: &mut [i32],
    words: &[u16],
    out: &mut [u8],
) -> Took
    requires { first (rows_checks numbers.old sheets.now.bench.now sheets.now.maker.now values.old words.now) ≡ gave tt }
    ensures { record { numbers = numbers.new; outcome = gave result; values = values.new; buffer = out.new } ≡ served_rows numbers.old sheets.now.bench.now sheets.now.maker.now values.old words.now out.old }
{
    let rows = rows_in(numbers);
    let count = rows.len();
    if count == 0 {
        return Took {
            words: words.len(),
            bytes: 0,
        };
    }
    let mut pending = open_in(&rows[0]);
    let (setups, mut offers) = held_in(rows);
    let table = table_of(&setups[..count]);
    let places = sheets.places();
    let index = Index {
        sheets: *sheets,
        places: &places,
    };
    let mut taken = pending.to_close(words, 0);
    let mut at = 0;
    // No `for`, and the choice at each caller, as in `card::answering::take_all`.
    while taken < words.len() {
        let message = pending.close();
        let k = meant_by(&table, message);
        let start = k * sheet::CODES;
        let own = &mut values[start..start + sheet::CODES];
        let effect = if answering::is_scan(message) {
            answering::scan_effect(setups[k], offers[k], &index, own, message)
        } else {
            answering::effect_of(setups[k], offers[k], &index, own, message)
        };
        let Ok(n) = answering::settle(effect, own, out, at) else {
            store_all(&setups[..count], &offers[..count], pending, numbers);
            return Took {
                words: taken,
                bytes: at,
            };
        };
        offers[k] = effect.offer;
        pending = Pending::new();
        taken = pending.to_close(words, taken + 1);
        at += n;
    }
    store_all(&setups[..count], &offers[..count], pending, numbers);
    Took {
        words: taken,
        bytes: at,
    }
}
