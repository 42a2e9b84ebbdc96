// The card: what a word does to it, one word at a time, in place, and a run of words.
#![tactic(auto)]

ghost use Rattle.refusal.specs.Refusal.{outcome_of};
ghost use Rattle.std.specs.Prelude.{◌≡◌, [], ◌∷◌};
ghost use Rattle.refusal.specs.Check.{first, decided};
ghost use Rattle.hearing.specs.Hearing.{none, added};
ghost use Rattle.sheet.specs.Values.{entry_in, is_readable_entry};
ghost use Rattle.card.specs.Turn.{with_both, turn};
ghost use Rattle.card.specs.Cause.{why_to};
ghost use Rattle.card.specs.Refusals.{sound_setup, sound_card, sound_offer, sound_scan, card_checks, room_check};
ghost use Rattle.card.specs.Calls.{kept, step_outcome, step_after, answered, step_call, run_after, run_call};

use act::causes::Cause;
use act::{Offer, Setup};
use hearing::{Action, Pending};
use refusal::Refusal;
use reply::SCAN;
use sheet::{Row, Sheets};

pub mod answering;
pub mod tested;

use tested::Tested;

// What a card is set to, the open message, and what is on offer.
#[derive(Clone, Copy)]
pub struct Card {
    pub setup: Setup,
    pub pending: Pending,
    pub offer: Option<Offer>,
}

// What the single word's calls answer: how many bytes were replied, 0 for silence, and why it was `N` or silence.
#[derive(Clone, Copy)]
pub struct Replied {
    pub bytes: usize,
    pub cause: Option<Cause>,
}

// What a single word gives: the card beside the answer. docs/claims.md states `step` so; `receive` is the same in place.
#[derive(Clone, Copy)]
pub struct Stepped {
    pub card: Card,
    pub answer: Result<Replied, Refusal>,
}

// What a run answers: words taken and bytes written.
#[derive(Clone, Copy)]
pub struct Took {
    pub words: usize,
    pub bytes: usize,
}

// What a run gives: the card beside its answer.
#[derive(Clone, Copy)]
pub struct Ran {
    pub card: Card,
    pub answer: Result<Took, Refusal>,
}

impl Card {
    // A message opened by its letter.
    pub fn open(self, c: u8) -> Card
        ensures { result ≡ with_both self (added none c) self.offer }
    {
        Card {
            pending: Pending::new().add(c),
            ..self
        }
    }

    // One character more.
    pub fn add(self, c: u8) -> Card
        ensures { result ≡ with_both self (added self.pending c) self.offer }
    {
        Card {
            pending: self.pending.add(c),
            ..self
        }
    }

    // No message open: it was closed, or dropped.
    pub fn close(self) -> Card
        ensures { result ≡ with_both self none self.offer }
    {
        Card {
            pending: Pending::new(),
            ..self
        }
    }

    pub fn drop_offer(self) -> Card
        ensures { result ≡ with_both self self.pending None }
    {
        Card {
            offer: None,
            ..self
        }
    }

    // The card with what a message has left on offer.
    pub fn hold(self, offer: Option<Offer>) -> Card
        ensures { result ≡ with_both self self.pending offer }
    {
        match offer {
            Some(held) => Card {
                offer: Some(held),
                ..self
            },
            None => self.drop_offer(),
        }
    }
}

// A setup that a card may have.
#[tactic(auto, unfolding(crate::specs::Refusals::sound_setup, crate::specs::Refusals::is_revision))]
fn sound_setup(setup: Setup) -> bool
    ensures { result ≡ sound_setup setup }
{
    message::is_letter(setup.letter)
        & message::is_address(setup.address)
        & matches!(setup.revision, 1 | 2)
}

// The card by itself: its setup and its open message.
#[tactic(auto, unfolding(crate::specs::Refusals::sound_card))]
pub fn sound_card(card: Card) -> bool
    ensures { result ≡ sound_card card }
{
    sound_setup(card.setup) & card.pending.is_sound()
}

// An offer that a Type 3 message can leave under these sheets.
#[tactic(auto, unfolding(crate::specs::Refusals::sound_offer, crate::specs::Refusals::offerable))]
pub fn sound_offer<'a>(sheets: &Sheets<'a>, offer: Option<Offer>) -> bool
    ensures { result ≡ sound_offer sheets.now.bench.now sheets.now.maker.now offer }
{
    let Some(Offer { identifier, value }) = offer else {
        return true;
    };
    sheets
        .find(identifier)
        .is_some_and(|row| row.is_writable() & row.fits_row(value))
}

// Whether the identifier has a row that can be read.
#[tactic(auto, unfolding(sheet::specs::Values::is_readable_entry))]
fn has_readable_row<'a>(sheets: &Sheets<'a>, identifier: u8) -> bool
    ensures { result ≡ is_readable_entry (entry_in sheets.now.bench.now sheets.now.maker.now identifier) }
{
    sheets.find(identifier).is_some_and(Row::is_readable)
}

// The identifiers that a card names for its scan, and `]` without a row.
#[tactic(auto, using(crate::proofs::Scans::uncounted, crate::proofs::Scans::with_row, crate::proofs::Scans::by_names))]
pub fn sound_scan<'a>(sheets: &Sheets<'a>, setup: Setup) -> bool
    ensures { result ≡ sound_scan sheets.now.bench.now sheets.now.maker.now setup }
{
    if sheet::has_row(sheets.bench, SCAN) | sheet::has_row(sheets.maker, SCAN) {
        return false;
    }
    if !matches!(setup.count, 0 | 4 | 5) {
        return false;
    }
    let names = &setup.scan[..setup.count as usize];
    names.iter().all(|name| has_readable_row(sheets, *name))
}

// Numbers 1, 2, 1 (the offer, the scan), 3 and 4, in this order.
#[tactic(auto, using(crate::proofs::Steps::card_unsound, crate::proofs::Steps::sheet_unsound, crate::proofs::Steps::offer_unsound, crate::proofs::Steps::scan_unsound, crate::proofs::Steps::values_unsound, crate::proofs::Steps::word_above, crate::proofs::Steps::all_sound))]
pub fn check<'a>(
    card: Card,
    sheets: &Sheets<'a>,
    values: &[i32],
    words: &[u16],
) -> Result<(), Refusal>
    ensures { outcome_of result ≡ first (card_checks card sheets.now.bench.now sheets.now.maker.now values.now words.now) }
{
    if !sound_card(card) {
        return Err(Refusal::UnsoundCard);
    }
    if !sheets.are_sound() {
        return Err(Refusal::UnsoundSheet);
    }
    if !sound_offer(sheets, card.offer) {
        return Err(Refusal::UnsoundCard);
    }
    if !sound_scan(sheets, card.setup) {
        return Err(Refusal::UnsoundCard);
    }
    if !sheets.sound_values(values) {
        return Err(Refusal::UnsoundValues);
    }
    if !wire::valid_words(words) {
        return Err(Refusal::WordAbove256);
    }
    Ok(())
}

// A word that closed no message: nothing is said, nothing stored.
fn quiet(card: Card) -> Stepped
    ensures { result ≡ record { card = card; answer = Ok (record { bytes = 0; cause = Some Cause.NoMessageClosed }) } }
{
    let replied = Replied {
        bytes: 0,
        cause: Some(Cause::NoMessageClosed),
    };
    Stepped {
        card,
        answer: Ok(replied),
    }
}

fn refused(card: Card, refusal: Refusal) -> Stepped
    ensures { result ≡ record { card = card; answer = Err refusal } }
{
    Stepped {
        card,
        answer: Err(refusal),
    }
}

// The single word of a call that passed: number 5, or what the word does.
#[tactic(auto, using(crate::proofs::Steps::short_taken))]
fn take<'a>(
    card: Card,
    tested: &Tested<'a>,
    values: &mut [i32],
    word: u16,
    out: &mut [u8],
) -> Stepped
    ensures { step_after result values.new out.new ≡ decided (first (room_check out.old ∷ [])) (kept card values.old out.old) (answered (turn tested.now.sheets.bench.now tested.now.sheets.maker.now card values.old word) (why_to tested.now.sheets.bench.now tested.now.sheets.maker.now card values.old word) values.old out.old) }
{
    if out.len() < reply::LONGEST_REPLY {
        return refused(card, Refusal::RoomTooShort);
    }
    let pending = card.pending;
    match pending.action(word) {
        Action::Ignore => quiet(card),
        Action::Open(c) => quiet(card.open(c)),
        Action::Add(c) => quiet(card.add(c)),
        Action::Close => {
            let message = pending.close();
            answering::answer(card.close(), tested, values, &pending, message, out)
        }
        Action::Drop => quiet(card.close()),
    }
}

// One word: its reply, of at most LONGEST_REPLY bytes, stands at the front of the buffer afterwards.
#[tactic(auto, using(crate::proofs::Steps::step_refused, crate::proofs::Steps::step_passed))]
pub fn step<'a>(
    card: Card,
    sheets: &Sheets<'a>,
    values: &mut [i32],
    word: u16,
    out: &mut [u8],
) -> Stepped
    ensures { step_after result values.new out.new ≡ step_call card sheets.now.bench.now sheets.now.maker.now values.old word out.old }
{
    match check(card, sheets, values, &[word]) {
        Err(refusal) => refused(card, refusal),
        Ok(()) => take(card, &Tested { sheets: *sheets }, values, word, out),
    }
}

// One word to a card in its own place: the card is loaded, `step` is called, and the card that it gives is stored back.
pub fn receive<'a>(
    card: &mut Card,
    sheets: &Sheets<'a>,
    values: &mut [i32],
    word: u16,
    out: &mut [u8],
) -> Result<Replied, Refusal>
    ensures { record { card = card.new; outcome = step_outcome result; values = values.new; buffer = out.new } ≡ step_call card.old sheets.now.bench.now sheets.now.maker.now values.old word out.old }
{
    let Stepped {
        card: after,
        answer,
    } = step(*card, sheets, values, word, out);
    *card = after;
    answer
}

// Words one after the other, until all are taken or the next reply no longer fits.
#[tactic(auto, using(crate::proofs::Steps::run_refused, crate::proofs::Steps::run_served))]
pub fn run<'a>(
    card: Card,
    sheets: &Sheets<'a>,
    values: &mut [i32],
    words: &[u16],
    out: &mut [u8],
) -> Ran
    ensures { run_after result values.new out.new ≡ run_call card sheets.now.bench.now sheets.now.maker.now values.old words.now out.old }
{
    match check(card, sheets, values, words) {
        Err(refusal) => Ran {
            card,
            answer: Err(refusal),
        },
        Ok(()) => answering::take_all(card, &Tested { sheets: *sheets }, values, words, out),
    }
}
