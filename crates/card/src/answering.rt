// What a closed message leads to, decided, then said, then done; and the words of a run.
ghost use Rattle.std.specs.Prelude.{◌≡◌, pos, length, get_or, ◌≤◌};
ghost use Rattle.refusal.specs.Refusal.{outcome_of};
ghost use Rattle.refusal.specs.Call.{call_of, place_call};
ghost use Rattle.reply.specs.Reply.{longest_reply};
ghost use Rattle.hearing.specs.Hearing.{open_of};
ghost use Rattle.sheet.specs.Inner.{entries};
ghost use Rattle.act.specs.Cause.{why_of};
ghost use Rattle.act.specs.Act.{causes_with};
ghost use Rattle.act.specs.Inner.{on_scan, on_row};
ghost use Rattle.card.specs.Turn.{reply_of, effect_of, turned, stored, play};
ghost use Rattle.card.specs.Cause.{why_closed};
ghost use Rattle.card.specs.Inner.{settles, is_scan, effect_by, why_by};
ghost use Rattle.card.specs.Calls.{step_after, answered, run_after, ended};

use crate::tested::Tested;
use crate::{Card, Ran, Replied, Stepped, Took};
use act::causes::Cause;
use act::{Effect, Offer, Setup, Store};
use hearing::Pending;
use message::Message;
use refusal::Refusal;
use reply::{Answer, SCAN};
use sheet::Index;

// What is said into the buffer from a place on; silence is nothing.
#[tactic(auto, using(crate::proofs::Settled::silence_short, crate::proofs::Settled::silence_placed))]
fn say(said: Option<Answer>, out: &mut [u8], at: usize) -> Result<usize, Refusal>
    ensures { call_of result out.new ≡ place_call (reply_of said) at out.old }
{
    match said {
        Some(answer) => reply::place(answer, out, at),
        None if out.len() < at => Err(Refusal::RoomTooShort),
        None => Ok(0),
    }
}

// A message on `]`.
#[tactic(auto, unfolding(crate::specs::Inner::is_scan))]
pub fn is_scan(message: Option<Message>) -> bool
    ensures { result ≡ is_scan message }
{
    message.is_some_and(|message| message.identifier == SCAN)
}

// What a closed message on `]` leads to, at a card with this setup and offer. Each caller chooses between this and `effect_of`: one function
// for the choice was tried, and costs a run 6 %.
#[tactic(auto, unfolding(crate::specs::Inner::effect_by))]
pub fn scan_effect<'a>(
    setup: Setup,
    offer: Option<Offer>,
    index: &Index<'a>,
    values: &[i32],
    message: Option<Message>,
) -> Effect
    ensures { result ≡ effect_by (on_scan setup offer (entries index.now) (λ i. get_or values.now i (pos 0))) offer message }
{
    let Some(message) = message else {
        return act::no_effect(offer);
    };
    act::scan::on_scan(setup, offer, index, values, message)
}

// What any other leads to.
#[tactic(auto, unfolding(crate::specs::Inner::effect_by))]
pub fn effect_of<'a>(
    setup: Setup,
    offer: Option<Offer>,
    index: &Index<'a>,
    values: &[i32],
    message: Option<Message>,
) -> Effect
    ensures { result ≡ effect_by (on_row setup offer (entries index.now) (λ i. get_or values.now i (pos 0))) offer message }
{
    let Some(message) = message else {
        return act::no_effect(offer);
    };
    act::on_row(setup, offer, index, values, message)
}

// Why a closed message isn't accepted, at a card with this setup and offer; `pending` holds its characters.
#[tactic(auto, unfolding(crate::specs::Inner::why_by))]
pub fn cause_by<'a>(
    setup: Setup,
    offer: Option<Offer>,
    index: &Index<'a>,
    values: &[i32],
    pending: &Pending,
    message: Option<Message>,
) -> Option<Cause>
    ensures { why_of result ≡ why_by (causes_with setup offer (entries index.now) (λ i. get_or values.now i (pos 0))) (open_of pending.now) message }
{
    let Some(message) = message else {
        return Some(Cause::NotWellFormed(pending.position()));
    };
    if message.identifier == SCAN {
        return act::causes::scan_cause(setup, message);
    }
    act::causes::row_cause(setup, offer, index, values, message)
}

// The one write to the values. By index: `get_mut` of a slice promises only the length.
#[tactic(auto, unfolding(crate::specs::Turn::stored))]
fn keep(values: &mut [i32], store: Option<Store>)
    ensures { values.new ≡ stored values.old store }
{
    let Some(Store { place, value }) = store else {
        return;
    };
    let at = usize::from(place);
    if at < values.len() {
        values[at] = value;
    }
}

// An effect: said from a place on and, where that fits, stored.
#[tactic(auto, unfolding(crate::specs::Inner::settles, refusal::specs::Call::place_call))]
pub fn settle(
    effect: Effect,
    values: &mut [i32],
    out: &mut [u8],
    at: usize,
) -> Result<usize, Refusal>
    ensures { record { outcome = outcome_of result; values = values.new; buffer = out.new } ≡ settles effect values.old at out.old }
{
    let n = say(effect.said, out, at)?;
    keep(values, effect.store);
    Ok(n)
}

// A card whose message was closed, what that message leads to, and why; `pending` holds its characters. There is room for any reply.
pub(crate) fn answer<'a>(
    card: Card,
    tested: &Tested<'a>,
    values: &mut [i32],
    pending: &Pending,
    message: Option<Message>,
    out: &mut [u8],
) -> Stepped
    requires { longest_reply ≤ length out.old }
    ensures { step_after result values.new out.new ≡ answered (turned card card.pending (effect_of tested.now.sheets.bench.now tested.now.sheets.maker.now card.setup card.offer values.old message)) (why_closed tested.now.sheets.bench.now tested.now.sheets.maker.now card.setup card.offer values.old (open_of pending.now) message) values.old out.old }
{
    let Card { setup, offer, .. } = card;
    let places = tested.sheets.places();
    let index = Index {
        sheets: tested.sheets,
        places: &places,
    };
    let cause = cause_by(setup, offer, &index, values, pending, message);
    let effect = if is_scan(message) {
        scan_effect(setup, offer, &index, values, message)
    } else {
        effect_of(setup, offer, &index, values, message)
    };
    let settled = settle(effect, values, out, 0);
    Stepped {
        card: card.hold(effect.offer),
        answer: settled.map(|bytes| Replied { bytes, cause }),
    }
}

// Where a run has come: the card, so many words taken, and so many bytes written.
pub fn so_far(
    setup: Setup,
    offer: Option<Offer>,
    pending: Pending,
    words: usize,
    bytes: usize,
) -> Ran
    ensures { result ≡ record { card = record { setup = setup; pending = pending; offer = offer }; answer = Ok (record { words = words; bytes = bytes }) } }
{
    Ran {
        card: Card {
            setup,
            pending,
            offer,
        },
        answer: Ok(Took { words, bytes }),
    }
}

// The words of a run that passed. They are taken up to one that closes a message, and that one is answered. The sheets are indexed
// once, where there is such a word.
pub(crate) fn take_all<'a>(
    card: Card,
    tested: &Tested<'a>,
    values: &mut [i32],
    words: &[u16],
    out: &mut [u8],
) -> Ran
    ensures { run_after result values.new out.new ≡ ended (play tested.now.sheets.bench.now tested.now.sheets.maker.now card values.old (length out.old) words.now) out.old }
{
    let Card {
        setup,
        mut pending,
        mut offer,
    } = card;
    let mut taken = pending.to_close(words, 0);
    if words.len() <= taken {
        return so_far(setup, offer, pending, taken, 0);
    }
    let places = tested.sheets.places();
    let index = Index {
        sheets: tested.sheets,
        places: &places,
    };
    let mut at = 0;
    // No `for`: `to_close` goes on from one closing word to the next.
    while taken < words.len() {
        let message = pending.close();
        let effect = if is_scan(message) {
            scan_effect(setup, offer, &index, values, message)
        } else {
            effect_of(setup, offer, &index, values, message)
        };
        let Ok(n) = settle(effect, values, out, at) else {
            return so_far(setup, offer, pending, taken, at);
        };
        offer = effect.offer;
        pending = Pending::new();
        taken = pending.to_close(words, taken + 1);
        at += n;
    }
    so_far(setup, offer, pending, taken, at)
}
