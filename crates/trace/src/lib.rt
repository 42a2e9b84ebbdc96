// A run that notes, of every message that it closes, where and how it was answered, and why.
#![tactic(auto)]

ghost use Rattle.refusal.specs.Refusal.{outcome_of};
ghost use Rattle.std.specs.Prelude.{◌≡◌, ◌+◌, ◌*◌, ◌≤◌, length};
ghost use Rattle.refusal.specs.Buffer.{placed};
ghost use Rattle.refusal.specs.Check.{first};
ghost use Rattle.act.specs.Cause.{why_of};
ghost use Rattle.card.specs.Turn.{play};
ghost use Rattle.card.specs.Calls.{ended};
ghost use Rattle.trace.specs.Notes.{five_of};
ghost use Rattle.trace.specs.Calls.{trace_checks, trace_after, noted, notes_in, trace_call};

use act::causes::Cause;
use card::tested::Tested;
use card::{Card, Ran, answering};
use hearing::Pending;
use refusal::Refusal;
use sheet::{Index, Sheets};

// How many numbers a note has.
pub const NOTE: usize = 5;

// What a trace gives: what a run gives, beside how many messages were noted, 0 where it is refused.
#[derive(Clone, Copy)]
pub struct Traced {
    pub ran: Ran,
    pub messages: usize,
}

// The numbers of a run in their order, then 5 where the notes have fewer than five numbers for each word.
#[tactic(auto, using(crate::proofs::Calls::trace_refused, crate::proofs::Calls::notes_short, crate::proofs::Calls::notes_enough))]
pub fn check<'a>(
    card: Card,
    sheets: &Sheets<'a>,
    values: &[i32],
    words: &[u16],
    notes: &[u64],
) -> Result<(), Refusal>
    ensures { outcome_of result ≡ first (trace_checks card sheets.now.bench.now sheets.now.maker.now values.now words.now notes.now) }
{
    card::check(card, sheets, values, words)?;
    if notes.len() / NOTE < words.len() {
        return Err(Refusal::RoomTooShort);
    }
    Ok(())
}

// The numbers of a note, from a place on.
#[tactic(auto, using(refusal::proofs::Buffers::copied_placed))]
fn put(
    notes: &mut [u64],
    from: usize,
    at: usize,
    characters: usize,
    bytes: usize,
    cause: Option<Cause>,
)
    requires { from + 5 ≤ length notes.old }
    ensures { notes.new ≡ placed (five_of (record { at = at; characters = characters; bytes = bytes; cause = why_of cause })) from notes.old }
{
    let note = [
        at as u64,
        characters as u64,
        bytes as u64,
        u64::from(act::causes::cause_code(cause)),
        u64::from(act::causes::cause_position(cause)),
    ];
    notes[from..from + NOTE].copy_from_slice(&note);
}

// The words of a trace that passed, as `card::run` takes them. A message is noted once its reply is written. A loop of its own, so that a run
// pays nothing for notes.
fn take_all<'a>(
    card: Card,
    tested: &Tested<'a>,
    values: &mut [i32],
    words: &[u16],
    out: &mut [u8],
    notes: &mut [u64],
) -> Traced
    requires { length words.now * 5 ≤ length notes.old }
    ensures { trace_after result values.new out.new notes.new ≡ noted (ended (play tested.now.sheets.bench.now tested.now.sheets.maker.now card values.old (length out.old) words.now) out.old) (notes_in tested.now.sheets.bench.now tested.now.sheets.maker.now card values.old (length out.old) words.now) notes.old }
{
    let Card {
        setup,
        mut pending,
        mut offer,
    } = card;
    let mut taken = pending.to_close(words, 0);
    let places = tested.sheets.places();
    let index = Index {
        sheets: tested.sheets,
        places: &places,
    };
    let mut at = 0;
    let mut messages = 0;
    // No `for`, and the choice at each caller, as in `card::answering::take_all`.
    while taken < words.len() {
        let message = pending.close();
        let cause = answering::cause_by(setup, offer, &index, values, &pending, message);
        let effect = if answering::is_scan(message) {
            answering::scan_effect(setup, offer, &index, values, message)
        } else {
            answering::effect_of(setup, offer, &index, values, message)
        };
        let Ok(n) = answering::settle(effect, values, out, at) else {
            let ran = answering::so_far(setup, offer, pending, taken, at);
            return Traced { ran, messages };
        };
        put(notes, messages * NOTE, taken, pending.len, n, cause);
        offer = effect.offer;
        pending = Pending::new();
        taken = pending.to_close(words, taken + 1);
        at += n;
        messages += 1;
    }
    let ran = answering::so_far(setup, offer, pending, taken, at);
    Traced { ran, messages }
}

// Words one after the other, until all are taken or the next reply no longer fits; and of each that closes a message a note.
#[tactic(auto, using(crate::proofs::Calls::call_refused, crate::proofs::Calls::call_served))]
pub fn trace<'a>(
    card: Card,
    sheets: &Sheets<'a>,
    values: &mut [i32],
    words: &[u16],
    out: &mut [u8],
    notes: &mut [u64],
) -> Traced
    ensures { trace_after result values.new out.new notes.new ≡ trace_call card sheets.now.bench.now sheets.now.maker.now values.old words.now out.old notes.old }
{
    match check(card, sheets, values, words, notes) {
        Err(refusal) => {
            let ran = Ran {
                card,
                answer: Err(refusal),
            };
            Traced { ran, messages: 0 }
        }
        Ok(()) => {
            let tested = Tested { sheets: *sheets };
            take_all(card, &tested, values, words, out, notes)
        }
    }
}
