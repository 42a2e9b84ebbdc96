// The run that notes every message that it closes.
ghost use Rattle.std.specs.Prelude.{◌≡◌, List, ℕ, ◌≤◌, ℤ, length};
ghost use Rattle.refusal.specs.Refusal.{outcome_of};
ghost use Rattle.trace.specs.Calls.{trace_after};
ghost use Rattle.abi.specs.Result.{result_of};
ghost use Rattle.abi.specs.Trace.{noted_words, trace_on, kav_trace};

use refusal::Refusal;
use sheet::Sheets;
use trace::Traced;

// A trace's answer: that of its run; when it is served, the messages noted are counted too.
#[tactic(auto, unfolding(crate::specs::Result::result_of, crate::specs::Result::count_result))]
fn traced(trace: Traced, row: &mut [i32], counts: &mut [u64]) -> Result<usize, Refusal>
    requires { 3 ≤ length counts.old }
    ensures { (values : List ℤ) (out notes : List ℕ) → noted_words (result_of (outcome_of result)) row.new values out counts.new notes ≡ trace_on row.old counts.old (trace_after trace values out notes) }
{
    let run = trace.ran;
    run.answer?;
    counts[2] = trace.messages as u64;
    crate::ran(run, row, counts)
}

// Many words: 0, with the words taken, the bytes written and the messages noted in the counts, and five numbers for each of these.
#[tactic(auto, using(crate::proofs::Laws::wide_ok), unfolding(crate::specs::Trace::kav_trace))]
#[unsafe(no_mangle)]
pub extern "C" fn kav_trace<'a>(
    card: &mut [i32],
    bench: &'a [i32],
    maker: &'a [i32],
    values: &mut [i32],
    words: &[u16],
    out: &mut [u8],
    notes: &mut [u64],
    counts: &mut [u64],
) -> i64
    ensures { noted_words result card.new values.new out.new counts.new notes.new ≡ kav_trace card.old bench.now maker.now values.old words.now out.old notes.old counts.old }
{
    if !row::is_row(card) {
        return crate::minus_number(Refusal::UnsoundCard);
    }
    let held = row::card_of(card);
    let sheets = Sheets { bench, maker };
    if counts.len() < 3 {
        return crate::without_room(trace::check(held, &sheets, values, words, notes));
    }
    crate::result(traced(
        trace::trace(held, &sheets, values, words, out, notes),
        card,
        counts,
    ))
}
