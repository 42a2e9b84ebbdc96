// The call over many cards on one pair.
ghost use Rattle.refusal.specs.Refusal.{outcome_of};
ghost use Rattle.std.specs.Prelude.{◌≡◌, ◌≤◌, length};
ghost use Rattle.abi.specs.Result.{result_of};
ghost use Rattle.abi.specs.Calls.{many_words, run_result, counts_after, kav_bus_run};

use card::Took;
use refusal::Refusal;
use sheet::Sheets;

// The answer of a run over many cards as 0; when it is served, the words taken and bytes written are counted.
#[tactic(auto, unfolding(crate::specs::Result::result_of, crate::specs::Result::count_result))]
fn counted(answer: Result<Took, Refusal>, counts: &mut [u64]) -> Result<usize, Refusal>
    requires { 2 ≤ length counts.old }
    ensures { (result_of (outcome_of result) ≡ run_result (outcome_of answer)) × (counts.new ≡ counts_after (outcome_of answer) counts.old) }
{
    crate::put_counts(answer?, counts);
    Ok(0)
}

// Many words to many cards on one pair: 0, with the words taken and the bytes written in the counts.
#[tactic(auto, using(crate::proofs::Laws::wide_ok), unfolding(crate::specs::Calls::kav_bus_run))]
#[unsafe(no_mangle)]
pub extern "C" fn kav_bus_run<'a>(
    cards: &mut [i32],
    bench: &'a [i32],
    maker: &'a [i32],
    values: &mut [i32],
    words: &[u16],
    out: &mut [u8],
    counts: &mut [u64],
) -> i64
    ensures { many_words result cards.new values.new out.new counts.new ≡ kav_bus_run cards.old bench.now maker.now values.old words.now out.old counts.old }
{
    let sheets = Sheets { bench, maker };
    if counts.len() < 2 {
        return crate::without_room(bus::check(cards, &sheets, values, words));
    }
    crate::result(counted(bus::run(cards, &sheets, values, words, out), counts))
}
