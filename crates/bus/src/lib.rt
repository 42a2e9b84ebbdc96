// Many cards on one pair: a run that gives every word to every card. The cards are lent as rows of numbers, one behind the other, with 128
// values for each.
#![tactic(auto)]

ghost use Rattle.refusal.specs.Refusal.{outcome_of};
ghost use Rattle.std.specs.Prelude.{◌≡◌, ◌&&◌, ◌%◌, eqb, length};
ghost use Rattle.refusal.specs.Lists.{every};
ghost use Rattle.refusal.specs.Check.{first};
ghost use Rattle.bus.specs.Refusals.{sound_parts};
ghost use Rattle.bus.specs.Rows.{rows_in, rows_checks, rows_call};
ghost use Rattle.bus.specs.Inner.{sound_card_row, card_row_fits};

use card::{Card, Took};
use refusal::Refusal;
use sheet::Sheets;

mod pair;

// A row that is some card, sound by itself.
#[tactic(auto, unfolding(crate::specs::Inner::sound_card_row))]
fn is_sound(row: &[i32]) -> bool
    ensures { result ≡ sound_card_row row.now }
{
    row::is_row(row) && card::sound_card(row::card_of(row))
}

// Whole rows and nothing more, each sound by itself.
fn sound_rows(numbers: &[i32]) -> bool
    ensures { result ≡ eqb (length numbers.now % 23) 0 && every sound_card_row (rows_in numbers.now) }
{
    let (rows, rest) = numbers.as_chunks::<{ row::LENGTH }>();
    if !rest.is_empty() {
        return false;
    }
    rows.iter().all(|row| is_sound(row))
}

// The whole rows among the numbers.
fn rows_in(numbers: &[i32]) -> &[[i32; row::LENGTH]]
    ensures { result.now ≡ rows_in numbers.now }
{
    numbers.as_chunks().0
}

// Whether the row's offer and scan are sound under these sheets.
#[tactic(auto, unfolding(crate::specs::Inner::card_row_fits, crate::specs::Refusals::fits_sheets))]
fn fits_sheets<'a>(row: &[i32], sheets: &Sheets<'a>) -> bool
    ensures { result ≡ card_row_fits sheets.now.bench.now sheets.now.maker.now row.now }
{
    let Card { setup, offer, .. } = row::card_of(row);
    card::sound_offer(sheets, offer) & card::sound_scan(sheets, setup)
}

// Each of the rows.
fn all_fit<'a>(numbers: &[i32], sheets: &Sheets<'a>) -> bool
    ensures { result ≡ every (card_row_fits sheets.now.bench.now sheets.now.maker.now) (rows_in numbers.now) }
{
    rows_in(numbers).iter().all(|row| fits_sheets(row, sheets))
}

// 128 values for each of so many cards, all sound.
fn sound_parts<'a>(sheets: &Sheets<'a>, count: usize, values: &[i32]) -> bool
    ensures { result ≡ sound_parts sheets.now.bench.now sheets.now.maker.now count values.now }
{
    let (parts, rest) = values.as_chunks::<{ sheet::CODES }>();
    if !rest.is_empty() || parts.len() != count {
        return false;
    }
    parts.iter().all(|part| sheets.sound_values(part))
}

// Numbers 1, 8, 2, 1 (offers, scans), 3 and 4, in this order.
#[tactic(auto, using(crate::proofs::Checks::rows_fail, crate::proofs::Checks::bus_fails, crate::proofs::Checks::sheets_fail, crate::proofs::Checks::card_fails, crate::proofs::Checks::values_fail, crate::proofs::Checks::word_fails, crate::proofs::Checks::none_fails))]
pub fn check<'a>(
    numbers: &[i32],
    sheets: &Sheets<'a>,
    values: &[i32],
    words: &[u16],
) -> Result<(), Refusal>
    ensures { outcome_of result ≡ first (rows_checks numbers.now sheets.now.bench.now sheets.now.maker.now values.now words.now) }
{
    if !sound_rows(numbers) {
        return Err(Refusal::UnsoundCard);
    }
    if !pair::sound_bus(numbers) {
        return Err(Refusal::UnsoundBus);
    }
    if !sheets.are_sound() {
        return Err(Refusal::UnsoundSheet);
    }
    if !all_fit(numbers, sheets) {
        return Err(Refusal::UnsoundCard);
    }
    if !sound_parts(sheets, rows_in(numbers).len(), values) {
        return Err(Refusal::UnsoundValues);
    }
    if !wire::valid_words(words) {
        return Err(Refusal::WordAbove256);
    }
    Ok(())
}

// Words one after the other to all the cards, until all are taken or the next reply no longer fits.
pub fn run<'a>(
    numbers: &mut [i32],
    sheets: &Sheets<'a>,
    values: &mut [i32],
    words: &[u16],
    out: &mut [u8],
) -> Result<Took, Refusal>
    ensures { record { numbers = numbers.new; outcome = outcome_of result; values = values.new; buffer = out.new } ≡ rows_call numbers.old sheets.now.bench.now sheets.now.maker.now values.old words.now out.old }
{
    check(numbers, sheets, values, words)?;
    Ok(pair::take_all(numbers, sheets, values, words, out))
}
