// The boundary for hosts: the calls as C functions over numbers and slices of numbers alone.
// Each gives back minus the number of its refusal, or a count (`kav_run`: 0). A refused call changes nothing lent.
#![tactic(auto)]

ghost use Rattle.std.specs.Prelude.{◌≡◌, List, [], ◌∷◌, ℕ, ◌≤◌, ℤ, pos, length};
ghost use Rattle.refusal.specs.Refusal.{outcome_of, number_of};
ghost use Rattle.refusal.specs.Buffer.{laid};
ghost use Rattle.hearing.specs.Normal.{normal_call};
ghost use Rattle.sheet.specs.Lookup.{shown};
ghost use Rattle.reply.specs.Read.{read_call};
ghost use Rattle.act.specs.Cause.{why_of};
ghost use Rattle.card.specs.Calls.{step_after, run_after};
ghost use Rattle.abi.specs.Result.{minus_number, count_result, result_of, filled, given, asked, write_asked, line_asked};
ghost use Rattle.abi.specs.Rows.{pairs, five_of, answer_row, read_into, lookup_into};
ghost use Rattle.abi.specs.Calls.{too_short, one_word, cause_in, step_on, kav_step, many_words, counts_in, run_on, kav_run};

use act::causes::Cause;
use card::{Ran, Stepped, Took};
use number::Decimal;
use refusal::Refusal;
use reply::{Answer, Content};
use sheet::Sheets;

mod asking;
mod many;
mod model;
mod tracing;

// ---- results

// Minus the refusal's number.
#[tactic(auto, using(refusal::proofs::Calls::number_small, crate::proofs::Laws::minus_wide))]
pub(crate) fn minus_number(refusal: Refusal) -> i64
    ensures { result ≡ minus_number (number_of refusal) }
{
    -i64::from(u8::from(refusal))
}

// A count; no buffer has more than the greatest i64.
#[tactic(auto, unfolding(crate::specs::Result::count_result))]
pub(crate) fn count_result(n: usize) -> i64
    ensures { result ≡ count_result n }
{
    i64::try_from(n).unwrap_or(i64::MAX)
}

// A call's answer: minus the number of its refusal, or its count.
#[tactic(auto, using(crate::proofs::Laws::wide_ok), unfolding(crate::specs::Result::result_of))]
pub(crate) fn result(answer: Result<usize, Refusal>) -> i64
    ensures { result ≡ result_of (outcome_of answer) }
{
    match answer {
        Err(refusal) => minus_number(refusal),
        Ok(n) => count_result(n),
    }
}

// ---- rows of numbers

// How many numbers an answer has.
const ANSWER: usize = 15;

// The numbers to the front of a row.
#[tactic(auto, unfolding(refusal::specs::Buffer::laid))]
pub(crate) fn copy(numbers: &[i32], out: &mut [i32])
    requires { length numbers.now ≤ length out.old }
    ensures { out.new ≡ laid numbers.now out.old }
{
    out[..numbers.len()].copy_from_slice(numbers);
}

// A number and its decimals.
#[tactic(auto, unfolding(crate::specs::Rows::pairs))]
fn pair(x: Decimal) -> [i32; 2]
    ensures { result ≡ pairs (x ∷ []) }
{
    [x.number, i32::from(x.decimals)]
}

// The numbers of an answer: how many, and five; those behind the last are 0 with no decimals.
#[tactic(auto, unfolding(crate::specs::Rows::five_of))]
fn five_of(content: Content) -> (u8, [Decimal; 5])
    ensures { result ≡ five_of content }
{
    let none = Decimal::default();
    match content {
        Content::Empty => (0, [none; 5]),
        Content::Number(a) => (1, [a, none, none, none, none]),
        Content::Four(a, b, c, d) => (4, [a, b, c, d, none]),
        Content::Five(a, b, c, d, e) => (5, [a, b, c, d, e]),
    }
}

fn answer_row(answer: Answer) -> [i32; ANSWER]
    ensures { result ≡ answer_row answer }
{
    let Answer {
        letter,
        address,
        identifier,
        mark,
        content,
    } = answer;
    let (count, numbers) = five_of(content);
    let bytes = [letter, address, identifier, u8::from(mark), count];
    let mut row = [0; ANSWER];
    row[..5].copy_from_slice(&bytes.map(i32::from));
    row[5..].copy_from_slice(numbers.map(pair).as_flattened());
    row
}

// ---- the calls

// The normal form of a recording: the count of words written.
#[tactic(auto, using(crate::proofs::Laws::wide_ok))]
#[unsafe(no_mangle)]
pub extern "C" fn kav_normal_form(words: &[u16], out: &mut [u16]) -> i64
    ensures { filled result out.new ≡ given (normal_call words.now out.old) }
{
    result(hearing::normal_form(words, out))
}

// One message: the count of bytes written.
#[tactic(auto, using(crate::proofs::Laws::wide_ok), unfolding(crate::specs::Result::write_asked, crate::specs::Result::result_of))]
#[unsafe(no_mangle)]
pub extern "C" fn kav_write(
    letter: u8,
    address: u32,
    identifier: u8,
    kind: u8,
    number: i32,
    decimals: u32,
    minus_zero: u32,
    out: &mut [u8],
) -> i64
    ensures { filled result out.new ≡ given (write_asked (asked letter address identifier kind number decimals minus_zero) out.old) }
{
    let Some(message) = asking::asked(
        letter, address, identifier, kind, number, decimals, minus_zero,
    ) else {
        return minus_number(Refusal::NotMessage);
    };
    result(message::write(message, out))
}

// One line of the listing: the count of bytes written.
#[tactic(auto, using(crate::proofs::Laws::wide_ok), unfolding(crate::specs::Result::line_asked, crate::specs::Result::result_of))]
#[unsafe(no_mangle)]
pub extern "C" fn kav_line(
    at: u64,
    letter: u8,
    address: u32,
    identifier: u8,
    kind: u8,
    number: i32,
    decimals: u32,
    minus_zero: u32,
    out: &mut [u8],
) -> i64
    ensures { filled result out.new ≡ given (line_asked at (asked letter address identifier kind number decimals minus_zero) out.old) }
{
    let Some(message) = asking::asked(
        letter, address, identifier, kind, number, decimals, minus_zero,
    ) else {
        return minus_number(Refusal::NotMessage);
    };
    result(listing::line(at, message, out))
}

// The numbers of the answer that a reply gives, to the front of a row: 15.
#[tactic(auto, unfolding(crate::specs::Rows::read_into, crate::specs::Result::result_of, crate::specs::Result::count_result))]
fn read_into(bytes: &[u8], row: &mut [i32]) -> Result<usize, Refusal>
    ensures { filled (result_of (outcome_of result)) row.new ≡ read_into (read_call bytes.now) row.old }
{
    let answer = reply::read(bytes)?;
    if row.len() < ANSWER {
        return Err(Refusal::RoomTooShort);
    }
    copy(&answer_row(answer), row);
    Ok(ANSWER)
}

// One reply: 15, with its answer as fifteen numbers.
#[unsafe(no_mangle)]
pub extern "C" fn kav_read(bytes: &[u8], answer: &mut [i32]) -> i64
    ensures { filled result answer.new ≡ read_into (read_call bytes.now) answer.old }
{
    result(read_into(bytes, answer))
}

// One row: 6 with its numbers copied, or 0.
#[tactic(auto, using(crate::proofs::Laws::wide_ok), unfolding(crate::specs::Rows::lookup_into))]
#[unsafe(no_mangle)]
pub extern "C" fn kav_lookup<'a>(
    bench: &'a [i32],
    maker: &'a [i32],
    identifier: u8,
    row: &mut [i32],
) -> i64
    ensures { filled result row.new ≡ lookup_into (shown bench.now maker.now identifier) row.old }
{
    if row.len() < 6 {
        return minus_number(Refusal::RoomTooShort);
    }
    let part = Sheets { bench, maker }.lookup(identifier);
    if part.len() != 6 {
        return 0;
    }
    copy(part, row);
    6
}

// A call with no room for what it gives beside its result: the numbers before 5, then 5.
pub(crate) fn without_room(verdict: Result<(), Refusal>) -> i64
    ensures { result ≡ too_short (outcome_of verdict) }
{
    minus_number(verdict.err().unwrap_or(Refusal::RoomTooShort))
}

// A cause's code and position, in the first two places.
fn put_cause(given: Option<Cause>, cause: &mut [i32])
    requires { 2 ≤ length cause.old }
    ensures { cause.new ≡ cause_in (why_of given) cause.old }
{
    cause[0] = i32::from(act::causes::cause_code(given));
    cause[1] = i32::from(act::causes::cause_position(given));
}

// A word's answer as a count; when the word is served, the card is stored back, and the cause is given.
fn stepped(step: Stepped, row: &mut [i32], cause: &mut [i32]) -> Result<usize, Refusal>
    requires { 2 ≤ length cause.old }
    ensures { (values : List ℤ) (out : List ℕ) → one_word (result_of (outcome_of result)) row.new values out cause.new ≡ step_on row.old cause.old (step_after step values out) }
{
    let replied = step.answer?;
    row::store(step.card, row);
    put_cause(replied.cause, cause);
    Ok(replied.bytes)
}

// One word: the count of bytes replied, 0 for silence, with the cause's code and position.
#[tactic(auto, using(crate::proofs::Laws::wide_ok), unfolding(crate::specs::Calls::kav_step))]
#[unsafe(no_mangle)]
pub extern "C" fn kav_step<'a>(
    card: &mut [i32],
    bench: &'a [i32],
    maker: &'a [i32],
    values: &mut [i32],
    word: u16,
    out: &mut [u8],
    cause: &mut [i32],
) -> i64
    ensures { one_word result card.new values.new out.new cause.new ≡ kav_step card.old bench.now maker.now values.old word out.old cause.old }
{
    if !row::is_row(card) {
        return minus_number(Refusal::UnsoundCard);
    }
    let held = row::card_of(card);
    let sheets = Sheets { bench, maker };
    if cause.len() < 2 {
        return without_room(card::check(held, &sheets, values, &[word]));
    }
    result(stepped(card::step(held, &sheets, values, word, out), card, cause))
}

// Words taken and bytes written, in the first two counts.
pub(crate) fn put_counts(took: Took, counts: &mut [u64])
    requires { 2 ≤ length counts.old }
    ensures { counts.new ≡ counts_in took.words took.bytes counts.old }
{
    counts[0] = took.words as u64;
    counts[1] = took.bytes as u64;
}

// A run's answer as 0; when the run is served, the card is stored back, and the words taken and bytes written are counted.
#[tactic(auto, unfolding(crate::specs::Result::result_of, crate::specs::Result::count_result))]
pub(crate) fn ran(run: Ran, row: &mut [i32], counts: &mut [u64]) -> Result<usize, Refusal>
    requires { 2 ≤ length counts.old }
    ensures { (values : List ℤ) (out : List ℕ) → many_words (result_of (outcome_of result)) row.new values out counts.new ≡ run_on row.old counts.old (run_after run values out) }
{
    let took = run.answer?;
    row::store(run.card, row);
    put_counts(took, counts);
    Ok(0)
}

// Many words: 0, with the words taken and the bytes written in the counts.
#[tactic(auto, using(crate::proofs::Laws::wide_ok), unfolding(crate::specs::Calls::kav_run))]
#[unsafe(no_mangle)]
pub extern "C" fn kav_run<'a>(
    card: &mut [i32],
    bench: &'a [i32],
    maker: &'a [i32],
    values: &mut [i32],
    words: &[u16],
    out: &mut [u8],
    counts: &mut [u64],
) -> i64
    ensures { many_words result card.new values.new out.new counts.new ≡ kav_run card.old bench.now maker.now values.old words.now out.old counts.old }
{
    if !row::is_row(card) {
        return minus_number(Refusal::UnsoundCard);
    }
    let held = row::card_of(card);
    let sheets = Sheets { bench, maker };
    if counts.len() < 2 {
        return without_room(card::check(held, &sheets, values, words));
    }
    result(ran(card::run(held, &sheets, values, words, out), card, counts))
}
