// A case on three cards that share a pair: its messages at once and word by word, and each answer compared.
use crate::player::{REPLIES, is_answer, messages};
use crate::reader::{change, field, spells};
use act::Setup;
use card::Took;
use refusal::Refusal;
use sheet::Sheets;

// The numbers of the three rows, and the values of the three cards.
const NUMBERS: usize = 3 * row::LENGTH;

const VALUES: usize = 3 * sheet::CODES;

// ---- the cards at the start

// A fresh card's row: no message open and no offer.
fn row_of(setup: Setup) -> [i32; row::LENGTH] {
    let [a, b, c, d, e] = setup.scan.map(i32::from);
    let letter = i32::from(setup.letter);
    let address = i32::from(setup.address);
    let count = i32::from(setup.count);
    let revision = i32::from(setup.revision);
    [
        letter, address, 0, 0, 0, 0, 0, 0, 0, 0, 0, 0, 0, 0, 0, 0, count, a, b, c, d, e, revision,
    ]
}

// The rows, one behind the other.
fn rows_of(setups: [Setup; 3]) -> [i32; NUMBERS] {
    let mut numbers = [0; NUMBERS];
    for (row, setup) in numbers.chunks_exact_mut(row::LENGTH).zip(setups) {
        row.copy_from_slice(&row_of(setup));
    }
    numbers
}

// The same values for each card.
fn thrice(values: [i32; sheet::CODES]) -> [i32; VALUES] {
    let mut all = [0; VALUES];
    for own in all.chunks_exact_mut(sheet::CODES) {
        own.copy_from_slice(&values);
    }
    all
}

// ---- what they say

// Whether the text is `!` and the number of this refusal.
fn is_refused(refusal: Refusal, text: &[u8]) -> bool {
    match text {
        [b'!', digits @ ..] => spells(digits, u8::from(refusal)),
        _ => false,
    }
}

// Whether all of so many words were taken and the bytes are what was expected, or the refusal is.
fn is_expected(ran: Result<Took, Refusal>, count: usize, bytes: &[u8], answer: &[u8]) -> bool {
    match ran {
        Err(refusal) => is_refused(refusal, answer),
        Ok(took) => took.words == count && is_answer(bytes, took.bytes, answer),
    }
}

// The words one by one, to the first that is refused or not taken, as if they were one run.
fn each(
    numbers: &mut [i32],
    sheets: &Sheets<'_>,
    values: &mut [i32],
    words: &[u16],
    out: &mut [u8],
) -> Result<Took, Refusal> {
    let mut took = Took { words: 0, bytes: 0 };
    for word in words {
        let Some(room) = out.get_mut(took.bytes..) else {
            break;
        };
        let one = bus::run(numbers, sheets, values, &[*word], room)?;
        if one.words == 0 {
            break;
        }
        took = Took {
            words: took.words.saturating_add(1),
            bytes: took.bytes.saturating_add(one.bytes),
        };
    }
    Ok(took)
}

// A message at once; answers whether the cards said what was expected.
fn by_run(
    numbers: &mut [i32],
    sheets: &Sheets<'_>,
    values: &mut [i32],
    words: &[u16],
    answer: &[u8],
) -> bool {
    let mut out = [0u8; REPLIES];
    let ran = bus::run(numbers, sheets, values, words, &mut out);
    is_expected(ran, words.len(), &out, answer)
}

// A message word by word.
fn by_words(
    numbers: &mut [i32],
    sheets: &Sheets<'_>,
    values: &mut [i32],
    words: &[u16],
    answer: &[u8],
) -> bool {
    let mut out = [0u8; REPLIES];
    let ran = each(numbers, sheets, values, words, &mut out);
    is_expected(ran, words.len(), &out, answer)
}

// A case on three cards, both ways; they have the same values at the start. `line` begins with the change.
pub(crate) fn together(
    setups: [Setup; 3],
    sheets: &Sheets<'_>,
    values: [i32; 128],
    line: &[u8],
) -> Result<(), usize> {
    let (text, line) = field(line);
    let mut values = values;
    if !change(&mut values, text) {
        return Err(0);
    }
    let mut numbers = rows_of(setups);
    let mut held = thrice(values);
    messages(line, |words, answer| {
        by_run(&mut numbers, sheets, &mut held, words, answer)
    })?;
    let mut numbers = rows_of(setups);
    let mut held = thrice(values);
    messages(line, |words, answer| {
        by_words(&mut numbers, sheets, &mut held, words, answer)
    })
}
