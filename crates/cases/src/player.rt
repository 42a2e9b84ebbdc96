// A case on a card: its messages at once and word by word, and each answer compared.
use crate::reader::{change, field, spells, split_once, words_of};
use act::Setup;
use act::causes::Cause;
use card::{Card, Took};
use hearing::Pending;
use sheet::Sheets;

// The words of a message, and the bytes of the replies to it: two of the longest, since a word is taken only with room for one.
pub(crate) const WORDS: usize = 64;

pub(crate) const REPLIES: usize = 2 * reply::LONGEST_REPLY;

// The most messages that a case has.
pub(crate) const MESSAGES: usize = 12;

// How many bytes a card has said to some words, and the cause that the last of them gave.
#[derive(Clone, Copy)]
struct Said {
    bytes: usize,
    cause: Option<Cause>,
}

// Whether the first bytes are these characters in good parity.
fn starts(bytes: &[u8], characters: &[u8]) -> bool {
    characters.len() <= bytes.len()
        && bytes
            .iter()
            .zip(characters)
            .all(|(byte, c)| *byte == wire::with_parity(*c))
}

// Whether the `said` first bytes are what the answer has before its cause.
pub(crate) fn is_answer(bytes: &[u8], said: usize, answer: &[u8]) -> bool {
    let (text, _) = split_once(answer, b':');
    match text {
        [] => false,
        [b'-', ..] => said == 0,
        _ => said == text.len() && starts(bytes, text),
    }
}

// Whether the text is the code of this cause, or its code, a dot and its position.
fn is_cause(cause: Option<Cause>, text: &[u8]) -> bool {
    let (code, dotted) = split_once(text, b'.');
    let position = act::causes::cause_position(cause);
    spells(code, act::causes::cause_code(cause))
        && match dotted {
            Some(digits) => spells(digits, position),
            None => position == 0,
        }
}

// Whether the cause is the one that the answer ends in, if it ends in one.
fn is_answered(cause: Option<Cause>, answer: &[u8]) -> bool {
    match split_once(answer, b':') {
        (_, Some(text)) => is_cause(cause, text),
        (_, None) => true,
    }
}

// A message at once; answers whether the card said what was expected.
fn by_run(
    card: &mut Card,
    sheets: &Sheets<'_>,
    values: &mut [i32],
    words: &[u16],
    answer: &[u8],
) -> bool {
    let mut out = [0u8; REPLIES];
    let ran = card::run(*card, sheets, values, words, &mut out);
    *card = ran.card;
    match ran.answer {
        Ok(took) => took.words == words.len() && is_answer(&out, took.bytes, answer),
        Err(_) => false,
    }
}

// The words one by one; nothing where one is refused.
fn each(
    card: &mut Card,
    sheets: &Sheets<'_>,
    values: &mut [i32],
    words: &[u16],
    out: &mut [u8],
) -> Option<Said> {
    let mut said = Said {
        bytes: 0,
        cause: None,
    };
    for word in words {
        let stepped = card::step(*card, sheets, values, *word, out.get_mut(said.bytes..)?);
        *card = stepped.card;
        let replied = stepped.answer.ok()?;
        said = Said {
            bytes: said.bytes.checked_add(replied.bytes)?,
            cause: replied.cause,
        };
    }
    Some(said)
}

// A message word by word.
fn by_steps(
    card: &mut Card,
    sheets: &Sheets<'_>,
    values: &mut [i32],
    words: &[u16],
    answer: &[u8],
) -> bool {
    let mut out = [0u8; REPLIES];
    match each(card, sheets, values, words, &mut out) {
        Some(said) => is_answer(&out, said.bytes, answer) && is_answered(said.cause, answer),
        None => false,
    }
}

// The messages of a case, one after the other, to the end of the line: `says` answers whether the words of one draw this answer. An error is the
// first message whose answer is another, counted from 1, and 0 where there is none.
pub(crate) fn messages<F: FnMut(&[u16], &[u8]) -> bool + Drop>(
    line: &[u8],
    mut says: F,
) -> Result<(), usize>
    requires { F.IsAlwaysCallable says }
{
    let mut rest = line;
    for k in 0..MESSAGES {
        let (sent, behind) = field(rest);
        if sent.is_empty() {
            return match (k, rest) {
                (0, _) => Err(0),
                (_, []) => Ok(()),
                _ => Err(k + 1),
            };
        }
        let (answer, behind) = field(behind);
        let mut words = [0u16; WORDS];
        let n = words_of(sent, &mut words);
        if n == WORDS || !says(&words[..n], answer) {
            return Err(k + 1);
        }
        rest = behind;
    }
    if rest.is_empty() {
        Ok(())
    } else {
        Err(MESSAGES + 1)
    }
}

fn fresh(setup: Setup) -> Card {
    Card {
        setup,
        pending: Pending::new(),
        offer: None,
    }
}

// A case on a card, both ways, each from the values at the start; `line` begins with the change.
pub(crate) fn both(
    setup: Setup,
    sheets: &Sheets<'_>,
    values: [i32; 128],
    line: &[u8],
) -> Result<(), usize> {
    let (text, line) = field(line);
    let mut values = values;
    if !change(&mut values, text) {
        return Err(0);
    }
    let mut card = fresh(setup);
    let mut held = values;
    messages(line, |words, answer| {
        by_run(&mut card, sheets, &mut held, words, answer)
    })?;
    let mut card = fresh(setup);
    let mut held = values;
    messages(line, |words, answer| {
        by_steps(&mut card, sheets, &mut held, words, answer)
    })
}
