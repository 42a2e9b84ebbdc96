// A line's fields, and the numbers and the words that they spell.
ghost use Rattle.std.specs.Prelude.{◌≡◌, ◌<◌, ◌≤◌, ◌++◌, length};

// A silence, and a word that every call refuses.
const SILENCE: u16 = 256;

const UNKNOWN: u16 = 257;

// What stands before the first mark, and what stands behind it; the whole, and nothing, where there is no mark.
pub(crate) fn split_once(text: &[u8], mark: u8) -> (&[u8], Option<&[u8]>) {
    match text.iter().position(|c| *c == mark) {
        Some(at) => (&text[..at], Some(&text[at + 1..])),
        None => (text, None),
    }
}

// The first field, and the fields behind it: both are empty where there are none.
pub(crate) fn field(line: &[u8]) -> (&[u8], &[u8]) {
    match split_once(line, b' ') {
        (first, Some(rest)) => (first, rest),
        (first, None) => (first, &line[line.len()..]),
    }
}

// The number that one to four digits spell.
fn number_of(text: &[u8]) -> Option<u16> {
    if text.is_empty() || 4 < text.len() {
        return None;
    }
    let mut number: u16 = 0;
    for c in text {
        if !c.is_ascii_digit() {
            return None;
        }
        number = number
            .saturating_mul(10)
            .saturating_add(u16::from(*c - b'0'));
    }
    Some(number)
}

// Whether the text is this number, in one to four digits.
pub(crate) fn spells(text: &[u8], number: u8) -> bool {
    number_of(text) == Some(u16::from(number))
}

// Stores a value; answers whether it is one, and the place is there.
fn store(values: &mut [i32], place: u8, value: Option<i32>) -> bool {
    let Some(value) = value else {
        return false;
    };
    let Some(slot) = values.get_mut(usize::from(place)) else {
        return false;
    };
    *slot = value;
    true
}

// One value changed, as `m=1000` or `m=-5`, or none, as `-`; answers whether the text is one of the two.
pub(crate) fn change(values: &mut [i32], text: &[u8]) -> bool {
    match text {
        [b'-'] => true,
        [place, b'=', b'-', digits @ ..] => {
            store(values, *place, number_of(digits).map(|n| -i32::from(n)))
        }
        [place, b'=', digits @ ..] => store(values, *place, number_of(digits).map(i32::from)),
        _ => false,
    }
}

// The address behind a card's letter; 7 where there is none, and 0, which no card has, where it is no address.
pub(crate) fn address_of(card: &[u8]) -> u8 {
    match card {
        [] | [_] => 7,
        [_, digits @ ..] => match number_of(digits) {
            Some(n) if n < 100 => n as u8,
            _ => 0,
        },
    }
}

// The word of one character, or of what stands in braces; UNKNOWN where that says nothing.
fn word_of(part: &[u8]) -> u16 {
    match part {
        [c] => u16::from(wire::with_parity(*c)),
        [_, c, b'!', _, ..] => u16::from(wire::with_parity(*c) ^ 128),
        [_, b's', _, _, ..] => u16::from(wire::with_parity(b' ')),
        [_, b'2', _, _, ..] => SILENCE,
        _ => UNKNOWN,
    }
}

// The first character, or what stands in the braces that open there, and what is behind. Only for `{` is its end looked for.
fn split_part(text: &[u8]) -> (&[u8], &[u8])
    requires { 0 < length text.now }
    ensures { (result.0.now ++ result.1.now ≡ text.now) × (0 < length result.0.now) }
{
    let end = if text[0] == b'{' {
        match text.iter().position(|c| *c == b'}') {
            Some(at) => at + 1,
            None => text.len(),
        }
    } else {
        1
    };
    text.split_at(end)
}

// The words of a message, and how many they are.
pub(crate) fn words_of(message: &[u8], words: &mut [u16]) -> usize
    ensures { result ≤ length words.new }
{
    let mut rest = message;
    for (n, word) in words.iter_mut().enumerate() {
        if rest.is_empty() {
            return n;
        }
        let (part, behind) = split_part(rest);
        *word = word_of(part);
        rest = behind;
    }
    words.len()
}
