// The reader's first half: the answer is guessed by position. It stands only where it is spelled with the very bytes.
ghost use Rattle.std.specs.Prelude.{◌≡◌, ◌-◌, ◌≤◌, length, get_or, drop};
ghost use Rattle.number.specs.Data.{digit_of};
ghost use Rattle.reply.specs.Read.{characters_of, guess_mark, read_or_zero, decimal_at, guess_content, guess_behind, guess};

use crate::{Answer, Content, Mark};
use number::{Data, Decimal};

// The character at a place, parity aside; 0 behind the end.
fn character_at(bytes: &[u8], k: usize) -> u8
    ensures { result ≡ get_or (characters_of bytes.now) k 0 }
{
    bytes.get(k).map_or(0, |byte| byte % 128)
}

#[tactic(auto, unfolding(number::specs::Data::digit_of))]
fn digit_of(c: u8) -> u8
    ensures { result ≡ digit_of c }
{
    c.saturating_sub(48)
}

#[tactic(auto, unfolding(crate::specs::Read::guess_mark))]
fn guess_mark(c: u8) -> Mark
    ensures { result ≡ guess_mark c }
{
    match c {
        b'A' => Mark::Accepted,
        b'I' => Mark::Offered,
        _ => Mark::Declined,
    }
}

// A number as it was read.
#[tactic(auto, unfolding(crate::specs::Read::read_or_zero))]
fn read_or_zero(read: Data) -> Decimal
    ensures { result ≡ read_or_zero read }
{
    match read {
        Data::Number(x) => x.into(),
        Data::Partial { .. } | Data::Invalid => Decimal::default(),
    }
}

// The number that stands from a place on.
fn decimal_at(bytes: &[u8], k: usize) -> Decimal
    requires { k ≤ 26 }
    ensures { result ≡ decimal_at (characters_of bytes.now) k }
{
    let Some([a, b, c, d, e, ..]) = bytes.get(k..) else {
        return Decimal::default();
    };
    let digits = [a % 128, b % 128, c % 128, d % 128, e % 128];
    read_or_zero(number::read_data(digits))
}

// The identifier stands at k: four numbers, five, or one, by how many characters there are.
fn guess_content(bytes: &[u8], k: usize) -> Content
    requires { k ≤ 3 }
    ensures { result ≡ guess_content (drop k (characters_of bytes.now)) }
{
    if bytes.len() == k + 25 {
        Content::Four(
            decimal_at(bytes, k + 3),
            decimal_at(bytes, k + 8),
            decimal_at(bytes, k + 13),
            decimal_at(bytes, k + 18),
        )
    } else if bytes.len() == k + 30 {
        Content::Five(
            decimal_at(bytes, k + 3),
            decimal_at(bytes, k + 8),
            decimal_at(bytes, k + 13),
            decimal_at(bytes, k + 18),
            decimal_at(bytes, k + 23),
        )
    } else {
        Content::Number(decimal_at(bytes, k + 1))
    }
}

// The character before the last, from k on.
fn mark_at(bytes: &[u8], k: usize) -> u8
    requires { k ≤ 3 }
    ensures { result ≡ get_or (drop k (characters_of bytes.now)) (length (drop k (characters_of bytes.now)) - 2) 0 }
{
    character_at(bytes, k.max(bytes.len().saturating_sub(2)))
}

// The identifier stands at k.
fn guess_behind(bytes: &[u8], address: u8, k: usize) -> Answer
    requires { k ≤ 3 }
    ensures { result ≡ guess_behind (get_or (characters_of bytes.now) 0 0) address (drop k (characters_of bytes.now)) }
{
    let identifier = character_at(bytes, k);
    let content = if identifier == b'?' {
        Content::Empty
    } else {
        guess_content(bytes, k)
    };
    Answer {
        letter: character_at(bytes, 0),
        address,
        identifier,
        mark: guess_mark(mark_at(bytes, k)),
        content,
    }
}

// The answer whose spelling the bytes are, if they are one.
pub(crate) fn guess(bytes: &[u8]) -> Answer
    ensures { result ≡ guess (characters_of bytes.now) }
{
    let tens = digit_of(character_at(bytes, 1));
    let second = character_at(bytes, 2);
    if number::is_digit(second) {
        let address = (tens as u32 * 10 + digit_of(second) as u32) % 100;
        guess_behind(bytes, address as u8, 3)
    } else {
        guess_behind(bytes, tens, 2)
    }
}
