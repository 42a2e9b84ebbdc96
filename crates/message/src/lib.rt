// A message: read, tested, spelled, and written.
#![tactic(auto)]

ghost use Rattle.std.specs.Prelude.{◌≡◌, length, [], ◌∷◌};
ghost use Rattle.refusal.specs.Call.{call_of};
ghost use Rattle.wire.specs.Word.{travelling};
ghost use Rattle.wire.specs.Inner.{puts, line_of};
ghost use Rattle.message.specs.Message.{star, is_letter, is_address, is_identifier, fits_body, is_message};
ghost use Rattle.number.specs.Data.{spell_numeral, read_data};
ghost use Rattle.message.specs.Prefix.{extend_all, finish, parse};
ghost use Rattle.message.specs.Inner.{signed, set_to, IsBodyBehind};
ghost use Rattle.message.specs.Spell.{spell_address, kind_of, spell_body, spell, write_call};

use number::{Data, Numeral};
use refusal::Refusal;
use wire::Line;

pub mod recogniser;

// Type 1; Type 2 with `?`, `+` and `-`; Type 3; Type 4.
#[derive(Clone, Copy, Debug, PartialEq, Eq)]
pub enum Body {
    Status,
    Query,
    Up,
    Down,
    Set(Numeral),
    Store,
}

// A message as heard.
#[derive(Clone, Copy, Debug, PartialEq, Eq)]
pub struct Message {
    pub letter: u8,
    pub address: u8,
    pub identifier: u8,
    pub body: Body,
}

// How far the characters of a message have come: `Digit` has one digit of the address, `Address` both, `Digits` stands behind `#`;
// no well-formed message begins with what is `Wrong`.
#[derive(Clone, Copy, Debug, PartialEq, Eq)]
pub enum Prefix {
    Start,
    Letter(u8),
    Digit {
        letter: u8,
        address: u8,
    },
    Address {
        letter: u8,
        address: u8,
    },
    Identifier {
        letter: u8,
        address: u8,
        identifier: u8,
    },
    Digits {
        letter: u8,
        address: u8,
        identifier: u8,
        read: Data,
    },
    Complete(Message),
    Wrong,
}

// What stands behind an identifier: one character, or `#` and a number.
#[derive(Clone, Copy, Debug, PartialEq, Eq)]
pub enum Kind {
    Sign(u8),
    Data(Numeral),
}

#[tactic(auto, unfolding(crate::specs::Message::is_letter))]
pub fn is_letter(c: u8) -> bool
    ensures { result ≡ is_letter c }
{
    matches!(c, b'L' | b'R')
}

#[tactic(auto, unfolding(crate::specs::Message::is_address))]
pub fn is_address(address: u8) -> bool
    ensures { result ≡ is_address address }
{
    matches!(address, 1..=99)
}

// Behind the digits, as most are, or before them, but `*`. As one set of ranges, a lookup in a small sheet takes a quarter more time.
#[tactic(auto, unfolding(crate::specs::Message::is_identifier, number::specs::Data::is_digit))]
pub fn is_identifier(c: u8) -> bool
    ensures { result ≡ is_identifier c }
{
    if b':' <= c {
        c <= b'~'
    } else {
        matches!(c, b'!'..=b'/') && c != b'*'
    }
}

// Whether the body can stand behind the identifier.
#[tactic(auto, unfolding(crate::specs::Message::fits_body))]
fn fits_body(identifier: u8, body: Body) -> bool
    ensures { result ≡ fits_body identifier body }
{
    match body {
        Body::Status => identifier == b'?',
        Body::Set(x) => identifier != b'?' && number::fits_numeral(x),
        Body::Query | Body::Up | Body::Down | Body::Store => identifier != b'?',
    }
}

// Whether it is something that can be heard.
#[tactic(auto, unfolding(crate::specs::Message::is_message))]
pub fn is_message(message: Message) -> bool
    ensures { result ≡ is_message message }
{
    is_letter(message.letter)
        && is_address(message.address)
        && is_identifier(message.identifier)
        && fits_body(message.identifier, message.body)
}

// The body that one character makes behind an identifier.
#[tactic(auto, unfolding(crate::specs::Inner::signed))]
fn signed(identifier: u8, c: u8) -> Option<Body>
    ensures { result ≡ signed identifier c }
{
    match (identifier, c) {
        (b'?', b'?') => Some(Body::Status),
        (b'?', _) => None,
        (_, b'?') => Some(Body::Query),
        (_, b'+') => Some(Body::Up),
        (_, b'-') => Some(Body::Down),
        (_, b'I') => Some(Body::Store),
        _ => None,
    }
}

// The body that stands behind `#`: five digits and nothing more.
#[tactic(auto, using(crate::proofs::Behind::no_data), unfolding(crate::specs::Inner::set_to))]
fn set_to(digits: &[u8]) -> Option<Body>
    ensures { result ≡ set_to (read_data digits.now) }
{
    let digits = <[u8; 5]>::try_from(digits).ok()?;
    match number::read_data(digits) {
        Data::Number(x) => Some(Body::Set(x)),
        Data::Partial { .. } | Data::Invalid => None,
    }
}

// The body that stands behind an identifier: one character, or `#` and digits.
fn body_behind(identifier: u8, rest: &[u8]) -> Option<Body>
    ensures { IsBodyBehind identifier rest.now result }
{
    match rest {
        [sign] => signed(identifier, *sign),
        [b'#', digits @ ..] if identifier != b'?' => set_to(digits),
        _ => None,
    }
}

// What stands behind an address: an identifier and a body.
fn behind_address(letter: u8, address: u8, rest: &[u8]) -> Option<Message>
    ensures { result ≡ finish (extend_all (Prefix.Address letter address) rest.now) }
{
    let [identifier, rest @ ..] = rest else {
        return None;
    };
    if !is_address(address) || !is_identifier(*identifier) {
        return None;
    }
    let body = body_behind(*identifier, rest)?;
    Some(Message {
        letter,
        address,
        identifier: *identifier,
        body,
    })
}

// What the characters before a `*` are. It goes by places, which is faster than from one state of the recogniser to the next.
#[tactic(auto, using(crate::proofs::Steps::digit_least, crate::proofs::Steps::digit_most))]
pub fn parse(characters: &[u8]) -> Option<Message>
    ensures { result ≡ parse characters.now }
{
    let [letter, first, second, ..] = characters else {
        return None;
    };
    if !is_letter(*letter) || !number::is_digit(*first) {
        return None;
    }
    let (address, rest) = if number::is_digit(*second) {
        ((first - 48) * 10 + (second - 48), &characters[3..])
    } else {
        (first - 48, &characters[2..])
    };
    behind_address(*letter, address, rest)
}

// An address without a leading zero.
#[tactic(auto, unfolding(crate::specs::Spell::spell_address, wire::specs::Inner::puts, number::specs::Data::digit))]
pub fn put_address(line: Line, address: u8) -> Line
    ensures { result ≡ puts line (spell_address address) }
{
    if address <= 9 {
        line.put(48 + address)
    } else {
        line.put(48 + address / 10).put(48 + address % 10)
    }
}

// Five digits of data. Where the line has room for all of them, they are set at once.
pub fn put_data(line: Line, x: Numeral) -> Line
    ensures { result ≡ puts line (spell_numeral x) }
{
    let [a, b, c, d, e] = number::write_numeral(x);
    let Line { mut bytes, len } = line;
    if 6 < len {
        return line.put_all(&[a, b, c, d, e]);
    }
    bytes[len..len + 5].copy_from_slice(&[
        wire::with_parity(a),
        wire::with_parity(b),
        wire::with_parity(c),
        wire::with_parity(d),
        wire::with_parity(e),
    ]);
    Line {
        bytes,
        len: len + 5,
    }
}

// What stands behind the identifier of a message with this body.
#[tactic(auto, unfolding(crate::specs::Spell::kind_of))]
pub fn kind_of(body: Body) -> Kind
    ensures { result ≡ kind_of body }
{
    match body {
        Body::Status | Body::Query => Kind::Sign(b'?'),
        Body::Up => Kind::Sign(b'+'),
        Body::Down => Kind::Sign(b'-'),
        Body::Store => Kind::Sign(b'I'),
        Body::Set(x) => Kind::Data(x),
    }
}

// A message with one digit of address and a sign, as it travels. One function for both counts of digits would have to choose between two types.
#[tactic(auto, unfolding(wire::specs::Word::travelling))]
pub fn with_one_digit(letter: u8, digit: u8, identifier: u8, sign: u8) -> [u8; 5]
    ensures { result ≡ travelling (letter ∷ digit ∷ identifier ∷ sign ∷ star ∷ []) }
{
    [letter, digit, identifier, sign, b'*'].map(wire::with_parity)
}

// The same with two digits.
#[tactic(auto, unfolding(wire::specs::Word::travelling))]
pub fn with_two_digits(letter: u8, tens: u8, ones: u8, identifier: u8, sign: u8) -> [u8; 6]
    ensures { result ≡ travelling (letter ∷ tens ∷ ones ∷ identifier ∷ sign ∷ star ∷ []) }
{
    [letter, tens, ones, identifier, sign, b'*'].map(wire::with_parity)
}

// What stands behind the identifier.
#[tactic(auto, unfolding(crate::specs::Spell::spell_kind, wire::specs::Inner::puts))]
fn put_body(line: Line, body: Body) -> Line
    ensures { result ≡ puts line (spell_body body) }
{
    match kind_of(body) {
        Kind::Sign(c) => line.put(c),
        Kind::Data(x) => put_data(line.put(b'#'), x),
    }
}

// The message as it travels, `*` included.
#[tactic(auto, using(crate::proofs::Spelling::spelled_line))]
pub fn spell(message: Message) -> Line
    ensures { result ≡ line_of (spell message) }
{
    let letter = Line::new().put(message.letter);
    let address = put_address(letter, message.address);
    let front = address.put(message.identifier);
    put_body(front, message.body).put(b'*')
}

#[tactic(auto, unfolding(crate::specs::Spell::spell_address))]
fn address_len(address: u8) -> usize
    ensures { result ≡ length (spell_address address) }
{
    if address <= 9 { 1 } else { 2 }
}

#[tactic(auto, using(number::proofs::Digits::numeral_length), unfolding(crate::specs::Spell::spell_kind))]
fn body_len(body: Body) -> usize
    ensures { result ≡ length (spell_body body) }
{
    match kind_of(body) {
        Kind::Sign(_) => 1,
        Kind::Data(_) => 6,
    }
}

// How many bytes the message has as it travels, `*` included.
#[tactic(auto, using(crate::proofs::Spelling::address_length, crate::proofs::Spelling::body_length, crate::proofs::Spelling::spell_parts))]
pub fn spelled_len(message: Message) -> usize
    ensures { result ≡ length (spell message) }
{
    address_len(message.address) + body_len(message.body) + 3
}

// The message at the front of a buffer.
#[tactic(auto, using(crate::proofs::Spelling::write_refused, crate::proofs::Spelling::write_line))]
pub fn write(message: Message, out: &mut [u8]) -> Result<usize, Refusal>
    ensures { call_of result out.new ≡ write_call message out.old }
{
    if !is_message(message) {
        return Err(Refusal::NotMessage);
    }
    spell(message).write(out)
}
