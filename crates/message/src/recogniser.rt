// The recogniser: a message as it is read, one character after the other, and where it fails.
ghost use Rattle.std.specs.Prelude.{◌≡◌, true};
ghost use Rattle.number.specs.Data.{is_digit};
ghost use Rattle.message.specs.Prefix.{extend_identifier, extend_address, extend_data, extend_body, extend};
ghost use Rattle.message.specs.Position.{is_wrong, position};

use crate::{Body, Message, Prefix};
use number::Data;

// The address is complete, and c stands behind it.
#[tactic(auto, unfolding(crate::specs::Prefix::extend_identifier))]
fn extend_identifier(letter: u8, address: u8, c: u8) -> Prefix
    ensures { result ≡ extend_identifier letter address c }
{
    if crate::is_address(address) & crate::is_identifier(c) {
        Prefix::Identifier {
            letter,
            address,
            identifier: c,
        }
    } else {
        Prefix::Wrong
    }
}

// A digit behind the first digit of an address. Behind more than 9 it makes no address.
#[tactic(auto, using(crate::proofs::Steps::digit_least, crate::proofs::Steps::digit_most, crate::proofs::Messages::address_above), unfolding(crate::specs::Prefix::extend_address, number::specs::Data::digit_of))]
fn extend_address(letter: u8, first: u8, c: u8) -> Prefix
    requires { is_digit c ≡ true }
    ensures { result ≡ extend_address letter first c }
{
    if 9 < first {
        return Prefix::Wrong;
    }
    let address = first * 10 + (c - 48);
    if crate::is_address(address) {
        Prefix::Address { letter, address }
    } else {
        Prefix::Wrong
    }
}

// Data that has been read so far behind `#`.
#[tactic(auto, unfolding(crate::specs::Prefix::extend_data))]
fn extend_data(letter: u8, address: u8, identifier: u8, read: Data) -> Prefix
    ensures { result ≡ extend_data letter address identifier read }
{
    match read {
        Data::Partial { .. } => Prefix::Digits {
            letter,
            address,
            identifier,
            read,
        },
        Data::Number(x) => Prefix::Complete(Message {
            letter,
            address,
            identifier,
            body: Body::Set(x),
        }),
        Data::Invalid => Prefix::Wrong,
    }
}

// One character behind an identifier.
#[tactic(auto, unfolding(crate::specs::Prefix::extend_body, crate::specs::Inner::signed))]
fn extend_body(letter: u8, address: u8, identifier: u8, c: u8) -> Prefix
    ensures { result ≡ extend_body letter address identifier c }
{
    match crate::signed(identifier, c) {
        Some(body) => Prefix::Complete(Message {
            letter,
            address,
            identifier,
            body,
        }),
        None if c == b'#' && identifier != b'?' => Prefix::Digits {
            letter,
            address,
            identifier,
            read: Data::Partial { count: 0, value: 0 },
        },
        None => Prefix::Wrong,
    }
}

impl Prefix {
    // One character more.
    #[tactic(auto, using(crate::proofs::Steps::digit_least), unfolding(crate::specs::Prefix::extend, number::specs::Data::digit_of))]
    fn extend(self, c: u8) -> Prefix
        ensures { result ≡ extend self c }
    {
        match self {
            Prefix::Start if crate::is_letter(c) => Prefix::Letter(c),
            Prefix::Letter(letter) if number::is_digit(c) => Prefix::Digit {
                letter,
                address: c - 48,
            },
            Prefix::Digit { letter, address } if number::is_digit(c) => {
                extend_address(letter, address, c)
            }
            Prefix::Digit { letter, address } | Prefix::Address { letter, address } => {
                extend_identifier(letter, address, c)
            }
            Prefix::Identifier {
                letter,
                address,
                identifier,
            } => extend_body(letter, address, identifier, c),
            Prefix::Digits {
                letter,
                address,
                identifier,
                read,
            } => extend_data(letter, address, identifier, number::read_next(read, c)),
            Prefix::Start | Prefix::Letter(_) | Prefix::Complete(_) | Prefix::Wrong =>
                Prefix::Wrong,
        }
    }

    // Whether no well-formed message begins so.
    #[tactic(auto, unfolding(crate::specs::Position::is_wrong))]
    fn is_wrong(self) -> bool
        ensures { result ≡ is_wrong self }
    {
        matches!(self, Prefix::Wrong)
    }
}

// In a message that isn't well formed, the place of the first character, of these and the `*` behind them, that no well-formed message could
// have there after those before it.
#[tactic(auto, using(crate::proofs::Matched::position_on, crate::proofs::Matched::position_end))]
pub fn position(characters: &[u8]) -> usize
    ensures { result ≡ position characters.now }
{
    let mut prefix = Prefix::Start;
    for (at, c) in characters.iter().enumerate() {
        prefix = prefix.extend(*c);
        if prefix.is_wrong() {
            return at;
        }
    }
    characters.len()
}
