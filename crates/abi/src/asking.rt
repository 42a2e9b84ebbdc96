// What a host asks for, as a message; none where a number does not fit its part, or there is no such kind.
ghost use Rattle.std.specs.Prelude.{◌≡◌, ℕ, option_map};
ghost use Rattle.message.specs.Prefix.{message};
ghost use Rattle.message.specs.declared.Body.TheVariants.{Set};
ghost use Rattle.abi.specs.Result.{set_of, body_of, asked};

use message::{Body, Message};
use number::Numeral;

// Minus zero is asked for by 1, any other number by 0.
#[tactic(auto, unfolding(crate::specs::Result::set_of))]
fn numeral(number: i32, decimals: u32, minus_zero: u32) -> Option<Numeral>
    ensures { (letter address identifier : ℕ) → set_of letter address identifier number decimals minus_zero ≡ option_map (λ x. message letter address identifier (Set x)) result }
{
    let decimals = u8::try_from(decimals).ok()?;
    let minus_zero = match minus_zero {
        0 => false,
        1 => true,
        _ => return None,
    };
    Some(Numeral {
        number,
        decimals,
        minus_zero,
    })
}

// The body, by its first character: a number, since C has no other way to give it.
#[tactic(auto, unfolding(crate::specs::Result::body_of))]
fn body_of(identifier: u8, kind: u8, number: i32, decimals: u32, minus_zero: u32) -> Option<Body>
    ensures { (letter address : ℕ) → body_of letter address identifier kind number decimals minus_zero ≡ option_map (message letter address identifier) result }
{
    match kind {
        b'?' if identifier == b'?' => Some(Body::Status),
        b'?' => Some(Body::Query),
        b'+' => Some(Body::Up),
        b'-' => Some(Body::Down),
        b'I' => Some(Body::Store),
        b'#' => Some(Body::Set(numeral(number, decimals, minus_zero)?)),
        _ => None,
    }
}

// The message that seven numbers ask for: C gives them one by one.
#[tactic(auto, unfolding(crate::specs::Result::asked))]
pub(crate) fn asked(
    letter: u8,
    address: u32,
    identifier: u8,
    kind: u8,
    number: i32,
    decimals: u32,
    minus_zero: u32,
) -> Option<Message>
    ensures { result ≡ asked letter address identifier kind number decimals minus_zero }
{
    let address = u8::try_from(address).ok()?;
    let body = body_of(identifier, kind, number, decimals, minus_zero)?;
    Some(Message {
        letter,
        address,
        identifier,
        body,
    })
}
