// The two passes of the normal form: the counting and the writing.
ghost use Rattle.std.specs.Prelude.{◌≡◌, ◌+◌, ◌≤◌, length, leb};
ghost use Rattle.refusal.specs.Buffer.{laid, placed};
ghost use Rattle.wire.specs.Word.{travelling};
ghost use Rattle.message.specs.Spell.{kind_of, spell};
ghost use Rattle.hearing.specs.Normal.{normal};
ghost use Rattle.hearing.specs.Inner.{next_closed, worth};

use crate::Pending;
use message::{Kind, Message};
use wire::Line;

// The words that a heard message has in a normal form.
#[tactic(auto, using(wire::proofs::Words::travelling_length), unfolding(crate::specs::Inner::worth))]
fn count_of(message: Option<Message>) -> usize
    ensures { result ≡ length (worth message) }
{
    message.map_or(0, message::spelled_len)
}

// What the words of a message are read as when its `*` closes it, and the place of that `*`.
#[derive(Clone, Copy)]
struct Closing {
    message: Option<Message>,
    at: usize,
}

// What the words from a place on close first.
fn next_closed(words: &[u16], from: usize) -> Option<Closing>
    ensures { result ≡ next_closed words.now from }
{
    let mut pending = Pending::new();
    let at = pending.to_close(words, from);
    if words.len() <= at {
        return None;
    }
    Some(Closing {
        message: pending.close(),
        at,
    })
}

// The counting pass: whether the normal form fits the room. It and the writing pass share `next_closed`; what they do with a message differs.
fn measure(words: &[u16], room: usize) -> bool
    ensures { result ≡ leb (length (normal words.now)) room }
{
    let mut n = 0;
    let mut from = 0;
    while let Some(Closing { message, at }) = next_closed(words, from) {
        let more = count_of(message);
        if room - n < more {
            return false;
        }
        n += more;
        from = at + 1;
    }
    true
}

// A normal form is never longer than its recording, so the words are counted only where there is less room.
pub(crate) fn fits(words: &[u16], room: usize) -> bool
    ensures { result ≡ leb (length (normal words.now)) room }
{
    (words.len() <= room) || measure(words, room)
}

// The words of a message with a sign, an array of five or six, into the buffer from a place on.
#[tactic(auto, using(crate::proofs::Signs::one_written, crate::proofs::Signs::two_written))]
fn put_sign(m: Message, sign: u8, out: &mut [u16], at: usize) -> usize
    requires { (kind_of m.body ≡ Kind.Sign sign) × (at + length (travelling (spell m)) ≤ length out.old) }
    ensures { (result ≡ at + length (travelling (spell m))) × (out.new ≡ placed (travelling (spell m)) at out.old) }
{
    if m.address <= 9 {
        let bytes = message::with_one_digit(m.letter, 48 + m.address, m.identifier, sign);
        return copy(&bytes, out, at);
    }
    let tens = 48 + m.address / 10;
    let ones = 48 + m.address % 10;
    let bytes = message::with_two_digits(m.letter, tens, ones, m.identifier, sign);
    copy(&bytes, out, at)
}

// The words of a heard message into the buffer from a place on, and the place behind them. A struct of the buffer and the place would be
// lent to each of these three and taken apart again: no plainer.
fn put(message: Option<Message>, out: &mut [u16], at: usize) -> usize
    requires { at + length (worth message) ≤ length out.old }
    ensures { (result ≡ at + length (worth message)) × (out.new ≡ placed (worth message) at out.old) }
{
    let Some(m) = message else {
        return at;
    };
    match message::kind_of(m.body) {
        Kind::Sign(c) => put_sign(m, c, out, at),
        Kind::Data(_) => {
            let Line { bytes, len } = message::spell(m);
            copy(&bytes[..len], out, at)
        }
    }
}

// All of the bytes into the buffer from a place on, and the place behind them. By index: a `zip` with `iter_mut` was tried, and left open what
// the whole buffer holds.
fn copy(bytes: &[u8], out: &mut [u16], at: usize) -> usize
    requires { at + length bytes.now ≤ length out.old }
    ensures { (result ≡ at + length bytes.now) × (out.new ≡ placed bytes.now at out.old) }
{
    for (k, byte) in bytes.iter().enumerate() {
        out[at + k] = u16::from(*byte);
    }
    at + bytes.len()
}

// The writing pass; it gives the number of words written.
pub(crate) fn fill(words: &[u16], out: &mut [u16]) -> usize
    requires { length (normal words.now) ≤ length out.old }
    ensures { (result ≡ length (normal words.now)) × (out.new ≡ laid (normal words.now) out.old) }
{
    let mut written = 0;
    let mut from = 0;
    while let Some(Closing { message, at }) = next_closed(words, from) {
        written = put(message, out, written);
        from = at + 1;
    }
    written
}
