// A reply: the answer it carries, its spelling, and the reader.
#![tactic(auto)]

ghost use Rattle.refusal.specs.Refusal.{outcome_of};
ghost use Rattle.std.specs.Prelude.{◌≡◌, [], ◌∷◌, ◌+◌, ◌≤◌, eqb, length};
ghost use Rattle.refusal.specs.Lists.{every, same};
ghost use Rattle.refusal.specs.Buffer.{placed};
ghost use Rattle.refusal.specs.Call.{call_of, place_call};
ghost use Rattle.wire.specs.Word.{travelling};
ghost use Rattle.number.specs.Data.{fits, spell_data, spell_all};
ghost use Rattle.reply.specs.Reply.{mark_of, spell_content, spell_answer, is_no_number, fits_content, is_answer};
ghost use Rattle.reply.specs.Inner.{spell_front};
ghost use Rattle.reply.specs.Read.{read_call};

use number::Decimal;
use refusal::Refusal;

mod guessing;

// The longest reply has this many bytes, `*` included.
pub const LONGEST_REPLY: usize = 33;

// The identifier of the scan.
pub const SCAN: u8 = b']';

// `A`, `I` and `N`.
#[derive(Clone, Copy, Debug, PartialEq, Eq)]
pub enum Mark {
    Accepted,
    Offered,
    Declined,
}

// The numbers with their decimals, if any: one, or the four or five of a scan.
#[derive(Clone, Copy, Debug, PartialEq, Eq)]
pub enum Content {
    Empty,
    Number(Decimal),
    Four(Decimal, Decimal, Decimal, Decimal),
    Five(Decimal, Decimal, Decimal, Decimal, Decimal),
}

#[derive(Clone, Copy, Debug, PartialEq, Eq)]
pub struct Answer {
    pub letter: u8,
    pub address: u8,
    pub identifier: u8,
    pub mark: Mark,
    pub content: Content,
}

// The character of a mark.
impl From<Mark> for u8 {
    ghost from_gives = { λ mark c. c ≡ mark_of mark };

    fn from(mark: Mark) -> u8 {
        match mark {
            Mark::Accepted => b'A',
            Mark::Offered => b'I',
            Mark::Declined => b'N',
        }
    }
}

// The letter, the address and the identifier into a buffer from a place on, as they travel, and the place behind them.
#[tactic(auto, unfolding(crate::specs::Inner::spell_front, message::specs::Spell::spell_address))]
fn place_front(letter: u8, address: u8, identifier: u8, out: &mut [u8], at: usize) -> usize
    requires { at + length (spell_front letter address identifier) ≤ length out.old }
    ensures { (result ≡ at + length (spell_front letter address identifier)) × (out.new ≡ placed (travelling (spell_front letter address identifier)) at out.old) }
{
    if address <= 9 {
        let front = [letter, 48 + address, identifier];
        out[at..at + 3].copy_from_slice(&front.map(wire::with_parity));
        at + 3
    } else {
        let front = [letter, 48 + address / 10, 48 + address % 10, identifier];
        out[at..at + 4].copy_from_slice(&front.map(wire::with_parity));
        at + 4
    }
}

// Five digits in the same way.
fn place_number(x: Decimal, out: &mut [u8], at: usize) -> usize
    requires { at + 5 ≤ length out.old }
    ensures { (result ≡ at + 5) × (out.new ≡ placed (travelling (spell_data x)) at out.old) }
{
    out[at..at + 5].copy_from_slice(&number::write_data(x).map(wire::with_parity));
    at + 5
}

// Four numbers in the same way. A fold that hands the place on is no plainer: its closure would hold the buffer.
fn place_four(a: Decimal, b: Decimal, c: Decimal, d: Decimal, out: &mut [u8], at: usize) -> usize
    requires { at + 20 ≤ length out.old }
    ensures { (result ≡ at + 20) × (out.new ≡ placed (travelling (spell_all (a ∷ b ∷ c ∷ d ∷ []))) at out.old) }
{
    let second = place_number(a, out, at);
    let third = place_number(b, out, second);
    let fourth = place_number(c, out, third);
    place_number(d, out, fourth)
}

// Two characters in the same way.
fn place_two(x: u8, y: u8, out: &mut [u8], at: usize) -> usize
    requires { at + 2 ≤ length out.old }
    ensures { (result ≡ at + 2) × (out.new ≡ placed (travelling (x ∷ y ∷ [])) at out.old) }
{
    out[at..at + 2].copy_from_slice(&[x, y].map(wire::with_parity));
    at + 2
}

// The data, if any, in the same way: a number, or how many digits there are and the digits.
fn place_content(content: Content, out: &mut [u8], at: usize) -> usize
    requires { at + length (spell_content content) ≤ length out.old }
    ensures { (result ≡ at + length (spell_content content)) × (out.new ≡ placed (travelling (spell_content content)) at out.old) }
{
    match content {
        Content::Empty => at,
        Content::Number(x) => place_number(x, out, at),
        Content::Four(a, b, c, d) => {
            let first = place_two(b'2', b'0', out, at);
            place_four(a, b, c, d, out, first)
        }
        Content::Five(a, b, c, d, e) => {
            let first = place_two(b'2', b'5', out, at);
            let second = place_number(a, out, first);
            place_four(b, c, d, e, out, second)
        }
    }
}

fn content_len(content: Content) -> usize
    ensures { result ≡ length (spell_content content) }
{
    match content {
        Content::Empty => 0,
        Content::Number(_) => 5,
        Content::Four(..) => 22,
        Content::Five(..) => 27,
    }
}

// How many bytes the reply has, `*` included.
fn spelled_len(answer: Answer) -> usize
    ensures { result ≡ length (spell_answer answer) }
{
    let data = content_len(answer.content);
    if answer.address <= 9 {
        5 + data
    } else {
        6 + data
    }
}

// The reply into a buffer from a place on, as it travels.
#[tactic(auto, using(refusal::proofs::Calls::place_refuses, crate::proofs::Spelled::travelling_count))]
pub fn place(answer: Answer, out: &mut [u8], at: usize) -> Result<usize, Refusal>
    ensures { call_of result out.new ≡ place_call (travelling (spell_answer answer)) at out.old }
{
    let n = spelled_len(answer);
    if out.len() < at || out.len() - at < n {
        return Err(Refusal::RoomTooShort);
    }
    // The mark and `*` come before the content, which costs less than behind a choice of contents.
    let data = place_front(answer.letter, answer.address, answer.identifier, out, at);
    place_two(answer.mark.into(), b'*', out, at + n - 2);
    place_content(answer.content, out, data);
    Ok(n)
}

// `00000`.
#[tactic(auto, unfolding(crate::specs::Reply::is_no_number))]
fn is_no_number(x: Decimal) -> bool
    ensures { result ≡ is_no_number x }
{
    x.number == 0 && x.decimals == 0
}

#[tactic(auto, using(refusal::proofs::Lists::every_all), unfolding(crate::specs::Reply::fits_content))]
fn fits_content(identifier: u8, mark: Mark, content: Content) -> bool
    ensures { result ≡ fits_content identifier mark content }
{
    match content {
        Content::Empty => mark == Mark::Accepted && identifier == b'?',
        Content::Number(x) => {
            identifier != b'?'
                && number::fits(x)
                && (identifier != SCAN || (mark == Mark::Declined && is_no_number(x)))
        }
        Content::Four(a, b, c, d) => {
            mark == Mark::Accepted
                && identifier == SCAN
                && [a, b, c, d].iter().all(|x| number::fits(*x))
        }
        Content::Five(a, b, c, d, e) => {
            mark == Mark::Accepted
                && identifier == SCAN
                && [a, b, c, d, e].iter().all(|x| number::fits(*x))
        }
    }
}

// Whether some card gives it.
#[tactic(auto, unfolding(crate::specs::Reply::is_answer))]
pub fn is_answer(answer: Answer) -> bool
    ensures { result ≡ is_answer answer }
{
    message::is_letter(answer.letter)
        && message::is_address(answer.address)
        && message::is_identifier(answer.identifier)
        && fits_content(answer.identifier, answer.mark, answer.content)
}

// The same bytes.
#[tactic(auto, using(refusal::proofs::Lists::same_pointwise))]
pub fn equal(a: &[u8], b: &[u8]) -> bool
    ensures { result ≡ same eqb a.now b.now }
{
    a == b
}

// Whether the bytes are the reply of an answer: it is spelled and compared.
fn is_spelling(answer: Answer, bytes: &[u8]) -> bool
    ensures { result ≡ same eqb (travelling (spell_answer answer)) bytes.now }
{
    let mut spelled = [0u8; LONGEST_REPLY];
    match place(answer, &mut spelled, 0) {
        Ok(n) => equal(&spelled[..n], bytes),
        Err(_) => false,
    }
}

// The answer that the card gave.
#[tactic(auto, using(crate::proofs::Reader::read_reply, crate::proofs::Reader::read_no_reply, crate::proofs::Reader::reply_is))]
pub fn read(bytes: &[u8]) -> Result<Answer, Refusal>
    ensures { outcome_of result ≡ read_call bytes.now }
{
    let answer = guessing::guess(bytes);
    if is_answer(answer) & is_spelling(answer, bytes) {
        Ok(answer)
    } else {
        Err(Refusal::NotReply)
    }
}
