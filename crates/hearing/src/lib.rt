// Hearing: what a word does to the open message, and the normal form of a recording.
#![tactic(auto)]

ghost use Rattle.std.specs.Prelude.{◌≡◌, ◌≤◌, length, drop};
ghost use Rattle.refusal.specs.Call.{call_of};
ghost use Rattle.wire.specs.Word.{received};
ghost use Rattle.hearing.specs.Hearing.{none, added, open_of, opening, continuing, closes, action_of, hear};
ghost use Rattle.hearing.specs.Inner.{left_by, to_close, is_opening, to_letter, to_end};
ghost use Rattle.hearing.specs.Sound.{plain, zeros, sound_pending};
ghost use Rattle.hearing.specs.Normal.{normal_call};
ghost use Rattle.message.specs.Prefix.{parse};
ghost use Rattle.message.specs.Position.{position};

use message::Message;
use refusal::Refusal;

mod passes;

// An open message holds at most this many characters before its `*`.
pub const MOST: usize = 10;

// The open message: `len` characters and 0 behind them; none is open where `len` is 0. A host may lend a row with any length and any
// characters, and number 1 judges it (`is_sound`), so the length is a field and not a slice's.
#[derive(Clone, Copy, Debug, PartialEq, Eq)]
pub struct Pending {
    pub chars: [u8; MOST],
    pub len: usize,
}

// What a word does to the open message.
#[derive(Clone, Copy)]
pub enum Action {
    Ignore,
    Open(u8),
    Add(u8),
    Close,
    Drop,
}

// The open message after a word, and the message that the word has closed, if it is heard.
#[derive(Clone, Copy)]
pub struct Hearing {
    pub pending: Pending,
    pub message: Option<Message>,
}

impl Pending {
    // No message open.
    #[tactic(auto, unfolding(crate::specs::Hearing::none))]
    pub fn new() -> Pending
        ensures { result ≡ none }
    {
        Pending {
            chars: [0; MOST],
            len: 0,
        }
    }

    // One character more; an eleventh drops the message.
    pub fn add(mut self, c: u8) -> Pending
        ensures { result ≡ added self c }
    {
        self.push(c);
        self
    }

    // The same in its own place.
    #[tactic(auto, unfolding(crate::specs::Hearing::added))]
    fn push(&mut self, c: u8)
        ensures { self.new ≡ added self.old c }
    {
        if self.len < MOST {
            self.chars[self.len] = c;
            self.len += 1;
        } else {
            *self = Pending::new();
        }
    }

    // The open characters.
    #[tactic(auto, using(std::proofs::lemmas::List::take_min), unfolding(crate::specs::Hearing::open_of))]
    fn characters(&self) -> &[u8]
        ensures { result.now ≡ open_of self.now }
    {
        &self.chars[..self.len.min(MOST)]
    }

    // The message that the open characters are.
    pub fn close(&self) -> Option<Message>
        ensures { result ≡ parse (open_of self.now) }
    {
        message::parse(self.characters())
    }

    // Where the open characters fail, when they are closed and not heard.
    #[tactic(auto, using(crate::proofs::Words::position_short))]
    pub fn position(&self) -> u8
        ensures { result ≡ position (open_of self.now) }
    {
        message::recogniser::position(self.characters()) as u8
    }

    // What a word does.
    #[tactic(auto, unfolding(crate::specs::Hearing::action_of))]
    pub fn action(&self, word: u16) -> Action
        ensures { result ≡ action_of self.now word }
    {
        if self.len == 0 {
            opening(wire::receive(word))
        } else {
            continuing(wire::receive(word))
        }
    }

    // What a word does to an open message in its own place, and whether it closes it: then it is left for the caller to read.
    #[tactic(auto, using(crate::proofs::Words::done), unfolding(crate::specs::Hearing::perform, crate::specs::Inner::left_by))]
    pub fn take(&mut self, word: u16) -> bool
        ensures { (result ≡ closes (action_of self.old word)) × (self.new ≡ left_by self.old (action_of self.old word)) }
    {
        match self.action(word) {
            Action::Ignore => {}
            Action::Open(c) => *self = Pending::new().add(c),
            Action::Add(c) => self.push(c),
            Action::Close => return true,
            Action::Drop => *self = Pending::new(),
        }
        false
    }

    // Takes the words of an open message from a place on: up to its `*`, which is left, or behind a word that drops it. Gives the place
    // of the next word. `take` in place of the `match` is shorter, and a normal form of messages alone takes 13 % more instructions.
    fn to_end(&mut self, words: &[u16], from: usize) -> usize
        requires { (1 ≤ self.old.len) × (from ≤ length words.now) }
        ensures { (result ≡ (to_end self.old (drop from words.now) from).at) × (self.new ≡ (to_end self.old (drop from words.now) from).pending) }
    {
        for (i, word) in words[from..].iter().enumerate() {
            match wire::receive(*word) {
                Some(b'*') => return from + i,
                Some(c) if self.len < MOST => self.push(c),
                _ => {
                    *self = Pending::new();
                    return from + i + 1;
                }
            }
        }
        words.len()
    }

    // Takes the words from a place on, up to a `*` that closes the open message: that one is left. No message is heard on the way. Gives
    // the place of the next word.
    pub fn to_close(&mut self, words: &[u16], from: usize) -> usize
        ensures { (result ≡ (to_close self.old (drop from words.now) from).at) × (self.new ≡ (to_close self.old (drop from words.now) from).pending) }
    {
        let mut at = from;
        // The place goes on by as many words as a loop below took, so no `for` counts it.
        while at < words.len() {
            if self.len == 0 {
                at = to_letter(words, at);
                let Some(letter) = words.get(at) else {
                    break;
                };
                *self = Pending::new().add((letter % 128) as u8);
                at += 1;
            } else {
                at = self.to_end(words, at);
                if self.len != 0 {
                    break;
                }
            }
        }
        at
    }

    // 0 to 10 seven-bit characters without `*`, the first `L` or `R`, and 0 behind.
    pub fn is_sound(self) -> bool
        ensures { result ≡ sound_pending self }
    {
        let Pending { chars, len } = self;
        if MOST < len {
            return false;
        }
        plain(&chars[..len]) & zeros(&chars[len..]) & ((len == 0) | message::is_letter(chars[0]))
    }
}

#[tactic(auto, unfolding(crate::specs::Hearing::opening))]
fn opening(received: Option<u8>) -> Action
    ensures { result ≡ opening received }
{
    match received {
        Some(c) if message::is_letter(c) => Action::Open(c),
        _ => Action::Ignore,
    }
}

#[tactic(auto, unfolding(crate::specs::Hearing::continuing))]
fn continuing(received: Option<u8>) -> Action
    ensures { result ≡ continuing received }
{
    match received {
        Some(b'*') => Action::Close,
        Some(c) => Action::Add(c),
        None => Action::Drop,
    }
}

// What a word does, done.
#[tactic(auto, using(crate::proofs::Words::hears_closed, crate::proofs::Words::hears_other))]
pub fn hear(mut pending: Pending, word: u16) -> Hearing
    ensures { result ≡ hear pending word }
{
    if pending.take(word) {
        return Hearing {
            pending: Pending::new(),
            message: pending.close(),
        };
    }
    Hearing {
        pending,
        message: None,
    }
}

// Whether the word is a letter in good parity.
#[tactic(auto, unfolding(crate::specs::Inner::is_opening))]
fn is_opening(word: u16) -> bool
    ensures { result ≡ is_opening (received word) }
{
    wire::receive(word).is_some_and(message::is_letter)
}

// The place of the next letter in good parity, or behind the last word.
fn to_letter(words: &[u16], from: usize) -> usize
    requires { from ≤ length words.now }
    ensures { result ≡ to_letter (drop from words.now) from }
{
    match words[from..].iter().position(|word| is_opening(*word)) {
        Some(i) => from + i,
        None => words.len(),
    }
}

// The normal form of a recording.
pub fn normal_form(words: &[u16], out: &mut [u16]) -> Result<usize, Refusal>
    ensures { call_of result out.new ≡ normal_call words.now out.old }
{
    if !wire::valid_words(words) {
        return Err(Refusal::WordAbove256);
    }
    if !passes::fits(words, out.len()) {
        return Err(Refusal::RoomTooShort);
    }
    Ok(passes::fill(words, out))
}

fn plain(chars: &[u8]) -> bool
    ensures { result ≡ plain chars.now }
{
    chars.iter().all(|c| (*c < 128) & (*c != b'*'))
}

fn zeros(chars: &[u8]) -> bool
    ensures { result ≡ zeros chars.now }
{
    chars.iter().all(|c| *c == 0)
}
