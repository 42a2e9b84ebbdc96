// The line: words, characters, even parity, and a short buffer of bytes as they travel.
#![tactic(auto)]

ghost use Rattle.std.specs.Prelude.{◌≡◌, length, []};
ghost use Rattle.refusal.specs.Call.{call_of, writes, place_call};
ghost use Rattle.wire.specs.Word.{even_parity, with_parity, received, valid_words};
ghost use Rattle.wire.specs.Bytes.{word_of, long_of};
ghost use Rattle.wire.specs.Inner.{empty, put, puts, bytes_of};

use refusal::Refusal;

// The longest message has this many bytes, `*` included.
pub const LONGEST_MESSAGE: usize = 11;

// Bytes as they travel, 0 behind the last. The array is of fixed length, since nothing is allocated; `len` says how many of it count.
#[derive(Clone, Copy, Debug, PartialEq, Eq)]
pub struct Line {
    pub bytes: [u8; LONGEST_MESSAGE],
    pub len: usize,
}

// Whether the number of ones in all eight bits is even.
#[tactic(auto, unfolding(crate::specs::Word::even_parity))]
pub fn has_even_parity(byte: u8) -> bool
    ensures { result ≡ even_parity byte }
{
    byte.count_ones() % 2 == 0
}

// The seven bits of a character, with the top bit that makes the parity even.
#[tactic(auto, unfolding(crate::specs::Word::with_parity))]
pub fn with_parity(character: u8) -> u8
    ensures { result ≡ with_parity character }
{
    let low = character % 128;
    let odd = low.count_ones() % 2;
    low + 128 * odd as u8
}

// The character that a word carries: none for a silence and for a byte in bad parity.
#[tactic(auto, unfolding(crate::specs::Word::received))]
pub fn receive(word: u16) -> Option<u8>
    ensures { result ≡ received word }
{
    match u8::try_from(word) {
        Ok(byte) if has_even_parity(byte) => Some(byte % 128),
        _ => None,
    }
}

// Whether no word is above 256. There is no early way out, so that many words are tested at a time.
pub fn valid_words(words: &[u16]) -> bool
    ensures { result ≡ valid_words words.now }
{
    words
        .iter()
        .fold(true, |valid, word| valid & (*word <= 256))
}

impl Line {
    #[tactic(auto, unfolding(crate::specs::Inner::empty))]
    pub fn new() -> Line
        ensures { result ≡ empty }
    {
        Line {
            bytes: [0; LONGEST_MESSAGE],
            len: 0,
        }
    }

    // One character more, in good parity; a full line stays as it is.
    #[tactic(auto, unfolding(crate::specs::Inner::put))]
    pub fn put(self, character: u8) -> Line
        ensures { result ≡ put self character }
    {
        let Line { mut bytes, len } = self;
        if LONGEST_MESSAGE <= len {
            return self;
        }
        bytes[len] = with_parity(character);
        Line {
            bytes,
            len: len + 1,
        }
    }

    // These characters more, one after the other.
    pub fn put_all(self, characters: &[u8]) -> Line
        ensures { result ≡ puts self characters.now }
    {
        characters
            .iter()
            .fold(self, |line, character| line.put(*character))
    }

    // How many bytes the line holds.
    #[tactic(auto, using(crate::proofs::Lines::bytes_count))]
    pub fn count(self) -> usize
        ensures { result ≡ length (bytes_of self) }
    {
        self.len.min(LONGEST_MESSAGE)
    }

    // The bytes of the line at the front of a buffer.
    #[tactic(auto, using(crate::proofs::Lines::counted_within, crate::proofs::Lines::counted_written))]
    pub fn write(self, out: &mut [u8]) -> Result<usize, Refusal>
        ensures { call_of result out.new ≡ writes [] (bytes_of self) out.old }
    {
        let end = self.count();
        place(&self.bytes[..end], out, 0)
    }
}

// All of the bytes into a buffer from a place on, where they fit.
#[tactic(auto, using(refusal::proofs::Calls::place_refuses, refusal::proofs::Calls::place_gives, refusal::proofs::Buffers::copied_placed))]
pub fn place(bytes: &[u8], out: &mut [u8], at: usize) -> Result<usize, Refusal>
    ensures { call_of result out.new ≡ place_call bytes.now at out.old }
{
    if out.len() < at || out.len() - at < bytes.len() {
        return Err(Refusal::RoomTooShort);
    }
    out[at..at + bytes.len()].copy_from_slice(bytes);
    Ok(bytes.len())
}

// Two bytes are a word, low byte first.
#[tactic(auto, unfolding(crate::specs::Bytes::word_of))]
pub fn word_of(low: u8, high: u8) -> u16
    ensures { result ≡ word_of low high }
{
    u16::from_le_bytes([low, high])
}

// Four bytes are a long word, low byte first.
#[tactic(auto, unfolding(crate::specs::Bytes::word_of, crate::specs::Bytes::long_of))]
pub fn long_of(a: u8, b: u8, c: u8, d: u8) -> u32
    ensures { result ≡ long_of a b c d }
{
    u32::from_le_bytes([a, b, c, d])
}
