// The listing of a recording: the line of a message, the lines of a buffer of words, and the last line.
#![tactic(auto)]

ghost use Rattle.std.specs.Prelude.{◌≡◌, ℕ, ◌+◌, ◌<◌, ◌≤◌, List, [], ◌∷◌, ◌++◌, length, drop};
ghost use Rattle.refusal.specs.Call.{call_of, writes, place_call};
ghost use Rattle.wire.specs.Text.{chars};
ghost use Rattle.message.specs.Spell.{spell_address, kind_of};
ghost use Rattle.listing.specs.Line.{decimal, kind_and_data, line, line_call};
ghost use Rattle.listing.specs.Listing.{heading, start, last_line, list_call_of, list_call};
ghost use Rattle.listing.specs.Inner.{longest_line};

use hearing::Pending;
use message::{Body, Kind, Message};
use refusal::Refusal;
use std::marker::Model;

// The longest line: a position of twenty digits, and a message with data.
pub const LONGEST_LINE: usize = 35;

// The greatest word: a line that was silent for the time of a byte.
const SILENCE: u16 = 256;

// How far the listing has come: the open message, the position of the next word, the messages so far.
#[derive(Clone, Copy)]
pub struct Progress {
    pub pending: Pending,
    pub at: u64,
    pub count: u64,
}

// Why a call stopped: all words are taken, the next word is above 256, or its line has no room.
#[derive(Clone, Copy)]
pub enum Stop {
    Done,
    Bad,
    Full,
}

// What a call over a buffer has done.
#[derive(Clone, Copy)]
pub struct Listed {
    pub progress: Progress,
    pub taken: usize,
    pub written: usize,
    pub stop: Stop,
}

// How a listing ends: with the number of messages, at the position of a bad word, or with a lone byte.
#[derive(Clone, Copy)]
pub enum Ending {
    End(u64),
    Bad(u64),
    Odd,
}

// The first line of every listing.
pub fn heading() -> [u8; 21]
    ensures { result ≡ heading }
{
    *b"AT CARD ID KIND DATA\n"
}

// Before the first word.
#[tactic(auto, unfolding(crate::specs::Listing::start))]
pub fn start() -> Progress
    ensures { result ≡ start }
{
    Progress {
        pending: Pending::new(),
        at: 0,
        count: 0,
    }
}

// A text that is built from its last character to its first: those put so far stand at the end of the array. It is put together before
// anything is written, since a line that has no room leaves the caller's buffer as it was; `write!` would have written a part of it.
#[derive(Drop)]
struct Text {
    array: [u8; LONGEST_LINE],
    from: usize,
}

impl Model for Text {
    ghost Value = { List ℕ };

    ghost view = { λ t. drop t.from t.array };

    ghost invariant = { λ t. t.from ≤ longest_line };
}

impl Text {
    fn new() -> Text
        ensures { result ≡ [] }
    {
        Text {
            array: [0; LONGEST_LINE],
            from: LONGEST_LINE,
        }
    }

    fn characters(&self) -> &[u8]
        ensures { result.now ≡ self.now }
    {
        &self.array[self.from..]
    }

    // One character.
    fn put(&mut self, c: u8)
        requires { 1 + length self.old ≤ longest_line }
        ensures { self.new ≡ c ∷ self.old }
    {
        self.from -= 1;
        self.array[self.from] = c;
    }

    // These characters.
    fn put_all(&mut self, characters: &[u8])
        requires { length characters.now + length self.old ≤ longest_line }
        ensures { self.new ≡ characters.now ++ self.old }
    {
        let end = self.from;
        self.from -= characters.len();
        self.array[self.from..end].copy_from_slice(characters);
    }

    // The decimal digits of a number, without leading zeros. The place is a local while they are put, so that it need not go to memory for each.
    fn put_decimal(&mut self, n: u64)
        requires { 20 + length self.old ≤ longest_line }
        ensures { self.new ≡ decimal n ++ self.old }
    {
        let mut from = self.from;
        let mut rest = n;
        while 9 < rest {
            from -= 1;
            self.array[from] = b'0' + (rest % 10) as u8;
            rest /= 10;
        }
        from -= 1;
        self.array[from] = b'0' + rest as u8;
        self.from = from;
    }

    // An address without a leading zero.
    #[tactic(auto, using(message::proofs::Examples::address_one, message::proofs::Examples::address_two))]
    fn put_address(&mut self, address: u8)
        requires { 2 + length self.old ≤ longest_line }
        ensures { self.new ≡ spell_address address ++ self.old }
    {
        if address <= 9 {
            self.put(b'0' + address);
        } else {
            self.put(b'0' + address % 10);
            self.put(b'0' + address / 10);
        }
    }

    // The body's sign, and its data or `-`.
    #[tactic(auto, unfolding(crate::specs::Line::kind_and_data))]
    fn put_body(&mut self, body: Body)
        requires { 7 + length self.old ≤ longest_line }
        ensures { self.new ≡ kind_and_data (kind_of body) ++ self.old }
    {
        match message::kind_of(body) {
            Kind::Sign(sign) => {
                self.put_all(b" -");
                self.put(sign);
            }
            Kind::Data(numeral) => {
                self.put_all(&number::write_numeral(numeral));
                self.put_all(b"# ");
            }
        }
    }

    // The line of a message whose `*` stands at a position. It is put where the text is: handed out by value, a line takes a quarter more time.
    #[tactic(auto, using(crate::proofs::Texts::kind_few, crate::proofs::Texts::address_few), unfolding(crate::specs::Line::line))]
    fn put_line(&mut self, at: u64, message: Message)
        requires { self.old ≡ [] }
        ensures { self.new ≡ line at message }
    {
        self.put(b'\n');
        self.put_body(message.body);
        self.put_all(&[b' ', message.identifier, b' ']);
        self.put_address(message.address);
        self.put_all(&[b' ', message.letter]);
        self.put_decimal(at);
    }

    // A word of four characters, a number and the line's end.
    fn numbered(word: &[u8; 4], n: u64) -> Text
        ensures { result ≡ word.now ++ (decimal n ++ chars "\n") }
    {
        let mut text = Text::new();
        text.put(b'\n');
        text.put_decimal(n);
        text.put_all(word);
        text
    }

    // The last line.
    #[tactic(auto, unfolding(crate::specs::Listing::last_line))]
    fn last(ending: Ending) -> Text
        ensures { result ≡ last_line ending }
    {
        match ending {
            Ending::End(count) => Text::numbered(b"END ", count),
            Ending::Bad(at) => Text::numbered(b"BAD ", at),
            Ending::Odd => {
                let mut text = Text::new();
                text.put_all(b"ODD\n");
                text
            }
        }
    }
}

// The line of a message into a buffer from a place on, where it fits.
fn place_line(at: u64, message: Message, out: &mut [u8], written: usize) -> Result<usize, Refusal>
    ensures { call_of result out.new ≡ place_call (line at message) written out.old }
{
    let mut text = Text::new();
    text.put_line(at, message);
    wire::place(text.characters(), out, written)
}

// The line of a message at the front of a buffer.
#[tactic(auto, using(crate::proofs::Calls::line_refused, crate::proofs::Calls::line_placed))]
pub fn line(at: u64, message: Message, out: &mut [u8]) -> Result<usize, Refusal>
    ensures { call_of result out.new ≡ line_call at message out.old }
{
    if !message::is_message(message) {
        return Err(Refusal::NotMessage);
    }
    place_line(at, message, out, 0)
}

// The last line at the front of a buffer.
#[tactic(auto, using(refusal::proofs::Calls::placed_writes))]
pub fn last(ending: Ending, out: &mut [u8]) -> Result<usize, Refusal>
    ensures { call_of result out.new ≡ writes [] (last_line ending) out.old }
{
    wire::place(Text::last(ending).characters(), out, 0)
}

// The lines of a buffer of words, two bytes each, from the front of `out` on. Words are taken until fewer than two bytes are left,
// a word is above 256, or its line no longer fits. The next call begins behind the words taken, with the progress given. Only a
// word that closes a message can have a line.
pub fn list(mut progress: Progress, bytes: &[u8], out: &mut [u8]) -> Listed
    ensures { list_call_of result out.new ≡ list_call progress bytes.now out.old }
{
    let (words, _) = bytes.as_chunks::<2>();
    let mut written = 0;
    for (taken, [low, high]) in words.iter().enumerate() {
        let word = wire::word_of(*low, *high);
        if SILENCE < word {
            return Listed {
                progress,
                taken,
                written,
                stop: Stop::Bad,
            };
        }
        if progress.pending.take(word) {
            if let Some(message) = progress.pending.close() {
                let Ok(n) = place_line(progress.at, message, out, written) else {
                    return Listed {
                        progress,
                        taken,
                        written,
                        stop: Stop::Full,
                    };
                };
                progress.count = progress.count.wrapping_add(1);
                written += n;
            }
            progress.pending = Pending::new();
        }
        progress.at = progress.at.wrapping_add(1);
    }
    Listed {
        progress,
        taken: words.len(),
        written,
        stop: Stop::Done,
    }
}
