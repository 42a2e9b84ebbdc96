// The bench cases of document 01, cases of the requests and the worked examples of the manuals, played through the public calls. Each
// case is played twice from the start: `card::run` takes each message at once, and `card::step` takes it word by word. Where many cards
// share a pair, `bus::run` does both.
//
// Standard input has a line for each case, in fields with one space between them:
//
//     NAME CARD CHANGE SENT ANSWER SENT ANSWER ..
//
// CARD is one of these, and behind it the address where that isn't 7, as `C33`:
//
//     B  the rows of document 01's bench cases; no scan
//     E  the same rows; scan `M` `m` `J` `J` `M`
//     F  the same rows, letter `R`; scan `J` `m` `M` `J`
//     C  DCP 100 controller with two outputs; scan `S` `M` `W` `W` `L`
//     D  the sheet of C; scan `S` `M` `W` `L`, that of a controller with one output
//     P  DCP 100 programmer, letter `R`; no scan
//     U  UDI 1500; scan `M` `A` `B` `T` `L`
//     T  rows `a` to `d` for Table 5-1; scan `a` `b` `c` `d`
//     M  three cards on one pair: B and F, both at address 7, and E
//
// The address behind M is that of its E, so `M` alone has two cards alike. In small letters, as `b` or `c33`, it is the same card of
// revision 2; otherwise its revision is 1. The letter is `L` where none is named; no message open and no offer.
// CHANGE is one initial value that the case has otherwise, as `m=1000`, in units of the last decimal; `-` where there is none. Each card
// of M has it.
// SENT is a message, each character in good parity, but for `{256}`, a silence; `{M!}`, an `M` in bad parity; `{sp}`, a space.
// ANSWER is what the card says to all of it, and `-` is silence. It may end in the cause that the last word of SENT gives word by word, as
// `L7X00000N*:1` or `-:10.3`: `:` and its code, and for a message that isn't well formed `.` and the position in it. Without `:` no cause
// is compared; a run has none, and so M has none. On M it may be a refusal, as `!8`: `!` and its number. `{?}` is a word that is refused.
// A case has at most `player::MESSAGES` messages.
//
// Standard output has a line for each case, `NAME ok` or `NAME differs at K`, K the first message whose answer is another (0 where
// the line is no case), and then how many cases there are and how many differ. The empty line is no case.
#![tactic(auto)]

ghost use Rattle.std.specs.Prelude.{◌≤◌, IfOk, length};

use std::io;
use std::io::Read;

mod cards;
mod pair;
mod player;
mod reader;

// What the input may hold.
const ROOM: usize = 16384;

// How many cases there were, and how many of them differ.
#[derive(Clone, Copy)]
struct Count {
    cases: u64,
    differ: u64,
}

// Reads until the room is full or the input ends; answers how many bytes that were. Each read says how far it came, so no iterator counts it.
fn read_full(input: &mut impl Read, room: &mut [u8]) -> io::Result<usize>
    ensures { IfOk result (λ n. n ≤ length room.new) }
{
    let mut done = 0;
    while done < room.len() {
        let n = input.read(&mut room[done..])?;
        if n == 0 {
            break;
        }
        done += n;
    }
    Ok(done)
}

// Plays the case and writes its line; answers whether it differs.
fn show(rt: &impl Print, line: &[u8]) -> io::Result<bool> {
    rt.write_all(reader::field(line).0)?;
    match cards::play(line) {
        Ok(()) => {
            println!(rt; " ok")?;
            Ok(false)
        }
        Err(k) => {
            println!(rt; " differs at {k}")?;
            Ok(true)
        }
    }
}

// All the lines; the empty line is no case.
fn show_all(rt: &impl Print, text: &[u8]) -> io::Result<Count> {
    let mut count = Count {
        cases: 0,
        differ: 0,
    };
    for line in text.split(|c| *c == b'\n') {
        if line.is_empty() {
            continue;
        }
        count.cases = count.cases.wrapping_add(1);
        if show(rt, line)? {
            count.differ = count.differ.wrapping_add(1);
        }
    }
    Ok(count)
}

fn main(rt: HostRuntime) -> io::Result<()> {
    let mut text = [0u8; ROOM];
    let n = read_full(&mut rt.reader(), &mut text)?;
    if n == ROOM {
        return println!(rt; "too much input");
    }
    let Count { cases, differ } = show_all(&rt, &text[..n])?;
    println!(rt; "{cases} cases, {differ} differ")
}
