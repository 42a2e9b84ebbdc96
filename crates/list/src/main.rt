// Lists a recording: words from standard input, two bytes each, low byte first; on standard output a line for each message heard.
// All that a listing says is in the crate `listing`; here it is read and written.
#![tactic(auto)]

ghost use Rattle.std.specs.Prelude.{◌+◌, ◌≤◌, length, IfOk, IfSome};
ghost use Rattle.list.specs.State.{Within};

use listing::{Ending, Listed, Progress, Stop};
use std::io::{self, Read};

// 4,096 words.
const BYTES: usize = 8192;

// The lines of a buffer of words fill less than this.
const ROOM: usize = 32768;

// How far the program is: `from` to `len` are the bytes read and not yet listed, and `used` bytes of output wait to be written. The two buffers
// are fixed memory, so what stands in them is a length.
#[derive(Clone, Copy)]
struct State {
    progress: Progress,
    from: usize,
    len: usize,
    used: usize,
}

// Reads until the buffer is full or the input ends: a short read is not its end. Each read says how far it came, so no iterator counts it.
fn fill<R: Read>(input: &mut R, bytes: &mut [u8]) -> io::Result<usize>
    ensures { IfOk result (λ count. count ≤ length bytes.new) }
{
    let mut count = 0;
    while count < bytes.len() {
        match input.read(&mut bytes[count..])? {
            0 => break,
            more => count += more,
        }
    }
    Ok(count)
}

// Writes to standard output, or says why it can't.
fn flush<P: Print + Eprint>(rt: &P, bytes: &[u8]) -> bool {
    match rt.write_all(bytes) {
        Ok(()) => true,
        Err(e) => {
            let _ = eprintln!(rt; "standard output: {e}");
            false
        }
    }
}

// Puts the last line behind what waits, and writes both.
fn write_last<P: Print + Eprint>(rt: &P, ending: Ending, used: usize, out: &mut [u8])
    requires { used ≤ length out.old }
{
    if let Ok(n) = listing::last(ending, &mut out[used..]) {
        flush(rt, &out[..used + n]);
    }
}

// The last line, in one piece with what waits where there is room for both.
fn finish<P: Print + Eprint>(rt: &P, ending: Ending, used: usize, out: &mut [u8])
    requires { used ≤ length out.old }
{
    if listing::LONGEST_LINE <= out.len() - used {
        write_last(rt, ending, used, out);
    } else if flush(rt, &out[..used]) {
        write_last(rt, ending, 0, out);
    }
}

// Reads the next buffer. Where that fails, that is said on standard error, what waits is written, and no last line follows.
fn refill<R: Read, P: Print + Eprint>(
    input: &mut R,
    rt: &P,
    state: State,
    bytes: &mut [u8],
    out: &[u8],
) -> Option<State>
    requires { state.used ≤ length out.now }
    ensures { IfSome result (λ next. Within next bytes.new out.now) }
{
    match fill(input, bytes) {
        Ok(len) => Some(State {
            from: 0,
            len,
            ..state
        }),
        Err(e) => {
            let _ = eprintln!(rt; "standard input: {e}");
            flush(rt, &out[..state.used]);
            None
        }
    }
}

// The lines of these bytes, behind what waits.
fn list_behind(progress: Progress, bytes: &[u8], used: usize, out: &mut [u8]) -> Listed
    requires { used ≤ length out.old }
    ensures { (result.taken + result.taken ≤ length bytes.now) × (used + result.written ≤ length out.new) }
{
    listing::list(progress, bytes, &mut out[used..])
}

// Lists the bytes that are left of the buffer. Where the output is full, it is written, and the rest is left for the next turn. None: all
// is written, or can't be.
fn list_rest<P: Print + Eprint>(rt: &P, state: State, bytes: &[u8], out: &mut [u8]) -> Option<State>
    requires { Within state bytes.now out.old }
    ensures { IfSome result (λ next. Within next bytes.now out.new) }
{
    let State {
        progress,
        from,
        len,
        used,
    } = state;
    let listed = list_behind(progress, &bytes[from..len], used, out);
    let progress = listed.progress;
    let from = from + 2 * listed.taken;
    let used = used + listed.written;
    match listed.stop {
        Stop::Done => Some(State {
            progress,
            from,
            len,
            used,
        }),
        Stop::Full => flush(rt, &out[..used]).then_some(State {
            progress,
            from,
            len,
            used: 0,
        }),
        Stop::Bad => {
            finish(rt, Ending::Bad(progress.at), used, out);
            None
        }
    }
}

// The end of the input: less than a word is left.
fn end<P: Print + Eprint>(rt: &P, state: State, out: &mut [u8])
    requires { state.used ≤ length out.old }
{
    let ending = if state.from < state.len {
        Ending::Odd
    } else {
        Ending::End(state.progress.count)
    };
    finish(rt, ending, state.used, out);
}

// One turn: words that are left are listed; otherwise the next buffer is read, until one is not filled. Buffers are of even length, so
// a byte without its other half is left at the end of the input only.
fn turn<R: Read, P: Print + Eprint>(
    input: &mut R,
    rt: &P,
    state: State,
    bytes: &mut [u8],
    out: &mut [u8],
) -> Option<State>
    requires { Within state bytes.old out.old }
    ensures { IfSome result (λ next. Within next bytes.new out.new) }
{
    if 1 < state.len - state.from {
        list_rest(rt, state, bytes, out)
    } else if state.len < bytes.len() {
        end(rt, state, out);
        None
    } else {
        refill(input, rt, state, bytes, out)
    }
}

// A proved loop has to end, and nothing says that an input does: the turns are of a number that no run uses up.
fn run<R: Read, P: Print + Eprint>(
    input: &mut R,
    rt: &P,
    mut state: State,
    bytes: &mut [u8],
    out: &mut [u8],
)
    requires { Within state bytes.old out.old }
{
    for _ in 0..u64::MAX {
        let Some(next) = turn(input, rt, state, bytes, out) else {
            return;
        };
        state = next;
    }
}

// The first turn reads, as behind a full buffer that is listed.
fn main(rt: HostRuntime) {
    let heading = listing::heading();
    let mut out = [0; ROOM];
    out[..heading.len()].copy_from_slice(&heading);
    let mut bytes = [0; BYTES];
    let state = State {
        progress: listing::start(),
        from: BYTES,
        len: BYTES,
        used: heading.len(),
    };
    run(&mut rt.stdin(), &rt, state, &mut bytes, &mut out);
}
