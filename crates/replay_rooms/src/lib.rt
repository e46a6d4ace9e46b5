// The test of a call that writes into a lent buffer: into rooms of 0, 1, 2, .. bytes, over two fills.
//
// A call that a room is too short for has to refuse it and write nothing, and every other has to write all
// of its bytes and none behind them.
#![tactic(auto)]

ghost use Rattle.std.specs.Prelude.{ℕ, ◌≡◌, List, length, ◌≤◌, Result};
ghost use Rattle.codec.specs.declared.Error.{Error};
ghost use Rattle.text_print.specs.Lines.{Puts};
ghost use Rattle.replay_rooms.specs.Rooms.{all_of, untouched_of, wrote_of, rooms_texts};

use codec::{Error, Refusal};
use text_print::Line;

// A call that is to be tried: what it is called with stands in the value, all but the buffer.
pub trait Attempt {
    ghost answer: { Self → List ℕ → Result ℕ Error };

    ghost after: { Self → List ℕ → List ℕ };

    fn write(&self, out: &mut [u8]) -> Result<usize, Error>
        ensures value { result ≡ answer self.now out.old }
        ensures out_after { out.new ≡ after self.now out.old };
}

// Whether all bytes are v.
fn all(bytes: &[u8], v: u8) -> bool
    ensures { result ≡ all_of v bytes.now }
{
    bytes.iter().all(|b| *b == v)
}

// Whether a call on bytes v refused with this number and wrote nothing.
// Kept: a refusal by its number: `untouched_of` and the laws `other_number`, `this_number` compare numbers.
fn untouched(w: Result<usize, Error>, number: u8, out: &[u8], v: u8) -> bool
    ensures { result ≡ untouched_of w number out.now v }
{
    match w {
        Ok(_) => false,
        Err(e) => u8::from(Refusal::from(e)) == number && all(out, v),
    }
}

// Whether a call on bytes v wrote these bytes and nothing behind them.
#[tactic(auto, using(codec::specs::CasesLaws::same_eq))]
fn written(w: Result<usize, Error>, full: &[u8], out: &[u8], v: u8) -> bool
    ensures { result ≡ wrote_of w full.now out.now v }
{
    match w {
        Ok(n) => {
            n == full.len() && text_put::first(out, n) == full && all(cursor::remaining(n, out), v)
        }
        Err(_) => false,
    }
}

// One room, over bytes v: refused with this number and nothing written, or written whole.
fn refuses<T: Attempt>(attempt: &T, number: u8, room: usize, v: u8) -> bool {
    let mut out = [v; 1032];
    if 1032 < room {
        return false;
    }
    let out = &mut out[..room];
    untouched(attempt.write(out), number, out, v)
}

// Kept beside `refuses`: a closure for the test would stand in each of four calls (no plainer).
fn writes<T: Attempt>(attempt: &T, full: &[u8], room: usize, v: u8) -> bool {
    let mut out = [v; 1032];
    if 1032 < room {
        return false;
    }
    let out = &mut out[..room];
    written(attempt.write(out), full, out, v)
}

// How many rooms from 0 on refuse with this number, and how many from there on are written.
pub fn attempt_refusing<T: Attempt>(attempt: &T, number: u8, most: usize) -> usize
    ensures { result ≤ most }
{
    for room in 0..most {
        if !(refuses(attempt, number, room, 0xAA) && refuses(attempt, number, room, 0x55)) {
            return room;
        }
    }
    most
}

fn writing<T: Attempt>(attempt: &T, full: &[u8], from: usize, most: usize) -> usize
    requires { from ≤ most }
{
    for room in from..most {
        if !(writes(attempt, full, room, 0xAA) && writes(attempt, full, room, 0x55)) {
            return room - from;
        }
    }
    most - from
}

// A text and ROOMS.
#[tactic(auto, unfolding(text_print::specs::Lines::behind, text_print::specs::Lines::holding))]
fn rooms(line: &mut Line<'_>, name: &[u8], untouched: usize, encoded: usize)
    ensures { Puts (rooms_texts name.now untouched encoded) line.old line.new }
{
    text_put::count(line, name, untouched as u64);
    text_put::count(line, b"/", encoded as u64);
}

// ROOMS of a call that is to write these bytes, behind a text.
#[tactic(auto, using(crate::proofs::Kept::kept))]
pub fn attempt_tried<T: Attempt>(attempt: &T, full: &[u8], line: &mut Line<'_>, name: &[u8])
    // The line keeps its length; its words are compared with the Rust, and not proved.
    ensures { length line.new.out.now ≡ length line.old.out.now }
{
    let n = full.len();
    if 1028 < n {
        line.text(b" too long");
        return;
    }
    let refused = attempt_refusing(attempt, 1, n + 4);
    rooms(line, name, refused, writing(attempt, full, refused, n + 4));
}

// The same of any closure, in functions of their own: what a closure answers need not be a function of the
// buffer, as an attempt's answer is, and who takes one has to require that it may be called.
// Kept beside those of an attempt: they take a closure as it stands (what may not change).
fn call_refuses<F: Fn(&mut [u8]) -> Result<usize, Error>>(
    call: &F,
    number: u8,
    room: usize,
    v: u8,
) -> bool
    requires { F.IsAlwaysCallable call.now }
{
    let mut out = [v; 1032];
    if 1032 < room {
        return false;
    }
    let out = &mut out[..room];
    untouched(call(out), number, out, v)
}

fn call_writes<F: Fn(&mut [u8]) -> Result<usize, Error>>(
    call: &F,
    full: &[u8],
    room: usize,
    v: u8,
) -> bool
    requires { F.IsAlwaysCallable call.now }
{
    let mut out = [v; 1032];
    if 1032 < room {
        return false;
    }
    let out = &mut out[..room];
    written(call(out), full, out, v)
}

// How many rooms from 0 on refuse with this number, and how many from there on are written.
// A closure has to be callable, which every one is that asks nothing of the buffer that it is handed.
pub fn refusing<F: Fn(&mut [u8]) -> Result<usize, Error>>(
    call: &F,
    number: u8,
    most: usize,
) -> usize
    requires { F.IsAlwaysCallable call.now }
    ensures { result ≤ most }
{
    for room in 0..most {
        if !(call_refuses(call, number, room, 0xAA) && call_refuses(call, number, room, 0x55)) {
            return room;
        }
    }
    most
}

fn call_writing<F: Fn(&mut [u8]) -> Result<usize, Error>>(
    call: &F,
    full: &[u8],
    from: usize,
    most: usize,
) -> usize
    requires callable { F.IsAlwaysCallable call.now }
    requires order { from ≤ most }
{
    for room in from..most {
        if !(call_writes(call, full, room, 0xAA) && call_writes(call, full, room, 0x55)) {
            return room - from;
        }
    }
    most - from
}

// ROOMS of a closure that is to write these bytes, behind a text.
// A closure has to be callable, which every one is that asks nothing of the buffer that it is handed.
#[tactic(auto, using(crate::proofs::Kept::kept))]
pub fn tried<F: Fn(&mut [u8]) -> Result<usize, Error>>(
    call: &F,
    full: &[u8],
    line: &mut Line<'_>,
    name: &[u8],
)
    requires { F.IsAlwaysCallable call.now }
    // The line keeps its length; its words are not proved, and a test has them.
    ensures { length line.new.out.now ≡ length line.old.out.now }
{
    let n = full.len();
    if 1028 < n {
        line.text(b" too long");
        return;
    }
    let refused = refusing(call, 1, n + 4);
    let encoded = call_writing(call, full, refused, n + 4);
    rooms(line, name, refused, encoded);
}

#[cfg(test)]
mod tests {
    use super::*;
    use std::test::Fail;

    fn holds(what: &'static str, is: bool) -> Result<(), &'static str> {
        is.then_some(()).ok_or(what)
    }

    // Three bytes are refused by the rooms of 0, 1 and 2, and stand in each from 3 on: of seven rooms in four.
    #[test]
    fn three_bytes() -> Result<(), Fail> {
        let call = |room: &mut [u8]| codec::write_bytes(b"abc", room);
        holds("rooms of 0 to 2", refusing(&call, 1, 7) == 3)?;
        holds("another number", refusing(&call, 2, 7) == 0)?;
        let mut buf = [0u8; 16];
        let mut line = Line::new(&mut buf);
        tried(&call, b"abc", &mut line, b" ");
        tried(&call, b"abd", &mut line, b" ");
        holds("words", line.pos == 8 && line.out.starts_with(b" 3/4 3/0"))?;
        Ok(())
    }

    // A refusal that has written shows in the first room that has a byte.
    #[test]
    fn refused_and_written() -> Result<(), Fail> {
        let call = |room: &mut [u8]| -> Result<usize, Error> {
            room.fill(0);
            Err(Error::InsufficientSpace)
        };
        holds("room of 1", refusing(&call, 1, 7) == 1)?;
        Ok(())
    }
}
