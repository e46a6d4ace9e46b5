// What the programs share: the lines of standard input one by one, and the lines that are written.
//
// No contract can say what is read from standard input or written to standard output: the programs'
// stored runs show it. A read or a write that fails is an error of the system's, which ends the program.
#![tactic(auto)]

ghost use Rattle.std.specs.Prelude.{◌≡◌, false, [], ◌∷◌, length, replicate, min, ◌≤◌, IfOk, IfErr};
ghost use Rattle.text_print.specs.Lines.{behind, Puts};
ghost use Rattle.text_put.specs.Put.{complaint_texts};

use std::io::{self, Read, Stdin, Stdout, Write};
use text_lines::{Lines, Seen};
use text_print::Line;

// Writes a line to standard output. Whether that went well or not, it then ends with LF where it has room.
pub fn write_line(mut to: Stdout, line: &mut Line<'_>) -> io::Result<()>
    ensures { Puts ((10 ∷ []) ∷ []) line.old line.new }
{
    line.text(b"\n");
    let end = line.pos;
    let out = &mut *line.out;
    to.write_all(text_put::first(out, end))
}

// Writes that line to standard output, and answers the position behind its text.
pub fn complain(to: Stdout, number: u64, what: &[u8]) -> io::Result<usize>
    ensures { IfOk result (λ r. r ≡ behind (complaint_texts number what.now) 0 (replicate 64 0)) }
{
    let mut out = [0u8; 64];
    let mut line = Line::new(&mut out);
    text_put::complaint(&mut line, number, what);
    let at = line.pos;
    write_line(to, &mut line)?;
    Ok(at)
}

// Where the reading of standard input is: in the line that is being read, and in the bytes that the
// lent buffer holds of the last read; and whether the input has ended.
// Kept: places in the program's buffer, since there is no heap.
#[derive(Clone, Copy)]
pub struct Input {
    pub lines: Lines,
    pub at: usize,
    pub end: usize,
    pub ended: bool,
}

// A line that came: what it is, and its number.
#[derive(Clone, Copy)]
pub struct Came {
    pub seen: Seen,
    pub number: u64,
}

pub fn start() -> Input
    ensures { result ≡ record { lines = record { len = 0; long = false; number = 1 }; at = 0; end = 0; ended = false } }
{
    Input {
        lines: text_lines::new(),
        at: 0,
        end: 0,
        ended: false,
    }
}

// The next byte of the input, which is read into the lent buffer where none is left there; none at its
// end. A read that fails leaves the reading where it was, behind the last byte that was given.
fn byte(mut from: Stdin, input: &mut Input, buf: &mut [u8]) -> io::Result<Option<u8>>
    ensures buf_length { length buf.new ≡ length buf.old }
    ensures input_on_err { IfErr result (λ e. input.new ≡ input.old) }
    ensures none_left { IfErr result (λ e. min input.old.end (length buf.old) ≤ input.old.at) }
{
    if input.end.min(buf.len()) <= input.at {
        let n = from.read(buf)?;
        input.at = 0;
        input.end = n;
        if n == 0 {
            input.ended = true;
            return Ok(None);
        }
    }
    let c = buf[input.at];
    input.at += 1;
    Ok(Some(c))
}

// The next line of standard input, in the lent `line`; none at the end of the input, where a last line
// without LF counts. It reads into the lent `buf` only where a line is not whole yet, so that a line is
// answered before the next one is needed. A proved loop has to end, so it has a number of turns that no
// run uses up.
//
// What is read may be anything, so the contract has what holds of every read: the two buffers are as
// long as before, and a read that fails leaves nothing in `buf` that is still to be given, so that the
// next call goes on behind what was given.
pub fn next(
    from: Stdin,
    input: &mut Input,
    buf: &mut [u8],
    line: &mut [u8],
) -> io::Result<Option<Came>>
    ensures buf_length { length buf.new ≡ length buf.old }
    ensures line_length { length line.new ≡ length line.old }
    ensures none_left { IfErr result (λ e. min input.new.end (length buf.new) ≤ input.new.at) }
    ensures goes_on { IfErr result (λ e. input.new.ended ≡ false) }
{
    for _ in 0..u64::MAX {
        if input.ended {
            return Ok(None);
        }
        let stepped = match byte(from, input, buf)? {
            Some(c) => text_lines::step(input.lines, c, line),
            None => text_lines::last(input.lines, line),
        };
        input.lines = stepped.lines;
        if let Some(seen) = stepped.seen {
            let number = stepped.number;
            return Ok(Some(Came { seen, number }));
        }
    }
    Ok(None)
}
