// The answers of the port, for the comparison with the Rust: each line of standard input is a request,
// `? REQUEST`, which is answered, or `TAG REQUEST = REPLY`, whose answer is held to REPLY. oracle/README.md
// has the requests and the replies.
#![tactic(auto)]

ghost use Rattle.std.specs.Prelude.{◌≤◌, length};

use std::io::{self, Stdin, Stdout};
use text_lines::Seen;
use text_print::Line;

// The lines with a REPLY so far, and how many of them were answered otherwise.
#[derive(Clone, Copy)]
struct Tally {
    lines: u64,
    different: u64,
}

// The reply to a request: the words behind the first.
fn reply(line: &[u8], out: &mut [u8]) -> usize {
    match replay_base::letter(text_lines::word(line, 1)) {
        b'P' => replay_packets::packet(line, out),
        b'Y' => replay_packets::typed(line, out),
        b'U' => replay_values::uuid(line, out),
        b'V' => replay_values::same(line, out),
        b'T' => replay_values::text(line, out),
        b'D' => replay_values::decoded(line, out),
        b'E' => replay_values::encoded(line, out),
        b'R' => replay_walk::read(line, out),
        b'W' => replay_walk::write_walk(line, out),
        _ => {
            let mut line = Line::new(out);
            line.text(b"unknown request");
            line.pos
        }
    }
}

// Where the character c first stands between two blanks; the line's length where it does not.
fn mark(line: &[u8], c: u8) -> usize
    ensures { result ≤ length line.now }
{
    line.windows(3)
        .position(|w| w == [b' ', c, b' '].as_slice())
        .unwrap_or(line.len())
}

// What stands behind the mark.
fn behind(line: &[u8], c: u8) -> &[u8] {
    let at = mark(line, c);
    cursor::remaining(3, &line[at..])
}

// REPLY: behind ` = `, up to ` | ` or the end.
fn wanted(line: &[u8]) -> &[u8] {
    let reply = behind(line, b'=');
    text_put::first(reply, mark(reply, b'|'))
}

fn write_difference(to: Stdout, number: u64, own: &[u8]) -> io::Result<()> {
    let mut out = [0u8; 16448];
    let mut line = Line::new(&mut out);
    text_put::count(&mut line, b"line ", number);
    line.text(b": ");
    line.text(own);
    text_console::write_line(to, &mut line)
}

// A line with a REPLY: nothing is written where the answer is the same.
fn compare(to: Stdout, line: &[u8], number: u64, tally: &mut Tally) -> io::Result<()> {
    let mut out = [0u8; 16384];
    let n = reply(line, &mut out);
    let own = text_put::first(&out, n);
    tally.lines = tally.lines.saturating_add(1);
    if own != wanted(line) {
        write_difference(to, number, own)?;
        tally.different = tally.different.saturating_add(1);
    }
    Ok(())
}

fn answer(to: Stdout, line: &[u8]) -> io::Result<()> {
    let mut out = [0u8; 16384];
    let pos = reply(line, &mut out);
    text_console::write_line(to, &mut Line { out: &mut out, pos })
}

fn take(to: Stdout, seen: Seen, line: &[u8], number: u64, tally: &mut Tally) -> io::Result<()> {
    match seen {
        Seen::Line(n) => {
            let line = text_put::first(line, n);
            if replay_base::letter(text_lines::word(line, 0)) == b'?' {
                return answer(to, line);
            }
            compare(to, line, number, tally)
        }
        Seen::TooLong => {
            text_console::complain(to, number, b"too long")?;
            Ok(())
        }
        Seen::Passed => Ok(()),
    }
}

// How many lines had a REPLY, and how many of them were answered otherwise.
fn conclude(to: Stdout, tally: Tally) -> io::Result<()> {
    if tally.lines == 0 {
        return Ok(());
    }
    let mut out = [0u8; 128];
    let mut line = Line::new(&mut out);
    text_put::count(&mut line, b"compared ", tally.lines);
    text_put::count(&mut line, b", different ", tally.different);
    text_console::write_line(to, &mut line)
}

// A proved loop has to end, so it has a number of turns that no run uses up.
// Kept: the loop stands in each program: what lasts from line to line is its own (no plainer).
fn run(from: Stdin, to: Stdout, buf: &mut [u8], line: &mut [u8]) -> io::Result<()> {
    let mut input = text_console::start();
    let mut tally = Tally {
        lines: 0,
        different: 0,
    };
    for _ in 0..u64::MAX {
        let Some(came) = text_console::next(from, &mut input, buf, line)? else {
            return conclude(to, tally);
        };
        take(to, came.seen, line, came.number, &mut tally)?;
    }
    Ok(())
}

fn main(rt: HostRuntime) -> io::Result<()> {
    let mut buf = [0u8; 65536];
    // A line has up to 16,384 characters, and a CR.
    let mut line = [0u8; 16385];
    run(rt.stdin(), rt.stdout(), &mut buf, &mut line)
}
