// Packets in words: each line of standard input is a packet in HEX, and its answer is a line that names
// the packet and its fields, its size, and whether it is strict.
#![tactic(auto)]

use std::io::{self, Stdin, Stdout};
use text_hex::HexError;
use text_lines::Seen;
use text_print::Line;

// The longest answer has room in its line.
fn answer_packet(to: Stdout, src: &[u8]) -> io::Result<()> {
    let mut out = [0u8; 32768];
    let pos = explain_packet::line(src, &mut out);
    let mut line = Line { out: &mut out, pos };
    text_console::write_line(to, &mut line)
}

fn complain(to: Stdout, number: u64, what: &[u8]) -> io::Result<()> {
    text_console::complain(to, number, what)?;
    Ok(())
}

fn answer_line(to: Stdout, line: &[u8], number: u64) -> io::Result<()> {
    let mut src = [0u8; 2048];
    match text_hex::read_hex(line, &mut src) {
        Ok(n) => answer_packet(to, text_put::first(&src, n)),
        Err(HexError::NotHex) => complain(to, number, b"not hexadecimal"),
        Err(HexError::TooLong) => complain(to, number, b"too long"),
    }
}

fn answer(to: Stdout, seen: Seen, number: u64, line: &[u8]) -> io::Result<()> {
    match seen {
        Seen::Line(n) => answer_line(to, text_put::first(line, n), number),
        Seen::TooLong => complain(to, number, b"too long"),
        Seen::Passed => Ok(()),
    }
}

// A proved loop has to end, so it has a number of turns that no run uses up.
// Kept: the loop stands in each program: what lasts from line to line is its own (no plainer).
fn run(from: Stdin, to: Stdout, buf: &mut [u8], line: &mut [u8]) -> io::Result<()> {
    let mut input = text_console::start();
    for _ in 0..u64::MAX {
        let Some(came) = text_console::next(from, &mut input, buf, line)? else {
            return Ok(());
        };
        answer(to, came.seen, came.number, line)?;
    }
    Ok(())
}

fn main(rt: HostRuntime) -> io::Result<()> {
    let mut buf = [0u8; 65536];
    // A line has up to 16,384 characters, and a CR.
    let mut line = [0u8; 16385];
    run(rt.stdin(), rt.stdout(), &mut buf, &mut line)
}
