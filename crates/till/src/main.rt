// A table, a link, and what a device gets: each line of standard input is a command, and its answer is
// a line; `show` has several. What a command does is a library call.
#![tactic(auto)]

use answers::{Answer, Link, Served};
use attributes::{Addition, Record};
use codec::Refusal;
use std::io::{self, Stdin, Stdout};
use text_lines::Seen;
use text_print::Line;
use till_read::{Command, Fault};
use till_state::Till;

// What the commands work on: the till, the bytes of the two areas, and where the answers go.
// Kept: arrays, and a till that knows how much of them is in use: there is no heap.
#[derive(Drop)]
struct Desk {
    to: Stdout,
    till: Till,
    fixed: [u8; 4096],
    live: [u8; 40000],
}

// A line of one word.
// Kept: a buffer, a line and a call each, here and below: a closure and a const for the length would be as long.
fn say(to: Stdout, word: &[u8]) -> io::Result<()> {
    let mut out = [0u8; 16];
    let mut line = Line::new(&mut out);
    line.text(word);
    text_console::write_line(to, &mut line)
}

// A line of a word and bytes.
fn tell(to: Stdout, word: &[u8], bytes: &[u8]) -> io::Result<()> {
    let mut out = [0u8; 2080];
    let mut line = Line::new(&mut out);
    text_put::hex(&mut line, word, bytes);
    text_console::write_line(to, &mut line)
}

fn refuse(to: Stdout, r: Refusal) -> io::Result<()> {
    let mut out = [0u8; 64];
    let mut line = Line::new(&mut out);
    text_put::refused(&mut line, r);
    text_console::write_line(to, &mut line)
}

fn complain(to: Stdout, fault: Fault, number: u64) -> io::Result<()> {
    let mut out = [0u8; 64];
    let mut line = Line::new(&mut out);
    till_show::fault_line(fault, number, &mut line);
    text_console::write_line(to, &mut line)
}

fn show_link(to: Stdout, link: Link) -> io::Result<()> {
    let mut out = [0u8; 64];
    let mut line = Line::new(&mut out);
    till_show::link_line(link, &mut line);
    text_console::write_line(to, &mut line)
}

fn show_record(to: Stdout, r: Record, value: &[u8]) -> io::Result<()> {
    let mut out = [0u8; 2048];
    let mut line = Line::new(&mut out);
    till_show::record_line(r, value, &mut line);
    text_console::write_line(to, &mut line)
}

// All live bytes: up to 40,000 of them, two digits each.
fn show_live(to: Stdout, live: &[u8]) -> io::Result<()> {
    let mut out = [0u8; 80016];
    let mut line = Line::new(&mut out);
    text_put::hex(&mut line, b"live ", live);
    text_console::write_line(to, &mut line)
}

impl Desk {
    // The bytes of the areas that are in use.
    fn fixed(&self) -> &[u8] {
        text_put::first(&self.fixed, self.till.fixed)
    }

    fn live(&self) -> &[u8] {
        text_put::first(&self.live, self.till.live)
    }

    // The answer of a call that always does what it is asked.
    fn set(&mut self, till: Till) -> io::Result<()> {
        self.till = till;
        say(self.to, b"ok")
    }

    // The answer of a call that may be refused; the till then stays.
    fn report(&mut self, next: Result<Till, Refusal>) -> io::Result<()> {
        match next {
            Ok(till) => self.set(till),
            Err(r) => refuse(self.to, r),
        }
    }

    fn set_fixed(&mut self, bytes: &[u8]) -> io::Result<()> {
        let till = till_state::set_fixed(self.till, bytes, &mut self.fixed);
        self.set(till)
    }

    fn set_live(&mut self, len: usize) -> io::Result<()> {
        let till = till_state::set_live(self.till, len, &mut self.live);
        self.set(till)
    }

    fn new_table(&mut self) -> io::Result<()> {
        let next = till_state::new_table(self.till, self.fixed(), self.live());
        self.report(next)
    }

    fn add(&mut self, addition: Addition) -> io::Result<()> {
        let next = till_state::add(self.till, addition, self.fixed(), self.live());
        self.report(next)
    }

    fn store(&mut self, handle: u16, value: &[u8]) -> io::Result<()> {
        let fixed = text_put::first(&self.fixed, self.till.fixed);
        let next = till_state::store(self.till, handle, value, fixed, &mut self.live);
        self.report(next)
    }

    fn lookup(&self, handle: u16) -> io::Result<()> {
        let table = self.till.table;
        match table::lookup_refusal(table, handle, self.fixed(), self.live()) {
            Ok(()) => {
                let value = table::lookup(table, handle, self.fixed(), self.live());
                tell(self.to, b"value ", value)
            }
            Err(r) => refuse(self.to, r),
        }
    }

    // The state, with the bytes of the areas that are in use.
    fn show(&self) -> io::Result<()> {
        let table = self.till.table;
        show_link(self.to, self.till.link)?;
        if table::sound(table, self.fixed(), self.live()) {
            // A record's value is as the till's own lookup has it.
            for r in table.entries() {
                let value = table::lookup(table, r.handle, self.fixed(), self.live());
                show_record(self.to, *r, value)?;
            }
            show_live(self.to, self.live())?;
        } else {
            refuse(self.to, Refusal::BadTable)?;
        }
        say(self.to, b"end")
    }

    fn serve(&mut self, packet: &[u8], out: &mut [u8]) -> Served {
        let till = self.till;
        let fixed = text_put::first(&self.fixed, till.fixed);
        let live = &mut self.live[..];
        let n = till.live.min(live.len());
        let m = till.output.min(out.len());
        let live = &mut live[..n];
        responder::serve(till.table, till.link, fixed, live, packet, &mut out[..m])
    }

    fn send(&mut self, packet: &[u8]) -> io::Result<()> {
        let mut out = [0u8; 1024];
        let served = self.serve(packet, &mut out);
        match served.answer {
            Answer::Sent(n) => tell(self.to, b"answer ", text_put::first(&out, n))?,
            Answer::Silent => say(self.to, b"silent")?,
            Answer::Refused(r) => refuse(self.to, r)?,
        }
        self.till = till_state::set_table(self.till, served.table);
        self.till = till_state::set_link(self.till, served.link);
        Ok(())
    }

    // What a command does. `bytes` has those of its HEX.
    fn obey(&mut self, command: Command, bytes: &[u8]) -> io::Result<()> {
        match command {
            Command::Fixed { len } => self.set_fixed(text_put::first(bytes, len)),
            Command::Live { len } => self.set_live(len),
            Command::NewTable => self.new_table(),
            Command::Add(addition) => self.add(addition),
            Command::Store { handle, len } => self.store(handle, text_put::first(bytes, len)),
            Command::Lookup { handle } => self.lookup(handle),
            Command::NewLink {
                mtu,
                encrypted,
                exchanged,
            } => self.set(till_state::set_link(
                self.till,
                Link {
                    mtu,
                    exchanged,
                    encrypted,
                },
            )),
            Command::Output { len } => self.set(till_state::set_output(self.till, len)),
            Command::Send { len } => self.send(text_put::first(bytes, len)),
            Command::Show => self.show(),
        }
    }

    fn answer_line(&mut self, line: &[u8], number: u64) -> io::Result<()> {
        // more than the digits of the longest line
        let mut bytes = [0u8; 8192];
        match till_read::read(line, &mut bytes) {
            Ok(command) => self.obey(command, &bytes),
            Err(fault) => complain(self.to, fault, number),
        }
    }

    fn answer(&mut self, seen: Seen, line: &[u8], number: u64) -> io::Result<()> {
        match seen {
            Seen::Line(n) => self.answer_line(text_put::first(line, n), number),
            Seen::TooLong => complain(self.to, Fault::TooLong, number),
            Seen::Passed => Ok(()),
        }
    }
}

fn main(rt: HostRuntime) -> io::Result<()> {
    let mut buf = [0u8; 65536];
    // A line has up to 16,384 characters, and a CR.
    let mut line = [0u8; 16385];
    let mut desk = Desk {
        to: rt.stdout(),
        till: till_state::start(),
        fixed: [0u8; 4096],
        live: [0u8; 40000],
    };
    let mut input = text_console::start();
    // A proved loop has to end, so it has a number of turns that no run uses up.
    // Kept: the loop stands in each program: what lasts from line to line is its own (no plainer).
    for _ in 0..u64::MAX {
        let Some(came) = text_console::next(rt.stdin(), &mut input, &mut buf, &mut line)? else {
            return Ok(());
        };
        desk.answer(came.seen, &line, came.number)?;
    }
    Ok(())
}
