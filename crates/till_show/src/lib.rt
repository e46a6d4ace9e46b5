// The lines of `show`, and those of what cannot be read. Each function puts its texts behind those that
// stand on the line.
#![tactic(auto)]

ghost use Rattle.std.specs.Prelude.{◌≡◌, false, [], ◌∷◌};
ghost use Rattle.codec.specs.Cases.{pick};
ghost use Rattle.text_print.specs.Lines.{Puts};
ghost use Rattle.text_put.specs.Put.{complaint_texts};
ghost use Rattle.till_show.specs.Show.{link_texts, head_texts, record_marks, place_texts, record_texts};
ghost use Rattle.till_show.specs.Faults.{fault_text};

use answers::Link;
use attributes::{Place, Record};
use text_print::Line;
use till_read::Fault;

// A mark's letter where the mark is set, and nothing where it is not.
fn letter(set: bool, name: &[u8]) -> &[u8]
    ensures { result.now ≡ pick set name.now [] }
{
    if set { name } else { b"" }
}

// Whether neither of two marks is set, and the rest holds.
fn neither(a: bool, b: bool, rest: bool) -> bool
    ensures { result ≡ pick a false (pick b false rest) }
{
    !a && !b && rest
}

// Two marks.
#[tactic(auto, unfolding(text_print::specs::Lines::behind, text_print::specs::Lines::holding))]
fn marks(line: &mut Line<'_>, a: bool, first: &[u8], b: bool, second: &[u8])
    ensures { Puts (pick a first.now [] ∷ pick b second.now [] ∷ []) line.old line.new }
{
    line.text(letter(a, first));
    line.text(letter(b, second));
}

// `link mtu=N marks=MARKS`
#[tactic(auto, unfolding(text_print::specs::Lines::behind, text_print::specs::Lines::holding))]
pub fn link_line(link: Link, line: &mut Line<'_>)
    ensures { Puts (link_texts link) line.old line.new }
{
    let none = neither(link.encrypted, link.exchanged, true);
    text_put::count(line, b"link mtu=", u64::from(link.mtu));
    line.text(b" marks=");
    marks(line, link.encrypted, b"e", link.exchanged, b"x");
    line.text(letter(none, b"-"));
}

// `record HANDLE TYPE`
#[tactic(auto, unfolding(text_print::specs::Lines::behind, text_print::specs::Lines::holding))]
fn head(r: Record, line: &mut Line<'_>)
    ensures { Puts (head_texts r) line.old line.new }
{
    text_put::word(line, b"record ", r.handle);
    text_put::kind(line, b" ", r.kind);
}

// ` MARKS`
#[tactic(auto, unfolding(text_print::specs::Lines::behind, text_print::specs::Lines::holding))]
fn record_marks(r: Record, line: &mut Line<'_>)
    ensures { Puts (record_marks r) line.old line.new }
{
    let sealed = neither(r.read_encrypted, r.write_encrypted, true);
    let none = neither(r.readable, r.writable, sealed);
    line.text(b" ");
    marks(line, r.readable, b"r", r.writable, b"w");
    marks(line, r.read_encrypted, b"R", r.write_encrypted, b"W");
    line.text(letter(none, b"-"));
}

// ` fixed at=AT` or ` live at=AT capacity=N`
#[tactic(auto, unfolding(text_print::specs::Lines::behind, text_print::specs::Lines::holding))]
fn place_text(place: Place, line: &mut Line<'_>)
    ensures { Puts (place_texts place) line.old line.new }
{
    match place {
        Place::Fixed { at, .. } => text_put::count(line, b" fixed at=", at as u64),
        Place::Live { at, capacity, .. } => {
            text_put::count(line, b" live at=", at as u64);
            text_put::count(line, b" capacity=", capacity as u64);
        }
    }
}

// A record with its value.
pub fn record_line(r: Record, value: &[u8], line: &mut Line<'_>)
    ensures { Puts (record_texts r value.now) line.old line.new }
{
    head(r, line);
    record_marks(r, line);
    place_text(r.place, line);
    text_put::hex(line, b" value=", value);
}

// Kept: bytes for a line, and no `Display`, whose `fmt` promises nothing of the line.
fn what(fault: Fault) -> &'static [u8]
    ensures { result.now ≡ fault_text fault }
{
    match fault {
        Fault::NotHex => b"not hexadecimal",
        Fault::UnknownCommand => b"unknown command",
        Fault::MissingWord => b"missing word",
        Fault::TooManyWords => b"too many words",
        Fault::NotNumber => b"not a number",
        Fault::NotType => b"not a type",
        Fault::NotMarks => b"not marks",
        Fault::TooLong => b"too long",
    }
}

// `error line K: WHAT`
pub fn fault_line(fault: Fault, number: u64, line: &mut Line<'_>)
    ensures { Puts (complaint_texts number (fault_text fault)) line.old line.new }
{
    text_put::complaint(line, number, what(fault));
}
