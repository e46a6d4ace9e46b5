// Texts with numbers, bytes, types and refusals on a line that is built.
#![tactic(auto)]

ghost use Rattle.std.specs.Prelude.{◌≡◌};
ghost use Rattle.text_print.specs.Lines.{Puts};
ghost use Rattle.text_put.specs.Put.{first_of, byted, numbered, counting, hexed, typed, refusal, complaint_texts};

use ble_uuid::Uuid;
use codec::Refusal;
use text_print::Line;

// The first bytes of a buffer, so many; none where it has fewer.
pub fn first(bytes: &[u8], n: usize) -> &[u8]
    ensures { result.now ≡ first_of n bytes.now }
{
    bytes.get(..n).unwrap_or(&[])
}

// A text and a number of one byte.
// Kept: five names and no trait, since the name says the form: hexadecimal, decimal, HEX or TYPE (no plainer).
#[tactic(auto, unfolding(text_print::specs::Lines::behind, text_print::specs::Lines::holding))]
pub fn byte(line: &mut Line<'_>, name: &[u8], v: u8)
    ensures { Puts (byted name.now v) line.old line.new }
{
    line.text(name);
    line.hex2(v);
}

// A text and a number of two bytes.
#[tactic(auto, unfolding(text_print::specs::Lines::behind, text_print::specs::Lines::holding))]
pub fn word(line: &mut Line<'_>, name: &[u8], v: u16)
    ensures { Puts (numbered name.now v) line.old line.new }
{
    line.text(name);
    line.hex4(v);
}

// A text and a decimal number.
#[tactic(auto, unfolding(text_print::specs::Lines::behind, text_print::specs::Lines::holding))]
pub fn count(line: &mut Line<'_>, name: &[u8], v: u64)
    ensures { Puts (counting name.now v) line.old line.new }
{
    line.text(name);
    line.decimal(v);
}

// A text and bytes in HEX.
#[tactic(auto, unfolding(text_print::specs::Lines::behind, text_print::specs::Lines::holding))]
pub fn hex(line: &mut Line<'_>, name: &[u8], bytes: &[u8])
    ensures { Puts (hexed name.now bytes.now) line.old line.new }
{
    line.text(name);
    line.hex(bytes);
}

// A text and a TYPE.
#[tactic(auto, unfolding(text_print::specs::Lines::behind, text_print::specs::Lines::holding))]
pub fn kind(line: &mut Line<'_>, name: &[u8], u: Uuid)
    ensures { Puts (typed name.now u) line.old line.new }
{
    line.text(name);
    line.type_text(u);
}

// A refusal's number and name.
#[tactic(auto, unfolding(text_print::specs::Lines::behind, text_print::specs::Lines::holding))]
pub fn refused(line: &mut Line<'_>, r: Refusal)
    ensures { Puts (refusal r) line.old line.new }
{
    count(line, b"refused ", u64::from(u8::from(r)));
    line.text(b" ");
    line.text(r.name());
}

// What is said of a line that cannot be read: `error line K: WHAT`.
#[tactic(auto, unfolding(text_print::specs::Lines::behind, text_print::specs::Lines::holding))]
pub fn complaint(line: &mut Line<'_>, number: u64, what: &[u8])
    ensures { Puts (complaint_texts number what.now) line.old line.new }
{
    count(line, b"error line ", number);
    line.text(b": ");
    line.text(what);
}
