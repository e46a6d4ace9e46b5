// Packets in words: fields that several packets have.
//
// Each function puts its texts behind those that stand on the line. The texts are in specs/, as the
// programs' page has them.
#![tactic(auto)]

ghost use Rattle.text_print.specs.Lines.{Puts};
ghost use Rattle.explain_field.specs.Fields.{fielded, pair_texts, value_texts};

use att::Span;
use text_print::Line;

// A text and the bytes of a data field.
pub fn part(line: &mut Line<'_>, name: &[u8], src: &[u8], d: Span)
    ensures { Puts (fielded name.now d src.now) line.old line.new }
{
    text_put::hex(line, name, att_decode::data(src, d));
}

// Two numbers of two bytes, each behind its text.
#[tactic(auto, unfolding(text_print::specs::Lines::behind, text_print::specs::Lines::holding))]
pub fn two(line: &mut Line<'_>, name: &[u8], v: u16, second: &[u8], w: u16)
    ensures { Puts (pair_texts name.now v second.now w) line.old line.new }
{
    text_put::word(line, name, v);
    text_put::word(line, second, w);
}

// A handle, and the bytes of its value.
#[tactic(auto, unfolding(text_print::specs::Lines::behind, text_print::specs::Lines::holding))]
pub fn value(line: &mut Line<'_>, name: &[u8], handle: u16, src: &[u8], d: Span)
    ensures { Puts (value_texts name.now handle d src.now) line.old line.new }
{
    text_put::word(line, name, handle);
    part(line, b" data=", src, d);
}
