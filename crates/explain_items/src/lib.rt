// Packets in words: the items of a response.
//
// Each function puts its texts behind those that stand on the line. The texts of the items are in
// specs/, as the programs' page has them.
#![tactic(auto)]

ghost use Rattle.std.specs.Prelude.{◌≡◌};
ghost use Rattle.text_print.specs.Lines.{Puts};
ghost use Rattle.explain_items.specs.Items.{informations, ranges, values, kind_of, next_in, item_texts, items_texts};

use att::{ATT_FIND_BY_TYPE_VALUE_RSP, ATT_FIND_INFORMATION_RSP, Att};
use att_items::{HandlePair, HandleUuid, HandleValue};
use text_print::Line;

// An item of Find By Type Value Response, and the position of the next item; none where there is none.
fn range(att: Att, src: &[u8], line: &mut Line<'_>, pos: usize) -> Option<usize>
    ensures value { result ≡ next_in ranges att src.now pos }
    ensures line_after { Puts (item_texts ranges att src.now pos) line.old line.new }
{
    let HandlePair { handle, end, next } = att_items::find_by_type_value_next(att, src, pos)?;
    text_put::word(line, b" item=", handle);
    text_put::word(line, b":", end);
    Some(next)
}

// An item of Find Information Response.
fn information(att: Att, src: &[u8], line: &mut Line<'_>, pos: usize) -> Option<usize>
    ensures value { result ≡ next_in informations att src.now pos }
    ensures line_after { Puts (item_texts informations att src.now pos) line.old line.new }
{
    let HandleUuid { handle, uuid, next } = att_items::find_information_next(att, src, pos)?;
    text_put::word(line, b" item=", handle);
    text_put::kind(line, b":", uuid);
    Some(next)
}

// An item of Read By Type Response or Read By Group Type Response.
fn value(att: Att, src: &[u8], line: &mut Line<'_>, pos: usize) -> Option<usize>
    ensures value { result ≡ next_in values att src.now pos }
    ensures line_after { Puts (item_texts values att src.now pos) line.old line.new }
{
    let HandleValue { handle, next, .. } = att_items::read_by_type_next(att, src, pos)?;
    text_put::word(line, b" item=", handle);
    text_put::hex(line, b":", att_items::read_by_type_rest(att, src, pos));
    Some(next)
}

// An item of the response with this opcode.
// Kept: asked anew for each item, as `kind_of` of `items_texts` has it (no plainer).
fn item(op: u8, att: Att, src: &[u8], line: &mut Line<'_>, pos: usize) -> Option<usize>
    ensures value { result ≡ next_in (kind_of op) att src.now pos }
    ensures line_after { Puts (item_texts (kind_of op) att src.now pos) line.old line.new }
{
    match op {
        ATT_FIND_INFORMATION_RSP => information(att, src, line, pos),
        ATT_FIND_BY_TYPE_VALUE_RSP => range(att, src, line, pos),
        _ => value(att, src, line, pos),
    }
}

// All items. A packet has fewer items than bytes.
pub fn items(op: u8, att: Att, src: &[u8], line: &mut Line<'_>)
    ensures { Puts (items_texts op att src.now) line.old line.new }
{
    let mut pos = 0;
    for _ in 0..src.len() {
        let Some(next) = item(op, att, src, line, pos) else {
            return;
        };
        pos = next;
    }
}
