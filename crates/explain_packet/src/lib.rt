// A packet in words: the line that `explain` answers with, and that `replay` repeats to the oracle.
//
// Each function puts its texts behind those that stand on the line. The texts are in specs/, as the
// programs' page has them.
#![tactic(auto)]

ghost use Rattle.std.specs.Prelude.{◌≡◌};
ghost use Rattle.codec.specs.Refusals.{refusal_of};
ghost use Rattle.att.specs.Typed.{encoded};
ghost use Rattle.text_print.specs.Lines.{behind, holding, Puts};
ghost use Rattle.text_put.specs.Put.{refusal};
ghost use Rattle.explain_packet.specs.Packets.{field_texts, encodes_texts, packet_texts, line_texts};

use att::Att;
use codec::{Error, Refusal};
use text_print::Line;

// SIDE KIND NAME FIELDS.
fn fields(att: Att, src: &[u8], line: &mut Line<'_>)
    ensures { Puts (field_texts att src.now) line.old line.new }
{
    match att {
        Att::Client(c) => explain_client::client(c, src, line),
        Att::Server(s) => explain_server::server(s, att, src, line),
    }
}

fn refused(e: Error, line: &mut Line<'_>)
    ensures { Puts (refusal (refusal_of e)) line.old line.new }
{
    text_put::refused(line, Refusal::from(e));
}

// That the packet is not in its strict form, and what encoding it writes.
fn encodes(att: Att, src: &[u8], line: &mut Line<'_>)
    ensures { Puts (encodes_texts (encoded att src.now)) line.old line.new }
{
    let mut bytes = [0u8; 2048];
    match att_encode::encode(att, src, &mut bytes) {
        Ok(n) => text_put::hex(line, b" tolerant encodes=", text_put::first(&bytes, n)),
        Err(e) => {
            line.text(b" tolerant ");
            refused(e, line);
        }
    }
}

// What a packet is.
fn packet(att: Att, src: &[u8], line: &mut Line<'_>)
    ensures { Puts (packet_texts att src.now) line.old line.new }
{
    match att_encode::size(att, src) {
        Ok(n) => {
            fields(att, src, line);
            text_put::count(line, b" size=", n as u64);
            if att_strict::strict(src) {
                line.text(b" strict");
            } else {
                encodes(att, src, line);
            }
        }
        Err(e) => refused(e, line),
    }
}

// What received bytes are, on a line.
fn received(src: &[u8], line: &mut Line<'_>)
    ensures { Puts (line_texts src.now) line.old line.new }
{
    match att_decode::decode(src) {
        Ok(att) => packet(att, src, line),
        Err(e) => refused(e, line),
    }
}

// What received bytes are, from the start of a lent buffer on; the answer is the position behind it.
pub fn line(src: &[u8], out: &mut [u8]) -> usize
    ensures value { result ≡ behind (line_texts src.now) 0 out.old }
    ensures out_after { out.new ≡ holding (line_texts src.now) 0 out.old }
{
    let mut line = Line::new(out);
    received(src, &mut line);
    line.pos
}
