// The replies on packets, received and typed: the requests P and Y.
//
// The reply on received bytes is the line of `explain`, and behind it ROOMS and the places of the packet's
// parts. Proved safe and ending; that a reply is right is shown by oracle/ and by the stored run of replay.
#![tactic(auto)]

ghost use Rattle.std.specs.Prelude.{◌≡◌, length};
ghost use Rattle.att.specs.Typed.{encoded, written_of, laid_of};
ghost use Rattle.text_print.specs.Lines.{Puts};
ghost use Rattle.replay_packets.specs.Places.{place_texts};

use att::{ATT_READ_BY_TYPE_REQ, Att, AttClient, AttReq, Span};
use att_layout::Follows;
use ble_uuid::Uuid;
use codec::{Error, Refusal};
use replay_rooms::Attempt;
use text_print::Line;

// The encoding of a packet, tried in rooms.
#[derive(Clone, Copy)]
struct Encoding<'d> {
    att: Att,
    src: &'d [u8],
}

impl<'d> Attempt for Encoding<'d> {
    ghost answer = { λ e out. written_of (encoded e.att e.src.now) out };

    ghost after = { λ e out. laid_of (encoded e.att e.src.now) out };

    fn write(&self, out: &mut [u8]) -> Result<usize, Error> {
        att_encode::encode(self.att, self.src, out)
    }
}

// ROOMS of the encoding of a packet, behind a text.
fn rooms(att: Att, src: &[u8], full: &[u8], reply: &mut Line<'_>, name: &[u8]) {
    replay_rooms::attempt_tried(&Encoding { att, src }, full, reply, name);
}

// ROOMS, of what the line shows that encoding writes: the packet itself where it is strict.
fn packet_rooms(att: Att, src: &[u8], reply: &mut Line<'_>) {
    let mut bytes = [0u8; 1032];
    if att_strict::strict(src) {
        return rooms(att, src, src, reply, b" rooms=");
    }
    match att_encode::encode(att, src, &mut bytes) {
        Ok(n) => rooms(att, src, text_put::first(&bytes, n), reply, b" rooms="),
        Err(e) => replay_base::refused(reply, b" ", e),
    }
}

// ` at=START+LENGTH`, the place of a data field.
#[tactic(auto, unfolding(text_print::specs::Lines::behind, text_print::specs::Lines::holding))]
fn place(reply: &mut Line<'_>, src: &[u8], d: Span)
    ensures { Puts (place_texts d src.now) reply.old reply.new }
{
    let n = att_decode::data(src, d).len();
    text_put::count(reply, b" at=", d.at as u64);
    text_put::count(reply, b"+", n as u64);
}

// The places of the values of all items. A packet has fewer items than bytes.
fn items(att: Att, src: &[u8], reply: &mut Line<'_>) {
    let mut pos = 0;
    for _ in 0..src.len() {
        let Some(item) = att_items::read_by_type_next(att, src, pos) else {
            return;
        };
        // The value is told twice, as a range and as a part, which have to be equally long.
        if att_items::read_by_type_rest(att, src, pos).len() != item.rest.len {
            return;
        }
        place(reply, src, item.rest);
        pos = item.next;
    }
}

// The places of a data field, or of the values of items; other packets have no parts.
fn places(att: Att, src: &[u8], reply: &mut Line<'_>) {
    let layout = att_layout::lay_out(att);
    match layout.follows {
        Follows::Data => place(reply, src, layout.part),
        Follows::Items(_) => items(att, src, reply),
        Follows::Nothing | Follows::AUuid(_) => {}
    }
}

// P HEX
pub fn packet(line: &[u8], out: &mut [u8]) -> usize
    // The line keeps its length; its words are compared with the Rust, and not proved.
    ensures { length out.new ≡ length out.old }
{
    let mut buf = [0u8; 1024];
    let n = replay_base::bytes(text_lines::word(line, 2), &mut buf);
    let src = &buf[..n];
    let at = explain_packet::line(src, out);
    let mut reply = Line { out, pos: at };
    if let Ok(att) = att_decode::decode(src) {
        packet_rooms(att, src, &mut reply);
        places(att, src, &mut reply);
    }
    reply.pos
}

fn size(att: Att, reply: &mut Line<'_>) {
    match att_encode::size(att, b"") {
        Ok(n) => text_put::count(reply, b" ", n as u64),
        Err(e) => replay_base::refused(reply, b" ", e),
    }
}

fn handle(word: &[u8]) -> u16 {
    text_hex::read_handle(word).unwrap_or(0)
}

fn request(op: u8, start: u16, end: u16, kind: Uuid) -> Att {
    Att::Client(AttClient::Request(match op {
        ATT_READ_BY_TYPE_REQ => AttReq::ReadByType {
            start,
            end,
            attribute_type: kind,
        },
        _ => AttReq::ReadByGroupType {
            start,
            end,
            group_type: kind,
        },
    }))
}

// A refused encoding: so in all the rooms from 0 to 24.
fn not_encoded(att: Att, e: Error, reply: &mut Line<'_>) {
    replay_base::refused(reply, b"", e);
    size(att, reply);
    let n = replay_rooms::attempt_refusing(
        &Encoding { att, src: b"" },
        u8::from(Refusal::from(e)),
        25,
    );
    text_put::count(reply, b" ", n as u64);
}

fn typed_reply(att: Att, reply: &mut Line<'_>) {
    let mut bytes = [0u8; 64];
    match att_encode::encode(att, b"", &mut bytes) {
        Ok(n) => {
            let full = text_put::first(&bytes, n);
            reply.hex(full);
            size(att, reply);
            rooms(att, b"", full, reply, b" ");
        }
        Err(e) => not_encoded(att, e, reply),
    }
}

// Y OP START END HEX
pub fn typed(line: &[u8], out: &mut [u8]) -> usize
    // The line keeps its length; its words are compared with the Rust, and not proved.
    ensures { length out.new ≡ length out.old }
{
    let mut reply = Line::new(out);
    let mut buf = [0u8; 64];
    let [op, ..] = replay_base::little(text_lines::word(line, 2));
    let start = handle(text_lines::word(line, 3));
    let end = handle(text_lines::word(line, 4));
    let n = replay_base::bytes(text_lines::word(line, 5), &mut buf);
    let kind = Uuid::try_from(&buf[..n]).unwrap_or(ble_uuid::no_uuid());
    typed_reply(request(op, start, end, kind), &mut reply);
    reply.pos
}
