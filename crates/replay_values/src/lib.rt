// The replies on texts, integers and UUIDs: the requests T, D, E, U and V.
//
// The texts are in specs/, but for T and E, of which the line's length alone is proved; that they are the
// Rust's is shown by oracle/ and by the stored run of replay.
#![tactic(auto)]

ghost use Rattle.std.specs.Prelude.{◌≡◌, length};
ghost use Rattle.codec.specs.Buffer.{laid, written};
ghost use Rattle.att_error.specs.Texts.{text_of};
ghost use Rattle.text_print.specs.Lines.{behind, holding, Puts};
ghost use Rattle.text_lines.specs.Words.{word_of};
ghost use Rattle.ble_uuid.specs.Uuids.{short_of, sliced, uuid_of};
ghost use Rattle.replay_base.specs.Base.{said};
ghost use Rattle.replay_values.specs.Values.{number_texts, decoded_line, raw_said, short_said, uuid_texts, uuid_line, same_line};

use ble_uuid::{Raw, Uuid};
use codec::Error;
use primitives::Primitive;
use replay_base::Digits;
use replay_rooms::Attempt;
use text_print::Line;

// The text of an error code, tried in rooms.
#[derive(Clone, Copy)]
struct TextOf {
    code: u8,
}

impl Attempt for TextOf {
    ghost answer = { λ t out. written (text_of t.code) out };

    ghost after = { λ t out. laid (text_of t.code) out };

    fn write(&self, out: &mut [u8]) -> Result<usize, Error> {
        att_text::write_text(self.code, out)
    }
}

fn text_reply(code: u8, full: &[u8], reply: &mut Line<'_>) {
    reply.decimal(full.len() as u64);
    replay_rooms::attempt_tried(&TextOf { code }, full, reply, b" ");
    reply.text(b" ");
    reply.text(full);
}

// T HEX
// Kept: a reply goes into a buffer, from its start, and the answer is where it ends, here and in
// replay_packets and replay_walk: the clauses are of the whole buffer (what may not change).
pub fn text(line: &[u8], out: &mut [u8]) -> usize
    // The line keeps its length; its words are compared with the Rust, and not proved.
    ensures { length out.new ≡ length out.old }
{
    let mut reply = Line::new(out);
    let mut spelt = [0u8; 256];
    let [code, ..] = replay_base::little(text_lines::word(line, 2));
    match att_text::write_text(code, &mut spelt) {
        Ok(n) => text_reply(code, text_put::first(&spelt, n), &mut reply),
        Err(e) => replay_base::refused(&mut reply, b"", e),
    }
    reply.pos
}

fn number_reply<T: Digits>(src: &[u8], reply: &mut Line<'_>)
    ensures { Puts (number_texts T.SIZE T.of T.digits src.now) reply.old reply.new }
{
    match T::decode(src) {
        Ok(v) => v.digits(reply),
        Err(e) => replay_base::refused(reply, b"", e),
    }
}

fn decoded_reply(line: &[u8], reply: &mut Line<'_>)
    ensures { Puts (decoded_line line.now) reply.old reply.new }
{
    let mut buf = [0u8; 64];
    let n = replay_base::bytes(text_lines::word(line, 3), &mut buf);
    match replay_base::letter(text_lines::word(line, 2)) {
        b'b' => number_reply::<u8>(&buf[..n], reply),
        b'w' => number_reply::<u16>(&buf[..n], reply),
        _ => number_reply::<u32>(&buf[..n], reply),
    }
}

// D LETTER HEX
pub fn decoded(line: &[u8], out: &mut [u8]) -> usize
    ensures value { result ≡ behind (decoded_line line.now) 0 out.old }
    ensures out_after { out.new ≡ holding (decoded_line line.now) 0 out.old }
{
    let mut reply = Line::new(out);
    decoded_reply(line, &mut reply);
    reply.pos
}

fn encode(letter: u8, b: &[u8], dest: &mut [u8]) -> Result<usize, Error> {
    match letter {
        b'b' => u8::at(b, 0).encode(dest),
        b'w' => u16::at(b, 0).encode(dest),
        _ => u32::at(b, 0).encode(dest),
    }
}

// E LETTER-NUMBER HEX
pub fn encoded(line: &[u8], out: &mut [u8]) -> usize
    // The line keeps its length; its words are compared with the Rust, and not proved.
    ensures { length out.new ≡ length out.old }
{
    let mut reply = Line::new(out);
    let mut buf = [0u8; 64];
    let n = replay_base::bytes(text_lines::word(line, 3), &mut buf);
    let dest = &mut buf[..n];
    let word = text_lines::word(line, 2);
    let b = replay_base::little(replay_base::tail(word));
    match encode(replay_base::letter(word), &b, dest) {
        Ok(_) => reply.text(b"ok"),
        Err(e) => replay_base::refused(&mut reply, b"", e),
    }
    text_put::hex(&mut reply, b" ", dest);
    reply.pos
}

// All sixteen bytes, and how many of them count.
#[tactic(auto, unfolding(text_print::specs::Lines::behind, text_print::specs::Lines::holding))]
fn raw(reply: &mut Line<'_>, r: Raw)
    ensures { Puts (raw_said r) reply.old reply.new }
{
    text_put::hex(reply, b" ", &r.bytes);
    text_put::count(reply, b"/", r.len as u64);
}

fn short(reply: &mut Line<'_>, u: Uuid)
    ensures { Puts (short_said (short_of u)) reply.old reply.new }
{
    match u.as_short() {
        Ok(v) => text_put::word(reply, b" ", v),
        Err(e) => replay_base::refused(reply, b" ", e),
    }
}

fn uuid_reply(u: Uuid, reply: &mut Line<'_>)
    ensures { Puts (uuid_texts u) reply.old reply.new }
{
    reply.decimal(8 * u.width() as u64);
    text_put::count(reply, b" ", u.get_att_type() as u64);
    raw(reply, u.att_bytes());
    raw(reply, u.as_raw());
    short(reply, u);
}

fn uuid_at(line: &[u8], k: usize) -> Result<Uuid, Error>
    ensures { result ≡ sliced (said 64 (word_of k line.now)) }
{
    let mut buf = [0u8; 64];
    let n = replay_base::bytes(text_lines::word(line, k), &mut buf);
    ble_uuid::from_slice(&buf[..n])
}

fn uuid_or_not(line: &[u8], reply: &mut Line<'_>)
    ensures { Puts (uuid_line line.now) reply.old reply.new }
{
    match uuid_at(line, 2) {
        Ok(u) => uuid_reply(u, reply),
        Err(e) => replay_base::refused(reply, b"", e),
    }
}

// U HEX
pub fn uuid(line: &[u8], out: &mut [u8]) -> usize
    ensures value { result ≡ behind (uuid_line line.now) 0 out.old }
    ensures out_after { out.new ≡ holding (uuid_line line.now) 0 out.old }
{
    let mut reply = Line::new(out);
    uuid_or_not(line, &mut reply);
    reply.pos
}

// The UUID of a word; the 16-bit 0000 where the word is none.
fn uuid_in(line: &[u8], k: usize) -> Uuid
    ensures { result ≡ uuid_of (said 64 (word_of k line.now)) }
{
    uuid_at(line, k).unwrap_or(ble_uuid::no_uuid())
}

fn compared(line: &[u8], reply: &mut Line<'_>)
    ensures { Puts (same_line line.now) reply.old reply.new }
{
    let a = uuid_in(line, 2);
    let b = uuid_in(line, 3);
    if a == b {
        reply.text(b"equal");
        return;
    }
    reply.text(b"different");
}

// V HEX HEX
pub fn same(line: &[u8], out: &mut [u8]) -> usize
    ensures value { result ≡ behind (same_line line.now) 0 out.old }
    ensures out_after { out.new ≡ holding (same_line line.now) 0 out.old }
{
    let mut reply = Line::new(out);
    compared(line, &mut reply);
    reply.pos
}
