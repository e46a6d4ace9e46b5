// The replies on walks of a cursor: the requests R, of a reading cursor, and W, of a writing one.
//
// Proved safe and ending, and where specs/ has the text of a word, that it is written; that a reply is
// right is shown by oracle/ and by the stored run of replay.
#![tactic(auto)]

ghost use Rattle.std.specs.Prelude.{ℕ, ◌≡◌, length, unwrap_or};
ghost use Rattle.cursor.specs.Position.{left};
ghost use Rattle.text_hex.specs.Hex.{decimal_of};
ghost use Rattle.text_print.specs.Lines.{Puts};
ghost use Rattle.replay_walk.specs.Walks.{end_of, joint, place_texts, jumped_to};

use codec::Error;
use cursor_read::ReadCursor;
use cursor_write::WriteCursor;
use primitives::Primitive;
use replay_base::Digits;
use text_print::Line;

// A cursor that is walked. It makes the step that a letter says, with what it is given behind it, and the
// answer goes on the line.
trait Walker {
    // The cursor's position, and how many bytes it is over.
    ghost pos: { Self → ℕ };

    ghost len: { Self → ℕ };

    fn step(&mut self, word: &[u8], line: &mut Line<'_>);

    // Its position, and how many bytes it has left.
    fn place(&self) -> (usize, usize)
        ensures position { result.0 ≡ pos self.now }
        ensures available { result.1 ≡ left (pos self.now) (len self.now) };
}

fn refused(line: &mut Line<'_>, e: Error) {
    replay_base::refused(line, b"", e);
}

// What a call that only moves the cursor answered.
fn answered(line: &mut Line<'_>, moved: Result<(), Error>) {
    match moved {
        Ok(()) => line.text(b"ok"),
        Err(e) => refused(line, e),
    }
}

fn decimal(word: &[u8]) -> usize
    ensures { result ≡ unwrap_or (decimal_of word.now) 0 }
{
    text_hex::read_decimal(word).unwrap_or(0) as usize
}

// The position of a cursor that is put so many bytes further, where it is not past its end.
fn jumped(pos: usize, data: &[u8], n: usize) -> usize
    ensures { result ≡ jumped_to pos (length «data».now) n }
{
    if data.len() < pos {
        return pos;
    }
    pos.checked_add(n).unwrap_or(pos)
}

fn number<T: Digits>(cursor: &mut ReadCursor, line: &mut Line<'_>) {
    match cursor.read::<T>() {
        Ok(v) => v.digits(line),
        Err(e) => refused(line, e),
    }
}

// A part of the bytes, where there is one.
fn part(line: &mut Line<'_>, part: Result<&[u8], Error>) {
    match part {
        Ok(bytes) => line.hex(bytes),
        Err(e) => refused(line, e),
    }
}

impl<'d> Walker for ReadCursor<'d> {
    ghost pos = { λ c. c.pos };

    ghost len = { λ c. length c.«data».now };

    fn step(&mut self, word: &[u8], line: &mut Line<'_>) {
        let n = decimal(replay_base::tail(word));
        match replay_base::letter(word) {
            b'b' => number::<u8>(self, line),
            b'w' => number::<u16>(self, line),
            b'd' => number::<u32>(self, line),
            b's' => part(line, self.try_slice(n)),
            b'c' => part(line, self.try_consume(n)),
            b'm' => line.hex(self.remaining()),
            b'z' => {
                self.reset();
                line.text(b"ok");
            }
            _ => {
                self.pos = jumped(self.pos, self.data, n);
                line.text(b"ok");
            }
        }
    }

    fn place(&self) -> (usize, usize) {
        (self.len(), self.available())
    }
}

fn write(cursor: &mut WriteCursor, letter: u8, digits: &[u8]) -> Result<(), Error> {
    let b = replay_base::little(digits);
    match letter {
        b'b' => cursor.write(u8::at(&b, 0)),
        b'w' => cursor.write(u16::at(&b, 0)),
        _ => cursor.write(u32::at(&b, 0)),
    }
}

fn append(cursor: &mut WriteCursor, digits: &[u8]) -> Result<(), Error> {
    let mut buf = [0u8; 64];
    let n = replay_base::bytes(digits, &mut buf);
    cursor.append(&buf[..n])
}

// Fills what write_buf lends, as far as the bytes go; the answer is how much it lends.
fn fill(cursor: &mut WriteCursor, digits: &[u8]) -> usize {
    let mut buf = [0u8; 64];
    let n = replay_base::bytes(digits, &mut buf);
    let part = cursor_write::write_buf(cursor.pos, cursor.data);
    let m = n.min(part.len());
    part[..m].copy_from_slice(&buf[..m]);
    part.len()
}

// Both parts of a split, one after the other.
fn split(cursor: &mut WriteCursor, n: usize, line: &mut Line<'_>) {
    if let Err(e) = cursor::given(cursor.pos, cursor.data.len(), n) {
        refused(line, e);
        return;
    }
    line.hex(cursor_write::split_first(cursor.pos, cursor.data, n));
    line.text(b",");
    line.hex(cursor_write::split_second(cursor.pos, cursor.data, n));
}

fn finished(cursor: &mut WriteCursor, line: &mut Line<'_>) {
    let done = WriteCursor {
        pos: cursor.pos,
        data: &mut *cursor.data,
    };
    line.hex(done.finish());
}

impl<'d> Walker for WriteCursor<'d> {
    ghost pos = { λ c. c.pos };

    ghost len = { λ c. length c.«data».now };

    fn step(&mut self, word: &[u8], line: &mut Line<'_>) {
        let tail = replay_base::tail(word);
        let n = decimal(tail);
        match replay_base::letter(word) {
            b'c' => answered(line, self.commit(n)),
            b's' => split(self, n, line),
            b't' => {
                self.truncate(n);
                line.text(b"ok");
            }
            b'f' => finished(self, line),
            b'z' => {
                self.reset();
                line.text(b"ok");
            }
            b'j' => {
                self.pos = jumped(self.pos, self.data, n);
                line.text(b"ok");
            }
            b'p' => answered(line, append(self, tail)),
            b'u' => line.decimal(fill(self, tail) as u64),
            letter => answered(line, write(self, letter, tail)),
        }
    }

    fn place(&self) -> (usize, usize) {
        (self.len(), self.available())
    }
}

// Whether a walk's steps end here: there are no more words, or the reply that is wanted begins.
fn ends(word: &[u8]) -> bool
    ensures { result ≡ end_of word.now }
{
    matches!(word, [] | [b'=', ..])
}

// The steps' answers stand with one blank between them.
#[tactic(auto, unfolding(text_print::specs::Lines::behind, text_print::specs::Lines::holding))]
fn joined(line: &mut Line<'_>)
    ensures { Puts (joint line.old.pos) line.old line.new }
{
    if line.pos != 0 {
        line.text(b" ");
    }
}

// `@POSITION/AVAILABLE`.
#[tactic(auto, unfolding(text_print::specs::Lines::behind, text_print::specs::Lines::holding))]
fn place<C: Walker>(line: &mut Line<'_>, cursor: &C)
    ensures { Puts (place_texts (C.pos cursor.now) (C.len cursor.now)) line.old line.new }
{
    let (pos, left) = cursor.place();
    text_put::count(line, b"@", pos as u64);
    text_put::count(line, b"/", left as u64);
}

// The steps of a request, and where the cursor stands after each.
// Kept: up to 1000 words: a proved loop has to end, and the oracle's requests have fewer (what may not change).
fn walk<C: Walker>(cursor: &mut C, request: &[u8], line: &mut Line<'_>) {
    for k in 3..1000 {
        let word = text_lines::word(request, k);
        if ends(word) {
            return;
        }
        joined(line);
        cursor.step(word, line);
        place(line, cursor);
    }
}

// R HEX STEP..
pub fn read(line: &[u8], out: &mut [u8]) -> usize
    // The line keeps its length; its words are compared with the Rust, and not proved.
    ensures { length out.new ≡ length out.old }
{
    let mut reply = Line::new(out);
    let mut buf = [0u8; 64];
    let n = replay_base::bytes(text_lines::word(line, 2), &mut buf);
    walk(&mut ReadCursor::new(&buf[..n]), line, &mut reply);
    reply.pos
}

// W HEX STEP.. The answers to the steps, and behind them what the buffer then holds.
pub fn write_walk(line: &[u8], out: &mut [u8]) -> usize
    // The line keeps its length; its words are compared with the Rust, and not proved.
    ensures { length out.new ≡ length out.old }
{
    let mut reply = Line::new(out);
    let mut buf = [0u8; 64];
    let n = replay_base::bytes(text_lines::word(line, 2), &mut buf);
    walk(&mut WriteCursor::new(&mut buf[..n]), line, &mut reply);
    text_put::hex(&mut reply, b" ", &buf[..n]);
    reply.pos
}
