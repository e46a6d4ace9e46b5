// cursor.rs: the writing cursor, as functions on a position and the lent buffer, and as a struct that keeps the
// two together, with thin methods. Where a part is the answer, a refusal lends the empty part, and `cursor::given` says which it was.
//
// A port of src/cursor.rs of trouble-host 0.8.0, which was changed: see NOTICE.
#![tactic(auto)]

ghost use Rattle.std.specs.Prelude.{◌≡◌, length};
ghost use Rattle.codec.specs.Buffer.{laid_at};
ghost use Rattle.primitives.specs.Numbers.{bytes_of};
ghost use Rattle.cursor.specs.Position.{left, moving, done, stepped};
ghost use Rattle.cursor.specs.Reading.{rest};
ghost use Rattle.cursor_write.specs.Writing.{truncated, split_first, split_second, writing, filled, finished};

use codec::Error;
use primitives::Primitive;

// The lent buffer, and the position in it.
#[derive(Drop)]
pub struct WriteCursor<'d> {
    pub pos: usize,
    pub data: &'d mut [u8],
}

// Each method says whose buffer it leaves in the cursor, so that what was written is seen in the buffer lent.
impl<'d> WriteCursor<'d> {
    pub fn new(data: &'d mut [u8]) -> Self
        ensures same_buffer { result.«data».ghost_name ≡ «data».entry.ghost_name }
        ensures pos_value { result.pos ≡ 0 }
        ensures data_value { result.«data».now ≡ «data».old }
    {
        WriteCursor {
            pos: cursor::new(),
            data,
        }
    }

    pub fn reset(&mut self)
        ensures same_buffer { self.new.«data».ghost_name ≡ self.old.«data».ghost_name }
        ensures pos_after { self.new.pos ≡ 0 }
        ensures data_after { self.new.«data».now ≡ self.old.«data».now }
    {
        self.pos = cursor::reset();
    }

    // Moves the position back to npos; it never moves it on.
    pub fn truncate(&mut self, npos: usize)
        ensures same_buffer { self.new.«data».ghost_name ≡ self.old.«data».ghost_name }
        ensures pos_after { self.new.pos ≡ truncated self.old.pos npos }
        ensures data_after { self.new.«data».now ≡ self.old.«data».now }
    {
        self.pos = truncate(self.pos, npos);
    }

    // The length of what was written so far: the position.
    pub fn len(&self) -> usize
        ensures { result ≡ self.now.pos }
    {
        cursor::len(self.pos, self.data)
    }

    pub fn available(&self) -> usize
        ensures { result ≡ left self.now.pos (length self.now.«data».now) }
    {
        cursor::available(self.pos, self.data)
    }

    // Moves the position over bytes that were written through write_buf; the bytes are only looked at.
    pub fn commit(&mut self, n: usize) -> Result<(), Error>
        ensures same_buffer { self.new.«data».ghost_name ≡ self.old.«data».ghost_name }
        ensures value { result ≡ done (moving self.old.pos (length self.old.«data».now) n) }
        ensures pos_after { self.new.pos ≡ stepped self.old.pos (moving self.old.pos (length self.old.«data».now) n) }
        ensures data_after { self.new.«data».now ≡ self.old.«data».now }
    {
        let data = &mut *self.data;
        self.pos = commit(self.pos, data, n)?;
        Ok(())
    }

    // The bytes of a number, written whole or not at all.
    pub fn write<T: Primitive>(&mut self, v: T) -> Result<(), Error>
        ensures same_buffer { self.new.«data».ghost_name ≡ self.old.«data».ghost_name }
        ensures value { result ≡ done (writing self.old.pos self.old.«data».now (bytes_of T.SIZE (T.number v))) }
        ensures pos_after { self.new.pos ≡ stepped self.old.pos (writing self.old.pos self.old.«data».now (bytes_of T.SIZE (T.number v))) }
        ensures data_after { self.new.«data».now ≡ laid_at self.old.pos (bytes_of T.SIZE (T.number v)) self.old.«data».now }
    {
        let out = &mut *self.data;
        self.pos = write(self.pos, out, v)?;
        Ok(())
    }

    pub fn append(&mut self, src: &[u8]) -> Result<(), Error>
        ensures same_buffer { self.new.«data».ghost_name ≡ self.old.«data».ghost_name }
        ensures value { result ≡ done (writing self.old.pos self.old.«data».now src.now) }
        ensures pos_after { self.new.pos ≡ stepped self.old.pos (writing self.old.pos self.old.«data».now src.now) }
        ensures data_after { self.new.«data».now ≡ laid_at self.old.pos src.now self.old.«data».now }
    {
        let out = &mut *self.data;
        self.pos = append(self.pos, out, src)?;
        Ok(())
    }

    // What was written.
    pub fn finish(self) -> &'d mut [u8]
        ensures { result.now ≡ finished self.entry.pos self.entry.«data».now }
    {
        let WriteCursor { pos, data } = self;
        finish(pos, data)
    }
}

// Moves the position back to npos; it never moves it on.
// Kept beside the struct: outsiders call the functions (what may not change); the methods are thin over them.
pub fn truncate(pos: usize, npos: usize) -> usize
    ensures { result ≡ truncated pos npos }
{
    pos.min(npos)
}

// Moves the position over bytes that were written through write_buf; the bytes are only looked at.
pub fn commit(pos: usize, data: &[u8], n: usize) -> Result<usize, Error>
    ensures { result ≡ moving pos (length «data».now) n }
{
    cursor::forward(pos, data.len(), n)
}

// Kept: `split_first`, `split_second`, `write_buf` and `fill` are functions and no methods, since lending a part
// of the field's buffer out of `&mut self` gets no proof (tried).
pub fn split_first(pos: usize, data: &mut [u8], n: usize) -> &mut [u8]
    ensures { result.now ≡ split_first pos «data».old n }
{
    match cursor::forward(pos, data.len(), n) {
        Ok(_) => &mut data[0..n],
        Err(_) => &mut data[0..0],
    }
}

pub fn split_second(pos: usize, data: &mut [u8], n: usize) -> &mut [u8]
    ensures { result.now ≡ split_second pos «data».old n }
{
    match cursor::forward(pos, data.len(), n) {
        Ok(_) => &mut data[n..],
        Err(_) => &mut data[0..0],
    }
}

// The bytes of a number, written whole or not at all.
#[tactic(auto, using(primitives::specs::NumbersLaws::length_bytes))]
pub fn write<T: Primitive>(pos: usize, data: &mut [u8], v: T) -> Result<usize, Error>
    ensures value { result ≡ writing pos «data».old (bytes_of T.SIZE (T.number v)) }
    ensures data_after { «data».new ≡ laid_at pos (bytes_of T.SIZE (T.number v)) «data».old }
{
    let next = cursor::forward(pos, data.len(), T::SIZE)?;
    v.encode(&mut data[pos..])?;
    Ok(next)
}

pub fn append(pos: usize, data: &mut [u8], src: &[u8]) -> Result<usize, Error>
    ensures value { result ≡ writing pos «data».old src.now }
    ensures data_after { «data».new ≡ laid_at pos src.now «data».old }
{
    let next = cursor::forward(pos, data.len(), src.len())?;
    codec::write_bytes(src, &mut data[pos..])?;
    Ok(next)
}

// The rest of the writable bytes from the position on is lent out.
pub fn write_buf(pos: usize, data: &mut [u8]) -> &mut [u8]
    ensures { result.now ≡ rest pos «data».old }
{
    let n = pos.min(data.len());
    &mut data[n..]
}

// The encoder of the next field fills what write_buf lends, and the filled part is handed back.
// Whether it was filled is what commit answers for its bytes.
#[tactic(auto, using(primitives::specs::NumbersLaws::length_bytes))]
pub fn fill<T: Primitive>(pos: usize, data: &mut [u8], v: T) -> &mut [u8]
    ensures { result.now ≡ filled pos «data».old (bytes_of T.SIZE (T.number v)) }
{
    match cursor::forward(pos, data.len(), T::SIZE) {
        Ok(_) => {
            let w = write_buf(pos, data);
            let _ = v.encode(&mut w[..]);
            w
        }
        Err(_) => &mut data[0..0],
    }
}

pub fn finish(pos: usize, data: &mut [u8]) -> &mut [u8]
    ensures { result.now ≡ finished pos «data».old }
{
    if pos <= data.len() {
        &mut data[..pos]
    } else {
        &mut data[..0]
    }
}
