// cursor.rs's ReadCursor: the received bytes and the position in them, kept together. Each method goes by the
// function of the crate cursor that has its name, `try_slice` and `try_consume` by `slice` and `consume` and the
// call that says their refusal. What moves the cursor leaves it behind what it read, on a refusal where it was.
//
// A port of src/cursor.rs of trouble-host 0.8.0, which was changed: see NOTICE.
#![tactic(auto)]

ghost use Rattle.std.specs.Prelude.{◌≡◌, Ok, Err, length};
ghost use Rattle.codec.specs.declared.Error.TheVariants.{InvalidValue};
ghost use Rattle.cursor.specs.Position.{left, moving, stepped};
ghost use Rattle.cursor.specs.Reading.{read_at, rest, sliced};
ghost use Rattle.cursor_read.specs.Parts.{part_of, slicing};

use codec::Error;
use primitives::Primitive;

#[derive(Clone, Copy)]
pub struct ReadCursor<'d> {
    pub pos: usize,
    pub data: &'d [u8],
}

impl<'d> ReadCursor<'d> {
    pub fn new(data: &'d [u8]) -> Self
        ensures { (result.pos ≡ 0) × (result.«data» ≡ «data».entry) }
    {
        ReadCursor {
            pos: cursor::new(),
            data,
        }
    }

    pub fn moved(self, next: usize) -> Self
        ensures { (result.pos ≡ next) × (result.«data» ≡ self.entry.«data») }
    {
        ReadCursor {
            pos: next,
            data: self.data,
        }
    }

    pub fn reset(&mut self)
        ensures { (self.new.pos ≡ 0) × (self.new.«data» ≡ self.old.«data») }
    {
        self.pos = cursor::reset();
    }

    pub fn read<T: Primitive>(&mut self) -> Result<T, Error>
        ensures value { result ≡ read_at T.SIZE (λ v next. Ok (T.of v)) (Err InvalidValue) self.old.pos self.old.«data».now }
        ensures pos_after { self.new.pos ≡ read_at T.SIZE (λ v next. next) self.old.pos self.old.pos self.old.«data».now }
        ensures data_after { self.new.«data» ≡ self.old.«data» }
    {
        let (value, next) = cursor::read::<T>(self.pos, self.data)?;
        self.pos = next;
        Ok(value)
    }

    // The next n bytes, or the empty part; `slice_answer` says which, and where the next cursor stands.
    // Kept, with `consume`, beside the two that answer a Result: they cannot fail (what may not change).
    pub fn slice(self, n: usize) -> &'d [u8]
        ensures { result.now ≡ sliced self.entry.pos self.entry.«data».now n }
    {
        cursor::slice(self.pos, self.data, n)
    }

    pub fn slice_answer(self, n: usize) -> Result<usize, Error>
        ensures { result ≡ moving self.entry.pos (length self.entry.«data».now) n }
    {
        cursor::slice_answer(self.pos, self.data, n)
    }

    pub fn consume(self, n: usize) -> &'d [u8]
        ensures part { result.now ≡ sliced self.entry.pos self.entry.«data».now n }
    {
        cursor::consume(self.pos, self.data, n)
    }

    // `slice` and its answer in one: the next n bytes, behind which the cursor then stands.
    pub fn try_slice(&mut self, n: usize) -> Result<&'d [u8], Error>
        ensures value { part_of result ≡ slicing self.old.pos self.old.«data».now n }
        ensures pos_after { self.new.pos ≡ stepped self.old.pos (moving self.old.pos (length self.old.«data».now) n) }
        ensures data_after { self.new.«data» ≡ self.old.«data» }
    {
        let part = cursor::slice(self.pos, self.data, n);
        self.pos = cursor::slice_answer(self.pos, self.data, n)?;
        Ok(part)
    }

    // `consume` and its answer in one; the cursor is used up.
    pub fn try_consume(self, n: usize) -> Result<&'d [u8], Error>
        ensures { part_of result ≡ slicing self.entry.pos self.entry.«data».now n }
    {
        cursor::given(self.pos, self.data.len(), n)?;
        Ok(cursor::consume(self.pos, self.data, n))
    }

    pub fn remaining(self) -> &'d [u8]
        ensures { result.now ≡ rest self.entry.pos self.entry.«data».now }
    {
        cursor::remaining(self.pos, self.data)
    }

    pub fn available(self) -> usize
        ensures { result ≡ left self.entry.pos (length self.entry.«data».now) }
    {
        cursor::available(self.pos, self.data)
    }

    pub fn len(self) -> usize
        ensures { result ≡ self.entry.pos }
    {
        cursor::len(self.pos, self.data)
    }
}

// A u16 field of a packet and the place behind it, read through a cursor: whoever calls this has a plain
// slice and a number.
pub fn field(data: &[u8], at: usize) -> Result<(u16, usize), Error>
    ensures { result ≡ read_at 2 (λ v next. Ok (v, next)) (Err InvalidValue) at «data».now }
{
    let mut cursor = ReadCursor::new(data).moved(at);
    let value = cursor.read::<u16>()?;
    Ok((value, cursor.pos))
}
