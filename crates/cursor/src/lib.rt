// cursor.rs: a position in some bytes, and the reading cursor; the writing cursor is the crate cursor_write.
// The position goes by value beside the lent bytes, in the order of cursor.rs's fields, and a call that
// moves it answers the new one. Where a part is the answer, a refusal gives the empty part, and `given`
// (for slice, `slice_answer`) says which it was.
//
// A port of src/cursor.rs of trouble-host 0.8.0, which was changed: see NOTICE.
#![tactic(auto)]

ghost use Rattle.std.specs.Prelude.{◌≡◌, Ok, Err, length};
ghost use Rattle.codec.specs.declared.Error.TheVariants.{InvalidValue};
ghost use Rattle.cursor.specs.Position.{left, moving, parting};
ghost use Rattle.cursor.specs.Reading.{read_at, rest, sliced};

use codec::Error;
use primitives::Primitive;

// Both cursors' new, reset, len and available.
// Kept: position and bytes one by one, and `reset`, `consume`, `slice_answer` beside `new`, `slice`, `forward`:
// the names of cursor.rs, which outsiders call; the structs are ReadCursor and WriteCursor.
pub fn new() -> usize
    ensures { result ≡ 0 }
{
    0
}

pub fn reset() -> usize
    ensures { result ≡ 0 }
{
    new()
}

// The length of what was read or written so far: the position. Like every call on a cursor it is handed
// both fields.
pub fn len(pos: usize, _data: &[u8]) -> usize
    ensures { result ≡ pos }
{
    pos
}

pub fn available(pos: usize, data: &[u8]) -> usize
    ensures { result ≡ left pos (length «data».now) }
{
    data.len().saturating_sub(pos)
}

// The one test behind every call: the position behind n bytes of `len`. On a refusal the caller's own
// position stands.
pub fn forward(pos: usize, len: usize, n: usize) -> Result<usize, Error>
    ensures { result ≡ moving pos len n }
{
    if len < pos || len - pos < n {
        return Err(Error::InsufficientSpace);
    }
    Ok(pos + n)
}

// The same where the position does not move: whether a part was given, where the part itself may be
// empty. For a part whose length is not asked for, n is 0.
pub fn given(pos: usize, len: usize, n: usize) -> Result<(), Error>
    ensures { result ≡ parting pos len n }
{
    forward(pos, len, n)?;
    Ok(())
}

// The number at the position, and the position behind it.
pub fn read<T: Primitive>(pos: usize, data: &[u8]) -> Result<(T, usize), Error>
    ensures { result ≡ read_at T.SIZE (λ v next. Ok (T.of v, next)) (Err InvalidValue) pos «data».now }
{
    match forward(pos, data.len(), T::SIZE) {
        Ok(next) => Ok((T::at(data, pos), next)),
        Err(_) => Err(Error::InvalidValue),
    }
}

// Kept: what may not change: `slice`, `consume` and `remaining` cannot fail, and `slice_answer` and `given`
// say which part was refused; `ReadCursor` has the two as one Result.
pub fn slice(pos: usize, data: &[u8], n: usize) -> &[u8]
    ensures { result.now ≡ sliced pos «data».now n }
{
    match forward(pos, data.len(), n) {
        Ok(next) => &data[pos..next],
        Err(_) => &data[0..0],
    }
}

pub fn slice_answer(pos: usize, data: &[u8], n: usize) -> Result<usize, Error>
    ensures { result ≡ moving pos (length «data».now) n }
{
    forward(pos, data.len(), n)
}

// The part that slice gives; the cursor is used up, so that no position comes back.
pub fn consume(pos: usize, data: &[u8], n: usize) -> &[u8]
    ensures { result.now ≡ sliced pos «data».now n }
{
    slice(pos, data, n)
}

pub fn remaining(pos: usize, data: &[u8]) -> &[u8]
    ensures { result.now ≡ rest pos «data».now }
{
    &data[pos.min(data.len())..]
}
