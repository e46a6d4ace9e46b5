// att.rs: the size of a packet and its encoding. Both go by the packet's layout and the bytes that follow its
// fixed fields, so that the size is the length of what is written.
//
// A port of src/att.rs of trouble-host 0.8.0, which was changed: see NOTICE.
#![tactic(auto)]

ghost use Rattle.std.specs.Prelude.{◌≡◌, ◌++◌, ◌+◌, ◌^◌, ◌≤◌, ◌<◌, length, option_copied};
ghost use Rattle.codec.specs.Buffer.{laid, laid_at, written};
ghost use Rattle.att.specs.Typed.{encoded, length_of, written_of, laid_of};
ghost use Rattle.att_layout.specs.Layout.{head_bytes, field_bytes};
ghost use Rattle.att_encode.specs.Tail.{following, tail_bytes, whole_part, sent_uuid};

use att::Att;
use att_layout::{Fields, Follows, Layout};
use ble_uuid::Uuid;
use codec::Error;

// The length of a packet's encoding.
pub fn size(att: Att, src: &[u8]) -> Result<usize, Error>
    ensures { result ≡ length_of (encoded att src.now) }
{
    let l = att_layout::lay_out(att);
    let Some(tail) = tail(&l, src) else {
        return Err(Error::InvalidValue);
    };
    Ok(l.len + tail.len())
}

// A packet's fields over the start of `out`; a refusal writes nothing.
pub fn encode(att: Att, src: &[u8], out: &mut [u8]) -> Result<usize, Error>
    ensures value { result ≡ written_of (encoded att src.now) out.old }
    ensures out_after { out.new ≡ laid_of (encoded att src.now) out.old }
{
    let l = att_layout::lay_out(att);
    let Some(tail) = tail(&l, src) else {
        return Err(Error::InvalidValue);
    };
    write_packet(l, tail, out)
}

// What follows the fixed fields. The range and the values are tested, and that the length is a number.
#[tactic(auto, unfolding(crate::specs::Tail::tail_bytes))]
fn tail<'a>(l: &'a Layout, src: &'a [u8]) -> Option<&'a [u8]>
    ensures { option_copied result ≡ tail_bytes l.now src.now }
{
    let part = l.part.of(src)?;
    let tail = following(&l.follows, part)?;
    l.len.checked_add(tail.len())?;
    Some(tail)
}

fn following<'a>(follows: &'a Follows, part: &'a [u8]) -> Option<&'a [u8]>
    ensures { option_copied result ≡ following follows.now part.now }
{
    match follows {
        Follows::Nothing => Some(&[]),
        Follows::Data => Some(part),
        Follows::Items(each) => whole_items(part, *each),
        Follows::AUuid(uuid) => sent_uuid(uuid),
    }
}

// An incomplete last item is dropped.
fn whole_items(part: &[u8], each: usize) -> Option<&[u8]>
    ensures { option_copied result ≡ whole_part each part.now }
{
    if each < 2 {
        return None;
    }
    Some(&part[..part.len() - part.len() % each])
}

// Only a UUID of 2 or 16 bytes is sent.
fn sent_uuid(uuid: &Uuid) -> Option<&[u8]>
    ensures { option_copied result ≡ sent_uuid uuid.now }
{
    let own = uuid.air_bytes();
    match own.len() {
        2 | 16 => Some(own),
        _ => None,
    }
}

// The opcode, the fields and what follows them, one behind the other from the start of a lent buffer. Room is
// tested for all of them before the first is written.
// Kept: places counted on by `?`: over WriteCursor the proof of where each field stands did not close (tried).
fn write_packet(l: Layout, tail: &[u8], out: &mut [u8]) -> Result<usize, Error>
    requires head { l.len ≡ length (head_bytes l.opcode l.fields) }
    requires number { l.len + length tail.now < 2 ^ 64 }
    ensures value { result ≡ written (head_bytes l.opcode l.fields ++ tail.now) out.old }
    ensures out_after { out.new ≡ laid (head_bytes l.opcode l.fields ++ tail.now) out.old }
{
    if out.len() < l.len + tail.len() {
        return Err(Error::InsufficientSpace);
    }
    let fields_at = cursor_write::write(0, out, l.opcode)?;
    let tail_at = write_fields(fields_at, out, l.fields)?;
    cursor_write::append(tail_at, out, tail)
}

// The fixed fields, one behind the other.
fn write_fields(at: usize, out: &mut [u8], fields: Fields) -> Result<usize, Error>
    requires { at + length (field_bytes fields) ≤ length out.old }
    ensures value { result ≡ Ok (at + length (field_bytes fields)) }
    ensures out_after { out.new ≡ laid_at at (field_bytes fields) out.old }
{
    match fields {
        Fields::Bare => Ok(at),
        Fields::Byte(v) => cursor_write::write(at, out, v),
        Fields::Word(v) => cursor_write::write(at, out, v),
        Fields::Pair(v, w) => {
            let at = cursor_write::write(at, out, v)?;
            cursor_write::write(at, out, w)
        }
        Fields::Triple(v, w, x) => {
            let at = cursor_write::write(at, out, v)?;
            let at = cursor_write::write(at, out, w)?;
            cursor_write::write(at, out, x)
        }
        Fields::Error(request, handle, code) => {
            let at = cursor_write::write(at, out, request)?;
            let at = cursor_write::write(at, out, handle)?;
            cursor_write::write(at, out, code)
        }
    }
}
