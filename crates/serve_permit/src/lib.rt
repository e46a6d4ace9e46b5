// Requests about one attribute: what a link may do at a handle, decided from marks and link alone, before
// any value or length is looked at: so the lent bytes are not passed here.
#![tactic(auto)]

ghost use Rattle.std.specs.Prelude.{◌≡◌, ◌==◌, find};
ghost use Rattle.std.specs.Option.{ok_or};
ghost use Rattle.att.specs.Typed.{code};
ghost use Rattle.attributes.specs.Records.{entries, slot_of, slot_size};
ghost use Rattle.serve_permit.specs.Permit.{read_at, write_at, writable_by, store_at};

use answers::Link;
use att_error::AttErrorCode;
use attributes::{Place, Record, Table};

// Kept: the table goes by value, here and in table_records, as what outsiders call of `table` takes it; by
// reference it would be no plainer.
// Reading the attribute at a handle: 01, 02 or 0F where it is denied.
#[tactic(auto, unfolding(crate::specs::Permit::read_at), using(attributes::specs::FindLaws::record_found))]
pub fn may_read(table: Table, link: Link, handle: u16) -> Result<(), AttErrorCode>
    ensures { result ≡ read_at link.encrypted handle (entries table) }
{
    serve_record::may_read(record_at(table, handle)?, link.encrypted)
}

// How many bytes may be written to it: 01, 03 or 0F where it is denied, else its capacity.
#[tactic(auto, unfolding(crate::specs::Permit::write_at), using(attributes::specs::FindLaws::record_found))]
pub fn may_write(table: Table, link: Link, handle: u16) -> Result<usize, AttErrorCode>
    ensures { result ≡ write_at link.encrypted handle (entries table) }
{
    room(record_at(table, handle)?, link.encrypted)
}

// Storing a value of `len` bytes there: the same, and 0D where it is over the capacity.
#[tactic(auto, unfolding(crate::specs::Permit::store_at))]
pub fn may_store(table: Table, link: Link, handle: u16, len: usize) -> Result<(), AttErrorCode>
    ensures { result ≡ store_at link.encrypted handle len (entries table) }
{
    if may_write(table, link, handle)? < len {
        return Err(AttErrorCode::INVALID_ATTRIBUTE_VALUE_LENGTH);
    }
    Ok(())
}

// The attribute at a handle: 01 where there is none.
fn record_at(table: Table, handle: u16) -> Result<Record, AttErrorCode>
    ensures { result ≡ ok_or (find (λ r. r.handle == handle) (entries table)) (code 0x01) }
{
    table_records::record_at(table, handle).ok_or(AttErrorCode::INVALID_HANDLE)
}

#[tactic(auto, unfolding(crate::specs::Permit::writable_by))]
fn room(r: Record, encrypted: bool) -> Result<usize, AttErrorCode>
    ensures { result ≡ writable_by encrypted r }
{
    if !r.writable {
        return Err(AttErrorCode::WRITE_NOT_PERMITTED);
    }
    if r.write_encrypted && !encrypted {
        return Err(AttErrorCode::INSUFFICIENT_ENCRYPTION);
    }
    Ok(capacity(r))
}

// A fixed value has no room: it is never writable in a sound table.
fn capacity(r: Record) -> usize
    ensures { result ≡ slot_size (slot_of r.place) }
{
    match r.place {
        Place::Fixed { .. } => 0,
        Place::Live { capacity, .. } => capacity,
    }
}
