// What code reads of a record: its type, whether a link may read its value, and the value. The
// permission is decided from the marks and the link alone, before any value or length is looked at.
#![tactic(auto)]

ghost use Rattle.std.specs.Prelude.{◌≡◌, take, drop};
ghost use Rattle.codec.specs.Cases.{same};
ghost use Rattle.ble_uuid.specs.Uuids.{own, equal_types};
ghost use Rattle.attributes.specs.Records.{value_of};
ghost use Rattle.serve_record.specs.Permissions.{permission_of};

use att_error::AttErrorCode;
use attributes::{Place, Record};

// Whether a link may read the record's value, or the code that it is refused with.
#[tactic(auto, unfolding(crate::specs::Permissions::permission_of))]
pub fn may_read(r: Record, encrypted: bool) -> Result<(), AttErrorCode>
    ensures { result ≡ permission_of encrypted r }
{
    if !r.readable {
        return Err(AttErrorCode::READ_NOT_PERMITTED);
    }
    if r.read_encrypted && !encrypted {
        return Err(AttErrorCode::INSUFFICIENT_ENCRYPTION);
    }
    Ok(())
}

// Whether the record has the type of these bytes.
pub fn has_type(r: Record, kind: &[u8]) -> bool
    ensures { result ≡ equal_types (own r.kind) kind.now }
{
    ble_uuid::equal_types(r.kind.own_bytes(), kind)
}

// Whether the whole value is this one.
#[tactic(auto, using(codec::specs::CasesLaws::same_eq))]
pub fn holds<'a>(place: Place, fixed: &'a [u8], live: &'a [u8], wanted: &[u8]) -> bool
    ensures { result ≡ same (value_of place fixed.now live.now) wanted.now }
{
    table_records::value(place, fixed, live) == wanted
}
