// Document 01, "Table, link and the till's own stores": a table of attributes, adding, looking up and the
// till's own store. The table goes in and comes back by value, so on a refusal the caller's own stands; the
// caller lends the fixed and the live bytes.
//
// Any table may be handed in: one that is not sound is refused with 11, and nothing outside the lent bytes
// is touched.
#![tactic(auto)]

ghost use Rattle.std.specs.Prelude.{◌≡◌, length};
ghost use Rattle.attributes.specs.Soundness.{sound_table};
ghost use Rattle.attributes.specs.Ledger.{lookup_refusal, looked_up};
ghost use Rattle.attributes.specs.Additions.{empty_table, new_table, fresh_place, fresh, added, table_after, added_table};
ghost use Rattle.attributes.specs.Stores.{stored, stored_table, stored_live};

use attributes::{Addition, Place, Record, Room, Table};
use codec::Refusal;

// A table with no record, for areas of these lengths. A live area over 32,768 bytes is refused.
#[tactic(auto, unfolding(attributes::specs::Additions::new_table))]
pub fn new(fixed: &[u8], live: &[u8]) -> Result<Table, Refusal>
    ensures { result ≡ new_table (length fixed.now) (length live.now) }
{
    if 32768 < live.len() {
        return Err(Refusal::BadTable);
    }
    Ok(empty(fixed.len(), live.len()))
}

// Whether the table is sound for these lent areas.
// Kept: table and areas one by one, here and below: outsiders call them so (what may not change).
pub fn sound(t: Table, fixed: &[u8], live: &[u8]) -> bool
    ensures { result ≡ sound_table t (length fixed.now) (length live.now) }
{
    sound_for(t, fixed.len(), live.len())
}

// The same, of the areas' lengths alone: for a caller whose live bytes are lent for change.
pub fn sound_for(t: Table, fixed_len: usize, live_len: usize) -> bool
    ensures { result ≡ sound_table t fixed_len live_len }
{
    table_rules::sound_for(t, fixed_len, live_len)
}

// An attribute more. The first of the tests 11, 3, 4, 5, 6 and 7 that fails is the refusal.
#[tactic(auto, unfolding(attributes::specs::Additions::added, attributes::specs::Additions::add_refusal, table_rules::specs::Walks::walked_table))]
pub fn add(t: Table, a: Addition, fixed: &[u8], live: &[u8]) -> Result<Table, Refusal>
    ensures value { result ≡ added t a (length fixed.now) (length live.now) }
    ensures table_after { table_after t result ≡ added_table t a (length fixed.now) (length live.now) }
{
    let walked = table_rules::walk(t, fixed.len(), live.len()).ok_or(Refusal::BadTable)?;
    if 64 <= t.count {
        return Err(Refusal::TableFull);
    }
    if a.handle <= walked.last {
        return Err(Refusal::BadHandle);
    }
    if !table_rules::type_ok(a.kind) {
        return Err(Refusal::BadType);
    }
    if !table_rules::value_ok(fixed.len(), a.writable, a.room) {
        return Err(Refusal::BadValue);
    }
    if !table_rules::space_ok(live.len(), walked.used, a.room) {
        return Err(Refusal::NoRoom);
    }
    let mut next = t;
    next.records[t.count] = record_for(a, walked.used);
    next.count += 1;
    Ok(next)
}

// An attribute's value, as a part of the fixed or of the live bytes. It is empty on a refusal, which
// `lookup_refusal` tells.
// Kept: two functions and no Result of the part: outsiders call both, and `looked_up` and `lookup_refusal`
// say one each (what may not change).
#[tactic(auto, unfolding(attributes::specs::Ledger::looked_up))]
pub fn lookup<'a>(t: Table, handle: u16, fixed: &'a [u8], live: &'a [u8]) -> &'a [u8]
    ensures { result.now ≡ looked_up t handle fixed.now live.now }
{
    if !sound_for(t, fixed.len(), live.len()) {
        return &[];
    }
    table_records::value_at(t, handle, fixed, live)
}

#[tactic(auto, unfolding(attributes::specs::Ledger::lookup_refusal), using(attributes::specs::FindLaws::item_first, attributes::specs::FindLaws::record_found))]
pub fn lookup_refusal(t: Table, handle: u16, fixed: &[u8], live: &[u8]) -> Result<(), Refusal>
    ensures { result ≡ lookup_refusal t handle fixed.now live.now }
{
    if !sound_for(t, fixed.len(), live.len()) {
        return Err(Refusal::BadTable);
    }
    match table_records::record_at(t, handle) {
        Some(_) => Ok(()),
        None => Err(Refusal::UnknownHandle),
    }
}

// The till's own store: value and length are set whatever the marks. The first of the tests 11, 8, 9
// and 10 that fails is the refusal.
#[tactic(auto, unfolding(attributes::specs::Stores::stored), using(attributes::proofs::AdditionLaws::left_after))]
pub fn store(
    t: Table,
    handle: u16,
    value: &[u8],
    fixed: &[u8],
    live: &mut [u8],
) -> Result<Table, Refusal>
    ensures value { result ≡ stored t handle value.now fixed.now live.old }
    ensures table_after { table_after t result ≡ stored_table t handle value.now fixed.now live.old }
    ensures live_after { live.new ≡ stored_live t handle value.now fixed.now live.old }
{
    table_store::store(t, handle, value, fixed, live)
}

fn empty(fixed_len: usize, live_len: usize) -> Table
    ensures { result ≡ empty_table fixed_len live_len }
{
    let blank = Record {
        handle: 0,
        kind: ble_uuid::no_uuid(),
        readable: false,
        writable: false,
        read_encrypted: false,
        write_encrypted: false,
        place: Place::Fixed { at: 0, len: 0 },
    };
    Table {
        records: [blank; 64],
        count: 0,
        fixed_len,
        live_len,
    }
}

// The record that an addition makes; a live one starts at `used`, with length 0.
fn record_for(a: Addition, used: usize) -> Record
    ensures { result ≡ fresh used a }
{
    Record {
        handle: a.handle,
        kind: a.kind,
        readable: a.readable,
        writable: a.writable,
        read_encrypted: a.read_encrypted,
        write_encrypted: a.write_encrypted,
        place: place_for(a.room, used),
    }
}

fn place_for(room: Room, used: usize) -> Place
    ensures { result ≡ fresh_place used room }
{
    match room {
        Room::Fixed { at, len } => Place::Fixed { at, len },
        Room::Live { capacity } => Place::Live {
            at: used,
            capacity,
            len: 0,
        },
    }
}
