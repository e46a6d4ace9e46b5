// Document 01, "Table, link and the till's own stores": the rules of a table, decided. Each is as
// Soundness.antt of the book has it; sizes are compared by subtraction, so no sum can wrap.
#![tactic(auto)]

ghost use Rattle.std.specs.Prelude.{◌≡◌};
ghost use Rattle.attributes.specs.Records.{entries, slot_of, slot_size};
ghost use Rattle.attributes.specs.Soundness.{type_ok, value_ok, space_ok, start_ok, length_ok, room_of, record_ok, sound_table};
ghost use Rattle.table_rules.specs.Walks.{whole_ok, begun, behind, walk_from, walked_table};

use attributes::{Place, Record, Room, Table};
use ble_uuid::Uuid;

// The last handle and the end of the slots of a sound table.
#[derive(Clone, Copy)]
pub struct Walked {
    pub last: u16,
    pub used: usize,
}

// What a walk over a sound table finds out; there is none over one that is not sound.
// Kept: two lengths and no struct: `sound_table` and `table::sound_for` take them singly (what may not change).
#[tactic(auto, using(crate::proofs::WalkLaws::walked_by))]
pub fn walk(t: Table, fixed_len: usize, live_len: usize) -> Option<Walked>
    ensures { result ≡ walked_table t fixed_len live_len }
{
    if !whole_ok(t, fixed_len, live_len) {
        return None;
    }
    walk_records(t, fixed_len, live_len)
}

// Whether a table is sound for lent areas of these lengths.
#[tactic(auto, using(crate::proofs::WalkLaws::walked_sound))]
pub fn sound_for(t: Table, fixed_len: usize, live_len: usize) -> bool
    ensures { result ≡ sound_table t fixed_len live_len }
{
    walk(t, fixed_len, live_len).is_some()
}

// No type is a 32-bit UUID.
pub fn type_ok(kind: Uuid) -> bool
    ensures { result ≡ type_ok kind }
{
    !matches!(kind, Uuid::Uuid32(_))
}

// No capacity and no fixed value is over 512 bytes; a fixed value lies inside the fixed bytes and is not
// writable.
pub fn value_ok(fixed_len: usize, writable: bool, room: Room) -> bool
    ensures { result ≡ value_ok fixed_len writable room }
{
    match room {
        Room::Fixed { at, len } => {
            len <= 512 && at <= fixed_len && len <= fixed_len - at && !writable
        }
        Room::Live { capacity } => capacity <= 512,
    }
}

// From byte `used` on the live area has room for the capacity.
pub fn space_ok(live_len: usize, used: usize, room: Room) -> bool
    ensures { result ≡ space_ok live_len used room }
{
    match room {
        Room::Fixed { .. } => true,
        Room::Live { capacity } => used <= live_len && capacity <= live_len - used,
    }
}

// The rules of the whole table, its records apart.
fn whole_ok(t: Table, fixed_len: usize, live_len: usize) -> bool
    ensures { result ≡ whole_ok t fixed_len live_len }
{
    t.count <= 64 && t.live_len <= 32768 && fixed_len == t.fixed_len && live_len == t.live_len
}

fn start_ok(used: usize, place: Place) -> bool
    ensures { result ≡ start_ok used place }
{
    match place {
        Place::Fixed { .. } => true,
        Place::Live { at, .. } => at == used,
    }
}

fn length_ok(place: Place) -> bool
    ensures { result ≡ length_ok place }
{
    match place {
        Place::Fixed { .. } => true,
        Place::Live { capacity, len, .. } => len <= capacity,
    }
}

fn room_of(place: Place) -> Room
    ensures { result ≡ room_of place }
{
    match place {
        Place::Fixed { at, len } => Room::Fixed { at, len },
        Place::Live { capacity, .. } => Room::Live { capacity },
    }
}

fn slot_size(place: Place) -> usize
    ensures { result ≡ slot_size (slot_of place) }
{
    match place {
        Place::Fixed { .. } => 0,
        Place::Live { capacity, .. } => capacity,
    }
}

// A record behind those of this walk.
fn record_ok(r: Record, fixed_len: usize, live_len: usize, walked: Walked) -> bool
    ensures { result ≡ record_ok fixed_len live_len walked.last walked.used r }
{
    let room = room_of(r.place);
    walked.last < r.handle
        && type_ok(r.kind)
        && value_ok(fixed_len, r.writable, room)
        && space_ok(live_len, walked.used, room)
        && start_ok(walked.used, r.place)
        && length_ok(r.place)
}

// The walk with this record behind; none where it breaks a rule.
#[tactic(auto, using(crate::proofs::WalkLaws::slot_within))]
fn behind(walked: Walked, r: Record, fixed_len: usize, live_len: usize) -> Option<Walked>
    ensures { result ≡ behind fixed_len live_len walked r }
{
    if !record_ok(r, fixed_len, live_len, walked) {
        return None;
    }
    Some(Walked {
        last: r.handle,
        used: walked.used + slot_size(r.place),
    })
}

#[tactic(auto, using(crate::proofs::WalkLaws::walk_stops, crate::proofs::WalkLaws::walk_goes, crate::proofs::WalkLaws::walk_ends))]
fn walk_records(t: Table, fixed_len: usize, live_len: usize) -> Option<Walked>
    ensures { result ≡ walk_from fixed_len live_len begun (entries t) }
{
    let mut walked = Walked { last: 0, used: 0 };
    for r in t.entries() {
        walked = behind(walked, *r, fixed_len, live_len)?;
    }
    Some(walked)
}
