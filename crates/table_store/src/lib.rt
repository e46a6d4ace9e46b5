// Document 01, "Table, link and the till's own stores": the till's own store. The value goes into the slot
// of the record with the handle, and its length into the record; the table comes back by value.
#![tactic(auto)]

ghost use Rattle.std.specs.Prelude.{◌≡◌, ◌<◌, ◌≤◌, length};
ghost use Rattle.attributes.specs.Stores.{stored, stored_live};
ghost use Rattle.table_store.specs.Slots.{numbered, slot_end, stored_as, stored_as_live};

use attributes::{Place, Table};
use codec::Refusal;

// A value at a handle, whatever the marks. The first of the tests 11, 8, 9 and 10 that fails is the refusal.
#[tactic(auto, using(crate::proofs::SlotLaws::stored_by, crate::proofs::SlotLaws::stored_live_by, crate::proofs::SlotLaws::slot_within))]
pub fn store(
    t: Table,
    handle: u16,
    value: &[u8],
    fixed: &[u8],
    live: &mut [u8],
) -> Result<Table, Refusal>
    ensures value { result ≡ stored t handle value.now fixed.now live.old }
    ensures live_after { live.new ≡ stored_live t handle value.now fixed.now live.old }
{
    if !table_rules::sound_for(t, fixed.len(), live.len()) {
        return Err(Refusal::BadTable);
    }
    let i = table_records::find(t, handle).ok_or(Refusal::UnknownHandle)?;
    store_record(t, i, value, live)
}

// A value into the slot of the record with the number `i`, which lies inside the live bytes.
#[tactic(auto, unfolding(crate::specs::Slots::stored_as, crate::specs::Slots::stored_as_live), using(codec::specs::BufferLaws::laid_at_lem))]
fn store_record(t: Table, i: usize, value: &[u8], live: &mut [u8]) -> Result<Table, Refusal>
    requires counts { i < 64 }
    requires slot { slot_end (numbered t i).place ≤ length live.old }
    ensures value { result ≡ stored_as t i (numbered t i) value.now }
    ensures live_after { live.new ≡ stored_as_live (numbered t i) value.now live.old }
{
    match t.records[i].place {
        Place::Fixed { .. } => Err(Refusal::NotStorable),
        Place::Live { at, capacity, .. } => {
            let len = value.len();
            if capacity < len {
                return Err(Refusal::TooLong);
            }
            live[at..at + len].copy_from_slice(value);
            let mut next = t;
            next.records[i].place = Place::Live { at, capacity, len };
            Ok(next)
        }
    }
}
