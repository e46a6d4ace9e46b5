// Document 01, "Table, link and the till's own stores": the types of the table. The book of the table is
// in specs/, the laws behind it in proofs/.
#![tactic(auto)]

ghost use Rattle.std.specs.Prelude.{◌≡◌};
ghost use Rattle.attributes.specs.Records.{entries};

use ble_uuid::Uuid;

// Where a record's value stands: in the fixed bytes, or in a slot of the live bytes.
#[derive(Clone, Copy)]
pub enum Place {
    Fixed {
        at: usize,
        len: usize,
    },
    Live {
        at: usize,
        capacity: usize,
        len: usize,
    },
}

// An attribute. `kind` is its type; the last two marks say that reading, or writing, needs encryption.
#[derive(Clone, Copy)]
pub struct Record {
    pub handle: u16,
    pub kind: Uuid,
    pub readable: bool,
    pub writable: bool,
    pub read_encrypted: bool,
    pub write_encrypted: bool,
    pub place: Place,
}

// The first `count` records, and the lengths of the two areas that the table was built for.
// Kept: with no heap the records stand in an array with their count beside; `entries` lends those that count.
#[derive(Clone, Copy)]
pub struct Table {
    pub records: [Record; 64],
    pub count: usize,
    pub fixed_len: usize,
    pub live_len: usize,
}

impl Table {
    // The records that count; no more than 64 are looked at.
    pub fn entries(&self) -> &[Record]
        ensures { result.now ≡ entries self.now }
    {
        &self.records[..self.count.min(64)]
    }
}

// What an addition asks for: a part of the fixed bytes, or a live slot.
#[derive(Clone, Copy)]
pub enum Room {
    Fixed { at: usize, len: usize },
    Live { capacity: usize },
}

// An attribute to be added.
// Kept: beside `Record`, and not one generic struct with it, since the theorems name both.
#[derive(Clone, Copy)]
pub struct Addition {
    pub handle: u16,
    pub kind: Uuid,
    pub readable: bool,
    pub writable: bool,
    pub read_encrypted: bool,
    pub write_encrypted: bool,
    pub room: Room,
}
