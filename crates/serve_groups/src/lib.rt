// Document 01, "How a packet is served": the types that open a group, and where a group ends.
#![tactic(auto)]

ghost use Rattle.std.specs.Prelude.{◌≡◌, map};
ghost use Rattle.ble_uuid.specs.Uuids.{own};
ghost use Rattle.answers.specs.Replies.{groups, group_end};
ghost use Rattle.serve_groups.specs.Groups.{outline, outlines_of};

use attributes::{Record, Table};

// Whether these are the bytes of the type 2800 or 2801.
#[tactic(auto, unfolding(answers::specs::Replies::groups))]
pub fn is_group(kind: &[u8]) -> bool
    ensures { result ≡ groups kind.now }
{
    ble_uuid::equal_types(kind, &[0x00, 0x28]) || ble_uuid::equal_types(kind, &[0x01, 0x28])
}

// The handle of the last record before the next one that opens a group, or of the table's last record.
pub fn group_end(table: &Table, handle: u16) -> u16
    ensures { result ≡ group_end (outlines_of table.now) handle }
{
    end_among(table.entries(), handle)
}

fn opens_group(r: Record) -> bool
    ensures { result ≡ groups (own r.kind) }
{
    is_group(r.kind.own_bytes())
}

fn end_among(records: &[Record], handle: u16) -> u16
    ensures { result ≡ group_end (map outline records.now) handle }
{
    let mut last = handle;
    for r in records {
        if handle < r.handle {
            if opens_group(*r) {
                return last;
            }
            last = r.handle;
        }
    }
    last
}
