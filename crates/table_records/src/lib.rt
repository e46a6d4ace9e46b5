// Document 01, "Table, link and the till's own stores": a record found by its handle, and the value that
// stands at its place.
#![tactic(auto)]

ghost use Rattle.std.specs.Prelude.{◌≡◌, ◌==◌, take, drop, find};
ghost use Rattle.attributes.specs.Ledger.{ledger_of, value_at};
ghost use Rattle.attributes.specs.Records.{entries, value_of, find_in};

use attributes::{Place, Record, Table};

// The number of the first record with this handle.
pub fn find(t: Table, handle: u16) -> Option<usize>
    ensures { result ≡ find_in handle (entries t) }
{
    t.entries().iter().position(|r| r.handle == handle)
}

// The first record with this handle.
pub fn record_at(t: Table, handle: u16) -> Option<Record>
    ensures { result ≡ find (λ r. r.handle == handle) (entries t) }
{
    t.entries().iter().copied().find(|r| r.handle == handle)
}

// The value at a handle, whatever the marks; none where there is no attribute.
#[tactic(auto, using(attributes::specs::FindLaws::item_first, attributes::specs::FindLaws::record_found))]
pub fn value_at<'a>(t: Table, handle: u16, fixed: &'a [u8], live: &'a [u8]) -> &'a [u8]
    ensures { result.now ≡ value_at handle (ledger_of t fixed.now live.now) }
{
    match record_at(t, handle) {
        None => &[],
        Some(r) => value(r.place, fixed, live),
    }
}

// The value of a record at this place, as a part of the fixed or of the live bytes.
pub fn value<'a>(place: Place, fixed: &'a [u8], live: &'a [u8]) -> &'a [u8]
    ensures { result.now ≡ value_of place fixed.now live.now }
{
    match place {
        Place::Fixed { at, len } => part(fixed, at, len),
        Place::Live { at, len, .. } => part(live, at, len),
    }
}

// The part of `len` bytes from `at` on, cut where the slice ends.
pub fn part(s: &[u8], at: usize, len: usize) -> &[u8]
    ensures { result.now ≡ take len (drop at s.now) }
{
    let rest = &s[at.min(s.len())..];
    &rest[..len.min(rest.len())]
}
