// Document 01, "How a packet is served": the search that 04, 06, 08 and 10 share. One pass over the
// records, as far as the list goes; what a record gives is told by the request, and is joined to the
// items so far in one area.
//
// The permission is asked before any value or length is looked at: `offered` decides from type, marks and
// link, and only what it takes is read.
#![tactic(auto)]

ghost use Rattle.std.specs.Prelude.{◌≡◌, ◌≤◌, map};
ghost use Rattle.attributes.specs.Records.{entries};
ghost use Rattle.answers.specs.Contract.{lent_state};
ghost use Rattle.serve_collect.specs.Collect.{head_of, taken, Fits, FirstFits};
ghost use Rattle.serve_search.specs.Search.{asked, room_for, listing_for};
ghost use Rattle.serve_search.specs.Walk.{offer_for, tail_for, given_by, turn_of, walked};

use answers::{Lent, Link};
use att_error::AttErrorCode;
use attributes::Record;
use serve_collect::{Failed, Head, Listed, Progress};

// 04, 06, 08 and 10.
#[derive(Clone, Copy)]
pub enum Ask {
    Info,
    Pair,
    Typed,
    Grouped,
}

// What is asked, of the attributes with handles from `from` to `to`: `kind` has the own bytes of the type
// asked for (06, 08, 10), `value` the value (06).
// Kept: one struct and no fields in `Ask`, since `asked` names kind and value of every request; and a match on
// `Ask` in six places, no closures: four requests and no more, each match as its definition has it (no plainer).
#[derive(Clone, Copy)]
pub struct Query<'a> {
    pub ask: Ask,
    pub from: u16,
    pub to: u16,
    pub kind: &'a [u8],
    pub value: &'a [u8],
}

// What was found. The items stand one after the other in the first `used` bytes, and 00 behind them.
// Kept: with no heap the items stand in an array with their length beside.
#[derive(Clone, Copy)]
pub struct Listing {
    pub found: Option<Result<Listed, Failed>>,
    pub items: [u8; 247],
}

// The list for a request. Nothing is found for an MTU that is not legal.
pub fn search(query: Query<'_>, lent: Lent<'_>) -> Listing
    ensures { result ≡ listing_for (asked query.entry) (lent_state lent.entry) }
{
    let mut items = [0u8; 247];
    if !serve_link::legal_mtu(lent.link.mtu) {
        return Listing { found: None, items };
    }
    let state = walk(query, lent, &mut items);
    Listing {
        found: serve_collect::result(state),
        items,
    }
}

// The records in order, until the list ends.
// Kept: the two bounds of the MTU, and no type for a sound link: it would stand beside `Link`, which the
// theorems name; `search` tests it once.
fn walk(query: Query<'_>, lent: Lent<'_>, items: &mut [u8]) -> Progress
    requires le_mtu { 23 ≤ lent.link.mtu }
    requires mtu_bound { lent.link.mtu ≤ 247 }
    ensures walk { walked (asked query.entry) (lent_state lent.entry) (entries lent.entry.table.now) items.old
        ≡ (result, items.new) }
    ensures fits { FirstFits (room_for query.entry.ask lent.entry.link)
        (map (given_by (asked query.entry) (lent_state lent.entry)) (entries lent.entry.table.now)) }
{
    let records = lent.table.entries();
    let mut state = Progress::Seeking;
    for r in records {
        state = turn(query, *r, lent, state, items);
        if serve_collect::ended(state) {
            return state;
        }
    }
    state
}

// One record.
fn turn(query: Query<'_>, r: Record, lent: Lent<'_>, state: Progress, items: &mut [u8]) -> Progress
    requires le_mtu { 23 ≤ lent.link.mtu }
    requires mtu_bound { lent.link.mtu ≤ 247 }
    ensures turn { turn_of (asked query.entry) (lent_state lent.entry) (state, items.old) r
        ≡ (result, items.new) }
    ensures fits { Fits (room_for query.entry.ask lent.entry.link)
        (given_by (asked query.entry) (lent_state lent.entry) r) }
{
    if r.handle < query.from || query.to < r.handle {
        return state;
    }
    match offered(query, r, lent) {
        None => state,
        Some(Ok(head)) => serve_collect::append(
            head,
            tail(query.ask, &r, lent),
            room(query.ask, lent.link),
            state,
            items,
        ),
        Some(Err(code)) => serve_collect::fail(state, r.handle, code),
    }
}

// What the record gives: nothing, an item with this head, or the code that reading it is refused with.
fn offered(query: Query<'_>, r: Record, lent: Lent<'_>) -> Option<Result<Head, AttErrorCode>>
    ensures { result ≡ offer_for query.entry.ask (asked query.entry) (lent_state lent.entry) r }
{
    match query.ask {
        Ask::Info => Some(Ok(Head::Handle(r.handle))),
        Ask::Pair => serve_offer::pair(query.kind, query.value, r, lent),
        Ask::Typed => serve_offer::typed(query.kind, r, lent.link),
        Ask::Grouped => serve_offer::grouped(query.kind, lent.table, r, lent.link),
    }
}

// What stands behind the head of an item: the type for 04, nothing for 06, the cut value for 08 and 10.
fn tail<'a>(ask: Ask, r: &'a Record, lent: Lent<'a>) -> &'a [u8]
    requires { 23 ≤ lent.link.mtu }
    ensures { result.now ≡ tail_for ask (lent_state lent.entry) r.now }
{
    let mtu = usize::from(lent.link.mtu);
    match ask {
        Ask::Info => r.kind.own_bytes(),
        Ask::Pair => &[],
        Ask::Typed => {
            let value = table_records::value(r.place, lent.fixed, lent.live);
            table_records::part(value, 0, mtu - 4)
        }
        Ask::Grouped => {
            let value = table_records::value(r.place, lent.fixed, lent.live);
            table_records::part(value, 0, mtu - 6)
        }
    }
}

// The room that an answer has for its items.
fn room(ask: Ask, link: Link) -> u8
    requires le_mtu { 23 ≤ link.mtu }
    requires mtu_bound { link.mtu ≤ 247 }
    ensures { result ≡ room_for ask link }
{
    let fixed = match ask {
        Ask::Pair => 1,
        _ => 2,
    };
    (link.mtu - fixed) as u8
}
