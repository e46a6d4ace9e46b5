// att.rs: the three iterators, each as its next item at a position, read through the reading cursor. The
// position counts from the first byte of the items and is 0 at first; an item tells the position behind it.
//
// A port of src/att.rs of trouble-host 0.8.0, which was changed: see NOTICE.
#![tactic(auto)]

ghost use Rattle.std.specs.Prelude.{◌≡◌, ◌+◌, ◌^◌, ◌≤◌, ◌<◌, ◌⊎◌, Some, length};
ghost use Rattle.att.specs.Typed.{show_att};
ghost use Rattle.att_items.specs.Iterators.{fitted, of_layout, item_shown, pair_at, pair_of, rest_of};
ghost use Rattle.att_items.specs.Iterators.{information_at, information_of, value_at, value_of};

use att::{
    ATT_FIND_BY_TYPE_VALUE_RSP, ATT_FIND_INFORMATION_RSP, ATT_READ_BY_GROUP_TYPE_RSP,
    ATT_READ_BY_TYPE_RSP, Att, Span,
};
use att_layout::{Follows, Layout};
use ble_uuid::Uuid;

// The bytes of an item in the received bytes, and the position behind it.
#[derive(Clone, Copy)]
struct Found {
    at: usize,
    len: usize,
    next: usize,
}

#[derive(Clone, Copy)]
pub struct HandlePair {
    pub handle: u16,
    pub end: u16,
    pub next: usize,
}

#[derive(Clone, Copy)]
pub struct HandleUuid {
    pub handle: u16,
    pub uuid: Uuid,
    pub next: usize,
}

// The rest of an item is a range of the received bytes.
#[derive(Clone, Copy)]
pub struct HandleValue {
    pub handle: u16,
    pub rest: Span,
    pub next: usize,
}

// FindByTypeValueIter: handle and end.
// Kept: the next item at a position that the caller holds, and no `impl Iterator`: the walk theorems
// (`walk_gives_the_items`) are of it.
pub fn find_by_type_value_next(att: Att, src: &[u8], pos: usize) -> Option<HandlePair>
    ensures { result ≡ pair_of (item_shown 0x07 0x07 (show_att att) src.now pos) src.now }
{
    let op = ATT_FIND_BY_TYPE_VALUE_RSP;
    let found = item(att, op, op, src, pos)?;
    pair_at(cursor::slice(found.at, src, found.len), found.next)
}

// FindInformationIter: handle and UUID.
pub fn find_information_next(att: Att, src: &[u8], pos: usize) -> Option<HandleUuid>
    ensures { result ≡ information_of (item_shown 0x05 0x05 (show_att att) src.now pos) src.now }
{
    let op = ATT_FIND_INFORMATION_RSP;
    let found = item(att, op, op, src, pos)?;
    information_at(cursor::slice(found.at, src, found.len), found.next)
}

// ReadByTypeIter, of 09 and 11: handle and the rest of the item.
pub fn read_by_type_next(att: Att, src: &[u8], pos: usize) -> Option<HandleValue>
    ensures { result ≡ value_of (item_shown 0x09 0x11 (show_att att) src.now pos) src.now }
{
    let found = value_item(att, src, pos)?;
    value_at(
        found.at,
        cursor::slice(found.at, src, found.len),
        found.next,
    )
}

// The rest of that item as a part of the received bytes; at the end an empty part.
// Kept: the rest as a part beside its range in `HandleValue`: outsiders call both.
pub fn read_by_type_rest(att: Att, src: &[u8], pos: usize) -> &[u8]
    ensures { result.now ≡ rest_of (item_shown 0x09 0x11 (show_att att) src.now pos) src.now }
{
    match value_item(att, src, pos) {
        Some(i) => cursor::remaining(2, cursor::slice(i.at, src, i.len)),
        None => &[],
    }
}

fn value_item(att: Att, src: &[u8], pos: usize) -> Option<Found>
    ensures { result ≡ item_shown 0x09 0x11 (show_att att) src.now pos }
{
    item(
        att,
        ATT_READ_BY_TYPE_RSP,
        ATT_READ_BY_GROUP_TYPE_RSP,
        src,
        pos,
    )
}

// The item of a packet of opcode `a` or `b`. A packet that encoding would refuse with InvalidValue has
// no size, and no item.
// Kept: opcodes and no patterns of packets: one test serves the three iterators (no plainer).
fn item(att: Att, a: u8, b: u8, src: &[u8], pos: usize) -> Option<Found>
    ensures { result ≡ item_shown a b (show_att att) src.now pos }
{
    let l = att_layout::lay_out(att);
    match att_encode::size(att, src) {
        Ok(_) => of_layout(l, a, b, pos),
        Err(_) => None,
    }
}

#[tactic(auto, unfolding(crate::specs::Iterators::of_layout, crate::specs::Iterators::fitted))]
fn of_layout(l: Layout, a: u8, b: u8, pos: usize) -> Option<Found>
    requires { l.part.at + l.part.len < 2 ^ 64 }
    ensures { result ≡ of_layout a b l pos }
{
    if l.opcode != a && l.opcode != b {
        return None;
    }
    match l.follows {
        Follows::Items(each) => fit(each, l.part, pos),
        _ => None,
    }
}

// A whole item of `each` bytes at the position of a range; past the data, and where less is left, the end.
#[tactic(auto, using(cursor::proofs::PositionLaws::went, cursor::proofs::PositionLaws::stayed), unfolding(crate::specs::Iterators::fitted))]
fn fit(each: usize, part: Span, pos: usize) -> Option<Found>
    requires { part.at + part.len < 2 ^ 64 }
    ensures { result ≡ fitted each part.at part.len pos }
{
    if each < 2 {
        return None;
    }
    let next = cursor::forward(pos, part.len, each).ok()?;
    Some(Found {
        at: part.at + pos,
        len: each,
        next,
    })
}

// The handle, and the end behind it.
#[tactic(auto, using(cursor::proofs::ReadingLaws::got, cursor::proofs::ReadingLaws::not_got))]
fn pair_at(i: &[u8], next: usize) -> Option<HandlePair>
    requires { 4 ≤ length i.now }
    ensures { result ≡ Some (pair_at i.now next) }
{
    let (handle, behind) = cursor::read::<u16>(0, i).ok()?;
    let (end, _) = cursor::read::<u16>(behind, i).ok()?;
    Some(HandlePair { handle, end, next })
}

// The handle, and the UUID of what is left behind it.
#[tactic(auto, using(cursor::proofs::ReadingLaws::got, cursor::proofs::ReadingLaws::not_got, cursor::proofs::ReadingLaws::rest_drop, crate::proofs::StepLaws::uuid_left))]
fn information_at(i: &[u8], next: usize) -> Option<HandleUuid>
    requires { (length i.now ≡ 4) ⊎ (length i.now ≡ 18) }
    ensures { result ≡ Some (information_at i.now next) }
{
    let (handle, behind) = cursor::read::<u16>(0, i).ok()?;
    let uuid = Uuid::try_from(cursor::remaining(behind, i)).ok()?;
    Some(HandleUuid { handle, uuid, next })
}

// The handle, and the range of what is left behind it: the item starts at `at` of the received bytes.
#[tactic(auto, using(cursor::proofs::ReadingLaws::got, cursor::proofs::ReadingLaws::not_got))]
fn value_at(at: usize, i: &[u8], next: usize) -> Option<HandleValue>
    requires handle { 2 ≤ length i.now }
    requires number { at + length i.now < 2 ^ 64 }
    ensures { result ≡ Some (value_at at i.now next) }
{
    let (handle, behind) = cursor::read::<u16>(0, i).ok()?;
    Some(HandleValue {
        handle,
        rest: Span {
            at: at + behind,
            len: i.len() - behind,
        },
        next,
    })
}
