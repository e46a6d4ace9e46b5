// Document 01, "How a packet is served": what a record gives to 06, 08 and 10. It is decided from its type,
// its marks and the link; 06 alone looks at the value, where the link may read it. An offer is nothing, an
// item with this head, or the code that reading is refused with.
#![tactic(auto)]

ghost use Rattle.std.specs.Prelude.{◌≡◌};
ghost use Rattle.answers.specs.Contract.{lent_state};
ghost use Rattle.answers.specs.Replies.{end_of};
ghost use Rattle.serve_groups.specs.Groups.{outlines_of};
ghost use Rattle.serve_offer.specs.Offers.{pair_offer, typed_offer, grouped_offer};

use answers::{Lent, Link};
use att_error::AttErrorCode;
use attributes::{Record, Table};
use serve_collect::Head;

// 06: the record has the type and, as far as the link may read it, the value.
#[tactic(auto, unfolding(crate::specs::Offers::pair_offer))]
pub fn pair(
    kind: &[u8],
    value: &[u8],
    r: Record,
    lent: Lent<'_>,
) -> Option<Result<Head, AttErrorCode>>
    ensures { result ≡ pair_offer kind.now value.now (lent_state lent.entry) r }
{
    if serve_record::has_type(r, kind)
        && serve_record::may_read(r, lent.link.encrypted).is_ok()
        && serve_record::holds(r.place, lent.fixed, lent.live, value)
    {
        Some(Ok(Head::Range(r.handle, end_in(lent.table, kind, r.handle))))
    } else {
        None
    }
}

// 08
#[tactic(auto, unfolding(crate::specs::Offers::typed_offer))]
pub fn typed(kind: &[u8], r: Record, link: Link) -> Option<Result<Head, AttErrorCode>>
    ensures { result ≡ typed_offer kind.now link r }
{
    if !serve_record::has_type(r, kind) {
        return None;
    }
    Some(serve_record::may_read(r, link.encrypted).map(|()| Head::Handle(r.handle)))
}

// 10
#[tactic(auto, unfolding(crate::specs::Offers::grouped_offer))]
pub fn grouped(
    kind: &[u8],
    table: &Table,
    r: Record,
    link: Link,
) -> Option<Result<Head, AttErrorCode>>
    ensures { result ≡ grouped_offer kind.now table.now link r }
{
    if !serve_record::has_type(r, kind) {
        return None;
    }
    Some(serve_record::may_read(r, link.encrypted).map(|()| Head::Range(
        r.handle,
        serve_groups::group_end(table, r.handle),
    )))
}

// The end that 06 gives beside a handle: the group's, or the handle itself for a type that opens no group.
#[tactic(auto, unfolding(answers::specs::Replies::end_of))]
fn end_in(table: &Table, kind: &[u8], handle: u16) -> u16
    ensures { result ≡ end_of (outlines_of table.now) kind.now handle }
{
    if serve_groups::is_group(kind) {
        serve_groups::group_end(table, handle)
    } else {
        handle
    }
}
