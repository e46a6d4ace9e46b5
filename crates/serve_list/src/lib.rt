// Document 01, "How a packet is served", 04, 06, 08 and 10: the list that a search found, as a typed
// answer, or the error in its place.
#![tactic(auto)]

ghost use Rattle.std.specs.Prelude.{◌≡◌, [], length};
ghost use Rattle.primitives.specs.Numbers.{bytes_of};
ghost use Rattle.ble_uuid.specs.Uuids.{on_air};
ghost use Rattle.att.specs.Typed.{part_of};
ghost use Rattle.answers.specs.Contract.{lent_state};
ghost use Rattle.serve_search.specs.Search.{asked};
ghost use Rattle.serve_search.specs.declared.Ask.TheVariants.{Info, Pair};
ghost use Rattle.serve_tell.specs.Tell.{wrote_by, out_by};
ghost use Rattle.serve_list.specs.Lists.{op_for, kind_ok, format_for, response_for, asking, list_wrote, list_out, found_coded};

use answers::Lent;
use att::{
    ATT_FIND_BY_TYPE_VALUE_REQ, ATT_FIND_INFORMATION_REQ, ATT_READ_BY_GROUP_TYPE_REQ,
    ATT_READ_BY_TYPE_REQ, AttRsp, FindInformationUuidFormat, Span,
};
use att_error::AttErrorCode;
use ble_uuid::Uuid;
use serve_collect::{Failed, Listed};
use serve_search::{Ask, Query};
use serve_tell::Wrote;

// The answer to 04.
pub fn find_information(from: u16, to: u16, lent: Lent<'_>, out: &mut [u8]) -> Wrote
    ensures value { result ≡ list_wrote (asking Info from to [] []) (lent_state lent.entry) (length out.old) }
    ensures out_after { out.new ≡ list_out (asking Info from to [] []) (lent_state lent.entry) out.old }
{
    let query = Query {
        ask: Ask::Info,
        from,
        to,
        kind: &[],
        value: &[],
    };
    list(query, lent, out)
}

// The answer to 06, for a 16-bit type and the value in this range of `src`.
// Kept: seven parameters, here and in `read_by_type`: what the request carries, each once (no plainer).
pub fn find_by_type_value(
    from: u16,
    to: u16,
    kind: u16,
    value: Span,
    src: &[u8],
    lent: Lent<'_>,
    out: &mut [u8],
) -> Wrote
    ensures value { result
        ≡ list_wrote (asking Pair from to (bytes_of 2 kind) (part_of value src.now)) (lent_state lent.entry)
        (length out.old) }
    ensures out_after { out.new
        ≡ list_out (asking Pair from to (bytes_of 2 kind) (part_of value src.now)) (lent_state lent.entry)
        out.old }
{
    let query = Query {
        ask: Ask::Pair,
        from,
        to,
        kind: &kind.to_le_bytes(),
        value: table_records::part(src, value.at, value.len),
    };
    list(query, lent, out)
}

// The answer to 08 or 10, for a type.
pub fn read_by_type(
    ask: Ask,
    from: u16,
    to: u16,
    kind: Uuid,
    lent: Lent<'_>,
    out: &mut [u8],
) -> Wrote
    ensures value { result
        ≡ list_wrote (asking ask from to (on_air kind) []) (lent_state lent.entry) (length out.old) }
    ensures out_after { out.new
        ≡ list_out (asking ask from to (on_air kind) []) (lent_state lent.entry) out.old }
{
    let query = Query {
        ask,
        from,
        to,
        kind: kind.air_bytes(),
        value: &[],
    };
    list(query, lent, out)
}

// The answer to one of them.
pub fn list(query: Query<'_>, lent: Lent<'_>, out: &mut [u8]) -> Wrote
    ensures value { result ≡ list_wrote (asked query.entry) (lent_state lent.entry) (length out.old) }
    ensures out_after { out.new ≡ list_out (asked query.entry) (lent_state lent.entry) out.old }
{
    let from = query.from;
    let op = opcode(query.ask);
    if from == 0 || query.to < from {
        return serve_tell::error(op, from, AttErrorCode::INVALID_HANDLE, out);
    }
    if !may_ask(query.ask, query.kind) {
        return serve_tell::error(op, from, AttErrorCode::UNSUPPORTED_GROUP_TYPE, out);
    }
    let listed = serve_search::search(query, lent);
    tell_found(query.ask, from, listed.found, &listed.items, out)
}

fn opcode(ask: Ask) -> u8
    ensures { result ≡ op_for ask }
{
    match ask {
        Ask::Info => ATT_FIND_INFORMATION_REQ,
        Ask::Pair => ATT_FIND_BY_TYPE_VALUE_REQ,
        Ask::Typed => ATT_READ_BY_TYPE_REQ,
        Ask::Grouped => ATT_READ_BY_GROUP_TYPE_REQ,
    }
}

// 10 is for the types that open a group alone.
fn may_ask(ask: Ask, kind: &[u8]) -> bool
    ensures { result ≡ kind_ok ask kind.now }
{
    match ask {
        Ask::Grouped => serve_groups::is_group(kind),
        Ask::Info | Ask::Pair | Ask::Typed => true,
    }
}

fn tell_found(
    ask: Ask,
    from: u16,
    found: Option<Result<Listed, Failed>>,
    items: &[u8],
    out: &mut [u8],
) -> Wrote
    ensures value { result ≡ wrote_by (found_coded ask from found items.now) (op_for ask) (length out.old) }
    ensures out_after { out.new ≡ out_by (found_coded ask from found items.now) (op_for ask) out.old }
{
    let op = opcode(ask);
    match found {
        None => serve_tell::error(op, from, AttErrorCode::ATTRIBUTE_NOT_FOUND, out),
        Some(Err(first)) => serve_tell::error(op, first.handle, first.code, out),
        Some(Ok(list)) => serve_tell::tell(response(ask, list), items, op, out),
    }
}

fn response(ask: Ask, list: Listed) -> AttRsp
    ensures { result ≡ response_for ask list.item_len list.used }
{
    let item_len = list.item_len;
    let items = Span {
        at: 0,
        len: list.used,
    };
    match ask {
        Ask::Info => AttRsp::FindInformation {
            format: format(item_len),
            items,
        },
        Ask::Pair => AttRsp::FindByTypeValue { items },
        Ask::Typed => AttRsp::ReadByType { item_len, items },
        Ask::Grouped => AttRsp::ReadByGroupType { item_len, items },
    }
}

// Format 1 has 16-bit types, in items of 4 bytes; format 2 has 128-bit ones.
fn format(item_len: u8) -> FindInformationUuidFormat
    ensures { result ≡ format_for item_len }
{
    if item_len == 4 {
        FindInformationUuidFormat::Uuid16
    } else {
        FindInformationUuidFormat::Uuid128
    }
}
