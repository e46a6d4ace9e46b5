// att.rs, the decode half: received bytes to a typed packet.
//
// The dispatcher hands the payload behind the opcode, and the bytes of a data field behind the fixed fields,
// to the reader of that opcode (the crate att_rows). A payload too short for its fixed fields is refused.
//
// A port of src/att.rs of trouble-host 0.8.0, which was changed: see NOTICE.
#![tactic(auto)]

ghost use Rattle.std.specs.Prelude.{◌≡◌, ◌++◌, [], ◌∷◌};
ghost use Rattle.att.specs.Wire.{Rest, AUuid, Items, first};
ghost use Rattle.ble_uuid.specs.Uuids.{uuid_of};
ghost use Rattle.att.specs.Typed.{request, response, row_decoded, decoded, uuid_in};
ghost use Rattle.primitives.specs.Numbers.{number_at};
ghost use Rattle.att.specs.declared.AttReq.TheVariants as req;
ghost use Rattle.cursor.specs.Reading.{rest};
ghost use Rattle.att_rows.specs.Fields.{after, pairs_in};
ghost use Rattle.att_decode.specs.Tests.{answered, carried, field, field_length};

use att::{
    ATT_ERROR_RSP, ATT_EXCHANGE_MTU_REQ, ATT_EXCHANGE_MTU_RSP, ATT_EXECUTE_WRITE_REQ,
    ATT_FIND_BY_TYPE_VALUE_REQ, ATT_FIND_BY_TYPE_VALUE_RSP, ATT_FIND_INFORMATION_REQ,
    ATT_FIND_INFORMATION_RSP, ATT_HANDLE_VALUE_CFM, ATT_HANDLE_VALUE_IND, ATT_HANDLE_VALUE_NTF,
    ATT_PREPARE_WRITE_REQ, ATT_READ_BLOB_REQ, ATT_READ_BLOB_RSP, ATT_READ_BY_GROUP_TYPE_REQ,
    ATT_READ_BY_GROUP_TYPE_RSP, ATT_READ_BY_TYPE_REQ, ATT_READ_BY_TYPE_RSP, ATT_READ_MULTIPLE_REQ,
    ATT_READ_REQ, ATT_READ_RSP, ATT_WRITE_CMD, ATT_WRITE_REQ, ATT_WRITE_RSP, Att, AttCfm, AttReq,
    AttRsp, FindInformationUuidFormat, Span,
};
use att_rows::{
    error_rsp, exchange_mtu_req, exchange_mtu_rsp, execute_write_req, field,
    find_by_type_value_req, find_information_of, find_information_req, handle_value_ind,
    handle_value_ntf, prepare_write_req, read_by_group_type_req, read_by_group_type_rsp,
    read_by_type_req, read_by_type_rsp, read_req, write_cmd, write_req,
};
use att_strict::item_len;
use ble_uuid::Uuid;
use codec::Error;
use cursor::remaining;
use primitives::Primitive;

// What bytes decode to; what is no packet is refused with InvalidValue.
#[tactic(auto, using(crate::proofs::Rows::decoded_nil))]
pub fn decode(src: &[u8]) -> Result<Att, Error>
    ensures { result ≡ decoded src.now }
{
    match src {
        [op, p @ ..] => dispatch(*op, p),
        [] => Err(Error::InvalidValue),
    }
}

// The bytes of a data field, as a part of the received bytes. A range that does not lie within them gives
// an empty part; `data_len` then has the refusal.
// Kept: two functions and no Result of the part: outsiders call both (`field`, `field_length`).
pub fn data(src: &[u8], d: Span) -> &[u8]
    ensures { result.now ≡ field d src.now }
{
    d.of(src).unwrap_or(&[])
}

// How many bytes a data field has.
pub fn data_len(src: &[u8], d: Span) -> Result<usize, Error>
    ensures { result ≡ field_length d src.now }
{
    match d.of(src) {
        Some(_) => Ok(d.len),
        None => Err(Error::InvalidValue),
    }
}

// Opcode by opcode: how many bytes the fixed fields have, and the reader of the row. A data field's reader is
// handed the bytes behind the fixed fields.
#[tactic(auto, using(crate::proofs::Rows::rest_length, crate::proofs::Rows::minus_zero), unfolding(att::specs::Typed::row_decoded, att::specs::Wire::decodes, att::specs::Wire::shape_of, att::specs::Wire::rows, att::specs::Typed::build_of, att::specs::Typed::builds))]
fn dispatch(op: u8, p: &[u8]) -> Result<Att, Error>
    ensures { result ≡ row_decoded op p.now }
{
    match op {
        ATT_ERROR_RSP => packet(p, 4, Att::from(error_rsp(p))),
        ATT_EXCHANGE_MTU_REQ => packet(p, 2, Att::from(exchange_mtu_req(p))),
        ATT_EXCHANGE_MTU_RSP => packet(p, 2, Att::from(exchange_mtu_rsp(p))),
        ATT_FIND_INFORMATION_REQ => packet(p, 4, Att::from(find_information_req(p))),
        ATT_FIND_INFORMATION_RSP => {
            let rsp = pairs_of(p)?;
            packet(p, 1, Att::from(rsp))
        }
        ATT_FIND_BY_TYPE_VALUE_REQ => {
            let req = find_by_type_value_req(p, remaining(6, p));
            packet(p, 6, Att::from(req))
        }
        ATT_FIND_BY_TYPE_VALUE_RSP => {
            let rsp = AttRsp::FindByTypeValue { items: field(1, p) };
            packet(p, 0, Att::from(rsp))
        }
        ATT_READ_BY_TYPE_REQ => {
            let req = read_by_type_req(p, uuid_of(p)?);
            packet(p, 4, Att::from(req))
        }
        ATT_READ_BY_TYPE_RSP => items_of(p, read_by_type_rsp(p, remaining(1, p))),
        ATT_READ_REQ => packet(p, 2, Att::from(read_req(p))),
        ATT_READ_RSP => packet(p, 0, Att::from(AttRsp::Read { data: field(1, p) })),
        ATT_READ_BLOB_REQ => read_blob_of(p),
        ATT_READ_BLOB_RSP => packet(p, 0, Att::from(AttRsp::ReadBlob { data: field(1, p) })),
        ATT_READ_BY_GROUP_TYPE_REQ => {
            let req = read_by_group_type_req(p, uuid_of(p)?);
            packet(p, 4, Att::from(req))
        }
        ATT_READ_BY_GROUP_TYPE_RSP => items_of(p, read_by_group_type_rsp(p, remaining(1, p))),
        ATT_WRITE_REQ => packet(p, 2, Att::from(write_req(p, remaining(2, p)))),
        ATT_WRITE_RSP => packet(p, 0, Att::from(AttRsp::Write)),
        ATT_PREPARE_WRITE_REQ => packet(p, 4, Att::from(prepare_write_req(p, remaining(4, p)))),
        ATT_EXECUTE_WRITE_REQ => packet(p, 1, Att::from(execute_write_req(p))),
        ATT_HANDLE_VALUE_NTF => packet(p, 2, Att::from(handle_value_ntf(p, remaining(2, p)))),
        ATT_HANDLE_VALUE_IND => packet(p, 2, Att::from(handle_value_ind(p, remaining(2, p)))),
        ATT_HANDLE_VALUE_CFM => packet(p, 0, Att::from(AttCfm::ConfirmIndication)),
        ATT_READ_MULTIPLE_REQ => {
            let req = AttReq::ReadMultiple {
                handles: field(1, p),
            };
            packet(p, 0, Att::from(req))
        }
        ATT_WRITE_CMD => packet(p, 2, Att::from(write_cmd(p, remaining(2, p)))),
        _ => Err(Error::InvalidValue),
    }
}

// 0C through the cursor that holds its bytes: the handle, and behind it the offset.
fn read_blob_of(p: &[u8]) -> Result<Att, Error>
    ensures { result ≡ answered Rest [] 4 p.now (request (req.ReadBlob (number_at 2 0 p.now) (number_at 2 2 p.now))) }
{
    let (handle, next) = cursor_read::field(p, 0)?;
    let (offset, _) = cursor_read::field(p, next)?;
    packet(p, 4, Att::from(AttReq::ReadBlob { handle, offset }))
}

// A packet whose payload has at least its fixed fields.
fn packet(p: &[u8], fixed: usize, att: Att) -> Result<Att, Error>
    ensures { result ≡ answered Rest [] fixed p.now (Ok att) }
{
    if p.len() < fixed {
        return Err(Error::InvalidValue);
    }
    Ok(att)
}

// 09 and 11: behind a first byte that is the length of an item, 0 and 1 being none.
fn items_of(p: &[u8], rsp: AttRsp) -> Result<Att, Error>
    ensures { result ≡ answered (Items first 2) (number_at 1 0 p.now ∷ []) 1 p.now (response rsp) }
{
    if item_len(p) < 2 {
        return Err(Error::InvalidValue);
    }
    packet(p, 1, Att::from(rsp))
}

// 05: behind a first byte that is a format the pairs.
fn pairs_of(p: &[u8]) -> Result<AttRsp, Error>
    ensures { result ≡ pairs_in (number_at 1 0 p.now) (after 2 (rest 1 p.now)) }
{
    let format = FindInformationUuidFormat::try_from(u8::at(p, 0))?;
    Ok(find_information_of(format, remaining(1, p)))
}

// 08 and 10: behind start and end a UUID of 2 or 16 bytes.
fn uuid_of(p: &[u8]) -> Result<Uuid, Error>
    ensures { result ≡ carried p.now }
{
    match p.len() {
        6 | 20 => Uuid::try_from(&p[4..]),
        _ => Err(Error::InvalidValue),
    }
}
