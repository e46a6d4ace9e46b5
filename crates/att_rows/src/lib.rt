// att.rs, the decode half, row by row: a packet's fixed fields, each read at its place of the payload behind
// the opcode, and its data field or UUID, which the dispatcher hands over. Places past the
// end read as 0: the dispatcher refuses a payload that is too short for its fixed fields.
//
// A port of src/att.rs of trouble-host 0.8.0, which was changed: see NOTICE.
#![tactic(auto)]

ghost use Rattle.std.specs.Prelude.{◌≡◌};
ghost use Rattle.primitives.specs.Numbers.{number_at};
ghost use Rattle.att.specs.Formats.{format_of};
ghost use Rattle.att.specs.Typed.{code};
ghost use Rattle.att.specs.declared.AttReq.TheVariants as req;
ghost use Rattle.att.specs.declared.AttRsp.TheVariants as rsp;
ghost use Rattle.att.specs.declared.AttUns.TheVariants as uns;
ghost use Rattle.att_rows.specs.Fields.{word, after, valued};

use att::{AttCmd, AttReq, AttRsp, AttUns, FindInformationUuidFormat, Span};
use att_error::AttErrorCode;
use ble_uuid::Uuid;
use primitives::Primitive;

// The reader of a data field: its bytes as a part of the received bytes, in which they start at `at`.
// Kept: a reader for each row of document 01's table, each making a case of its own: no plainer in one.
pub fn field(at: usize, data: &[u8]) -> Span
    ensures { result ≡ after at «data».now }
{
    Span {
        at,
        len: data.len(),
    }
}

pub fn error_rsp(p: &[u8]) -> AttRsp
    ensures { result ≡ rsp.Error (number_at 1 0 p.now) (word 1 p.now) (code (number_at 1 3 p.now)) }
{
    AttRsp::Error {
        request: u8::at(p, 0),
        handle: u16::at(p, 1),
        code: AttErrorCode::from(u8::at(p, 3)),
    }
}

pub fn exchange_mtu_req(p: &[u8]) -> AttReq
    ensures { result ≡ req.ExchangeMtu (word 0 p.now) }
{
    AttReq::ExchangeMtu { mtu: u16::at(p, 0) }
}

pub fn exchange_mtu_rsp(p: &[u8]) -> AttRsp
    ensures { result ≡ rsp.ExchangeMtu (word 0 p.now) }
{
    AttRsp::ExchangeMtu { mtu: u16::at(p, 0) }
}

pub fn find_information_req(p: &[u8]) -> AttReq
    ensures { result ≡ req.FindInformation (word 0 p.now) (word 2 p.now) }
{
    AttReq::FindInformation {
        start_handle: u16::at(p, 0),
        end_handle: u16::at(p, 2),
    }
}

// Kept beside `find_information_of`: of any payload, and it cannot fail (what may not change).
pub fn find_information_rsp(p: &[u8], items: &[u8]) -> AttRsp
    ensures { result ≡ rsp.FindInformation (format_of (number_at 1 0 p.now)) (after 2 items.now) }
{
    find_information_of(FindInformationUuidFormat::from_decoded(u8::at(p, 0)), items)
}

// 05 of a format that was read and tested already.
pub fn find_information_of(format: FindInformationUuidFormat, items: &[u8]) -> AttRsp
    ensures { result ≡ rsp.FindInformation format (after 2 items.now) }
{
    AttRsp::FindInformation {
        format,
        items: field(2, items),
    }
}

pub fn find_by_type_value_req(p: &[u8], value: &[u8]) -> AttReq
    ensures { result ≡ valued p.now (after 7 value.now) }
{
    AttReq::FindByTypeValue {
        start_handle: u16::at(p, 0),
        end_handle: u16::at(p, 2),
        att_type: u16::at(p, 4),
        att_value: field(7, value),
    }
}

pub fn read_by_type_req(p: &[u8], attribute_type: Uuid) -> AttReq
    ensures { result ≡ req.ReadByType (word 0 p.now) (word 2 p.now) attribute_type }
{
    AttReq::ReadByType {
        start: u16::at(p, 0),
        end: u16::at(p, 2),
        attribute_type,
    }
}

pub fn read_by_type_rsp(p: &[u8], items: &[u8]) -> AttRsp
    ensures { result ≡ rsp.ReadByType (number_at 1 0 p.now) (after 2 items.now) }
{
    AttRsp::ReadByType {
        item_len: u8::at(p, 0),
        items: field(2, items),
    }
}

pub fn read_req(p: &[u8]) -> AttReq
    ensures { result ≡ req.Read (word 0 p.now) }
{
    AttReq::Read {
        handle: u16::at(p, 0),
    }
}

pub fn read_by_group_type_req(p: &[u8], group_type: Uuid) -> AttReq
    ensures { result ≡ req.ReadByGroupType (word 0 p.now) (word 2 p.now) group_type }
{
    AttReq::ReadByGroupType {
        start: u16::at(p, 0),
        end: u16::at(p, 2),
        group_type,
    }
}

pub fn read_by_group_type_rsp(p: &[u8], items: &[u8]) -> AttRsp
    ensures { result ≡ rsp.ReadByGroupType (number_at 1 0 p.now) (after 2 items.now) }
{
    AttRsp::ReadByGroupType {
        item_len: u8::at(p, 0),
        items: field(2, items),
    }
}

pub fn write_req(p: &[u8], data: &[u8]) -> AttReq
    ensures { result ≡ req.Write (word 0 p.now) (after 3 «data».now) }
{
    AttReq::Write {
        handle: u16::at(p, 0),
        data: field(3, data),
    }
}

pub fn prepare_write_req(p: &[u8], value: &[u8]) -> AttReq
    ensures { result ≡ req.PrepareWrite (word 0 p.now) (word 2 p.now) (after 5 value.now) }
{
    AttReq::PrepareWrite {
        handle: u16::at(p, 0),
        offset: u16::at(p, 2),
        value: field(5, value),
    }
}

pub fn execute_write_req(p: &[u8]) -> AttReq
    ensures { result ≡ req.ExecuteWrite (number_at 1 0 p.now) }
{
    AttReq::ExecuteWrite {
        flags: u8::at(p, 0),
    }
}

pub fn handle_value_ntf(p: &[u8], data: &[u8]) -> AttUns
    ensures { result ≡ uns.Notify (word 0 p.now) (after 3 «data».now) }
{
    AttUns::Notify {
        handle: u16::at(p, 0),
        data: field(3, data),
    }
}

pub fn handle_value_ind(p: &[u8], data: &[u8]) -> AttUns
    ensures { result ≡ uns.Indicate (word 0 p.now) (after 3 «data».now) }
{
    AttUns::Indicate {
        handle: u16::at(p, 0),
        data: field(3, data),
    }
}

pub fn write_cmd(p: &[u8], data: &[u8]) -> AttCmd
    ensures { result ≡ record { handle = word 0 p.now; «data» = after 3 «data».now } }
{
    AttCmd {
        handle: u16::at(p, 0),
        data: field(3, data),
    }
}
