// att.rs: what a packet is written as. The opcode and the fixed fields go by value, in the order of
// document 01's table; what follows them stays where it is and is told by its kind and its range.
//
// A port of src/att.rs of trouble-host 0.8.0, which was changed: see NOTICE.
#![tactic(auto)]

ghost use Rattle.std.specs.Prelude.{◌≡◌, ◌+◌, length};
ghost use Rattle.att.specs.Typed.{span, show_att, show_client, show_req, show_server, show_rsp, show_uns};
ghost use Rattle.att_layout.specs.Layout.{field_bytes, plain, followed_by, layout_of};
ghost use Rattle.att_layout.specs.declared.Follows.TheVariants.{AUuid};

use att::{
    ATT_ERROR_RSP, ATT_EXCHANGE_MTU_REQ, ATT_EXCHANGE_MTU_RSP, ATT_EXECUTE_WRITE_REQ,
    ATT_FIND_BY_TYPE_VALUE_REQ, ATT_FIND_BY_TYPE_VALUE_RSP, ATT_FIND_INFORMATION_REQ,
    ATT_FIND_INFORMATION_RSP, ATT_HANDLE_VALUE_CFM, ATT_HANDLE_VALUE_IND, ATT_HANDLE_VALUE_NTF,
    ATT_PREPARE_WRITE_REQ, ATT_READ_BLOB_REQ, ATT_READ_BLOB_RSP, ATT_READ_BY_GROUP_TYPE_REQ,
    ATT_READ_BY_GROUP_TYPE_RSP, ATT_READ_BY_TYPE_REQ, ATT_READ_BY_TYPE_RSP, ATT_READ_MULTIPLE_REQ,
    ATT_READ_REQ, ATT_READ_RSP, ATT_WRITE_CMD, ATT_WRITE_REQ, ATT_WRITE_RSP, Att, AttCfm,
    AttClient, AttCmd, AttReq, AttRsp, AttServer, AttUns, Span,
};
use ble_uuid::Uuid;

// What follows the fixed fields: nothing, the whole range, the whole items of the range, or a UUID.
#[derive(Clone, Copy)]
pub enum Follows {
    Nothing,
    Data,
    Items(usize),
    AUuid(Uuid),
}

// The fixed fields, by their widths.
#[derive(Clone, Copy)]
pub enum Fields {
    Bare,
    Byte(u8),
    Word(u16),
    Pair(u16, u16),
    Triple(u16, u16, u16),
    Error(u8, u16, u8),
}

impl Fields {
    fn len(self) -> usize
        ensures { result ≡ length (field_bytes self) }
    {
        match self {
            Fields::Bare => 0,
            Fields::Byte(_) => 1,
            Fields::Word(_) => 2,
            Fields::Pair(..) | Fields::Error(..) => 4,
            Fields::Triple(..) => 6,
        }
    }
}

// The opcode and the fixed fields, which are `len` bytes together.
#[derive(Clone, Copy)]
pub struct Layout {
    pub opcode: u8,
    pub fields: Fields,
    pub len: usize,
    pub follows: Follows,
    pub part: Span,
}

// The layout of a packet, by its kind.
pub fn lay_out(att: Att) -> Layout
    ensures { result ≡ layout_of (show_att att) }
{
    match att {
        Att::Client(c) => lay_out_client(c),
        Att::Server(s) => lay_out_server(s),
    }
}

#[tactic(auto, unfolding(crate::specs::Layout::layout_of, att::specs::Wire::shape_of, att::specs::Wire::rows))]
fn lay_out_client(c: AttClient) -> Layout
    ensures { result ≡ layout_of (show_client c) }
{
    match c {
        AttClient::Request(r) => lay_out_req(r),
        AttClient::Command(AttCmd { handle, data }) => {
            let l = fixed(ATT_WRITE_CMD, Fields::Word(handle));
            followed(l, Follows::Data, data)
        }
        AttClient::Confirmation(AttCfm::ConfirmIndication) => {
            fixed(ATT_HANDLE_VALUE_CFM, Fields::Bare)
        }
    }
}

#[tactic(auto, unfolding(crate::specs::Layout::layout_of, att::specs::Wire::shape_of, att::specs::Wire::rows))]
fn lay_out_req(r: AttReq) -> Layout
    ensures { result ≡ layout_of (show_req r) }
{
    match r {
        AttReq::ReadByGroupType {
            start,
            end,
            group_type,
        } => {
            let l = fixed(ATT_READ_BY_GROUP_TYPE_REQ, Fields::Pair(start, end));
            typed(l, group_type)
        }
        AttReq::ReadByType {
            start,
            end,
            attribute_type,
        } => {
            let l = fixed(ATT_READ_BY_TYPE_REQ, Fields::Pair(start, end));
            typed(l, attribute_type)
        }
        AttReq::Read { handle } => fixed(ATT_READ_REQ, Fields::Word(handle)),
        AttReq::Write { handle, data } => {
            let l = fixed(ATT_WRITE_REQ, Fields::Word(handle));
            followed(l, Follows::Data, data)
        }
        AttReq::ExchangeMtu { mtu } => fixed(ATT_EXCHANGE_MTU_REQ, Fields::Word(mtu)),
        AttReq::FindByTypeValue {
            start_handle,
            end_handle,
            att_type,
            att_value,
        } => {
            let fields = Fields::Triple(start_handle, end_handle, att_type);
            followed(
                fixed(ATT_FIND_BY_TYPE_VALUE_REQ, fields),
                Follows::Data,
                att_value,
            )
        }
        AttReq::FindInformation {
            start_handle,
            end_handle,
        } => fixed(
            ATT_FIND_INFORMATION_REQ,
            Fields::Pair(start_handle, end_handle),
        ),
        AttReq::PrepareWrite {
            handle,
            offset,
            value,
        } => {
            let l = fixed(ATT_PREPARE_WRITE_REQ, Fields::Pair(handle, offset));
            followed(l, Follows::Data, value)
        }
        AttReq::ExecuteWrite { flags } => fixed(ATT_EXECUTE_WRITE_REQ, Fields::Byte(flags)),
        AttReq::ReadMultiple { handles } => {
            let l = fixed(ATT_READ_MULTIPLE_REQ, Fields::Bare);
            followed(l, Follows::Data, handles)
        }
        AttReq::ReadBlob { handle, offset } => {
            fixed(ATT_READ_BLOB_REQ, Fields::Pair(handle, offset))
        }
    }
}

fn lay_out_server(s: AttServer) -> Layout
    ensures { result ≡ layout_of (show_server s) }
{
    match s {
        AttServer::Response(r) => lay_out_rsp(r),
        AttServer::Unsolicited(u) => lay_out_uns(u),
    }
}

#[tactic(auto, unfolding(crate::specs::Layout::layout_of, att::specs::Wire::shape_of, att::specs::Wire::rows))]
fn lay_out_rsp(r: AttRsp) -> Layout
    ensures { result ≡ layout_of (show_rsp r) }
{
    match r {
        AttRsp::ExchangeMtu { mtu } => fixed(ATT_EXCHANGE_MTU_RSP, Fields::Word(mtu)),
        AttRsp::FindByTypeValue { items } => {
            let l = fixed(ATT_FIND_BY_TYPE_VALUE_RSP, Fields::Bare);
            followed(l, Follows::Items(4), items)
        }
        AttRsp::FindInformation { format, items } => {
            let l = fixed(ATT_FIND_INFORMATION_RSP, Fields::Byte(u8::from(format)));
            followed(l, Follows::Items(format.pair_len()), items)
        }
        AttRsp::Error {
            request,
            handle,
            code,
        } => fixed(ATT_ERROR_RSP, Fields::Error(request, handle, code.value)),
        AttRsp::ReadByType { item_len, items } => {
            let l = fixed(ATT_READ_BY_TYPE_RSP, Fields::Byte(item_len));
            followed(l, Follows::Items(usize::from(item_len)), items)
        }
        AttRsp::ReadByGroupType { item_len, items } => {
            let l = fixed(ATT_READ_BY_GROUP_TYPE_RSP, Fields::Byte(item_len));
            followed(l, Follows::Items(usize::from(item_len)), items)
        }
        AttRsp::Read { data } => followed(fixed(ATT_READ_RSP, Fields::Bare), Follows::Data, data),
        AttRsp::ReadBlob { data } => followed(
            fixed(ATT_READ_BLOB_RSP, Fields::Bare),
            Follows::Data,
            data,
        ),
        AttRsp::Write => fixed(ATT_WRITE_RSP, Fields::Bare),
    }
}

#[tactic(auto, unfolding(crate::specs::Layout::layout_of, att::specs::Wire::shape_of, att::specs::Wire::rows))]
fn lay_out_uns(u: AttUns) -> Layout
    ensures { result ≡ layout_of (show_uns u) }
{
    match u {
        AttUns::Notify { handle, data } => {
            let l = fixed(ATT_HANDLE_VALUE_NTF, Fields::Word(handle));
            followed(l, Follows::Data, data)
        }
        AttUns::Indicate { handle, data } => {
            let l = fixed(ATT_HANDLE_VALUE_IND, Fields::Word(handle));
            followed(l, Follows::Data, data)
        }
    }
}

// An opcode with its fixed fields, and nothing behind them.
fn fixed(opcode: u8, fields: Fields) -> Layout
    ensures { result ≡ plain opcode fields (1 + length (field_bytes fields)) }
{
    Layout {
        opcode,
        fields,
        len: 1 + fields.len(),
        follows: Follows::Nothing,
        part: Span { at: 0, len: 0 },
    }
}

fn followed(l: Layout, follows: Follows, part: Span) -> Layout
    ensures { result ≡ followed_by follows part l }
{
    Layout { follows, part, ..l }
}

fn typed(l: Layout, uuid: Uuid) -> Layout
    ensures { result ≡ followed_by (AUuid uuid) (span 0 0) l }
{
    followed(l, Follows::AUuid(uuid), Span { at: 0, len: 0 })
}
