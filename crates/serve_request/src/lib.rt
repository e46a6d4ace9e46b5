// Document 01, "How a packet is served": each typed request, handed to the one who answers it.
#![tactic(auto)]

ghost use Rattle.std.specs.Prelude.{◌≡◌, length};
ghost use Rattle.att.specs.Typed.{show_req};
ghost use Rattle.answers.specs.Contract.{lent_state};
ghost use Rattle.answers.specs.Replies.{error};
ghost use Rattle.serve_tell.specs.Tell.{wrote_of, out_of};
ghost use Rattle.serve_change.specs.Changes.{done, meaning_of, said_of};
ghost use Rattle.serve_change.specs.declared.Pending.TheVariants.{Nothing};
ghost use Rattle.serve_request.specs.Requests.{request_reply};

use answers::Lent;
use att::{ATT_EXECUTE_WRITE_REQ, ATT_PREPARE_WRITE_REQ, ATT_READ_MULTIPLE_REQ, AttReq};
use att_error::AttErrorCode;
use serve_change::{Pending, Said};
use serve_search::Ask;
use serve_tell::Wrote;

// The answer to a request whose data stand in `src`.
#[tactic(auto, using(crate::specs::RequestsLaws::list_quiet, crate::specs::RequestsLaws::read_quiet, crate::specs::RequestsLaws::blob_quiet, serve_change::specs::ChangesLaws::exchange_says))]
pub fn answer(req: AttReq, src: &[u8], lent: Lent<'_>, out: &mut [u8]) -> Said
    ensures result_value { meaning_of src.now result
        ≡ said_of (request_reply (lent_state lent.entry) src.now req) (show_req req).opcode
        (length out.old) }
    ensures out_after { out.new
        ≡ out_of (request_reply (lent_state lent.entry) src.now req) (show_req req).opcode out.old }
{
    match req {
        AttReq::ReadByGroupType {
            start,
            end,
            group_type,
        } => quiet(serve_list::read_by_type(Ask::Grouped, start, end, group_type, lent, out)),
        AttReq::ReadByType {
            start,
            end,
            attribute_type,
        } => quiet(serve_list::read_by_type(Ask::Typed, start, end, attribute_type, lent, out)),
        AttReq::Read { handle } => quiet(serve_read::read(lent, handle, out)),
        AttReq::Write { handle, data } => serve_change::write(lent, handle, data, src, out),
        AttReq::ExchangeMtu { mtu } => serve_change::exchange(lent.link, mtu, out),
        AttReq::FindByTypeValue {
            start_handle,
            end_handle,
            att_type,
            att_value,
        } => quiet(serve_list::find_by_type_value(
            start_handle,
            end_handle,
            att_type,
            att_value,
            src,
            lent,
            out,
        )),
        AttReq::FindInformation {
            start_handle,
            end_handle,
        } => quiet(serve_list::find_information(start_handle, end_handle, lent, out)),
        AttReq::PrepareWrite { .. } => unserved(ATT_PREPARE_WRITE_REQ, out),
        AttReq::ExecuteWrite { .. } => unserved(ATT_EXECUTE_WRITE_REQ, out),
        AttReq::ReadMultiple { .. } => unserved(ATT_READ_MULTIPLE_REQ, out),
        AttReq::ReadBlob { handle, offset } => {
            quiet(serve_read::read_blob(lent, handle, offset, out))
        }
    }
}

// An error that carries handle 0.
pub fn refuse(op: u8, code: AttErrorCode, out: &mut [u8]) -> Said
    ensures value { result ≡ done (wrote_of (error op 0 code.value) op (length out.old)) Nothing }
    ensures out_after { out.new ≡ out_of (error op 0 code.value) op out.old }
{
    quiet(serve_tell::error(op, 0, code, out))
}

// A request that is decoded and not served.
fn unserved(op: u8, out: &mut [u8]) -> Said
    ensures value { result ≡ done (wrote_of (error op 0 0x06) op (length out.old)) Nothing }
    ensures out_after { out.new ≡ out_of (error op 0 0x06) op out.old }
{
    refuse(op, AttErrorCode::REQUEST_NOT_SUPPORTED, out)
}

// An answer that changes nothing.
fn quiet(told: Wrote) -> Said
    ensures { result ≡ done told Nothing }
{
    serve_change::doing(told, Pending::Nothing)
}
