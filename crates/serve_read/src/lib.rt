// Document 01, "How a packet is served", 0A and 0C: the value at a handle, from its start or from an
// offset on, at most MTU - 1 bytes of it.
//
// The permission is asked first: a value or its length is looked at only where the link may read it.
#![tactic(auto)]

ghost use Rattle.std.specs.Prelude.{◌-◌, min, ◌≡◌, length};
ghost use Rattle.answers.specs.Contract.{lent_state};
ghost use Rattle.answers.specs.Replies.{read_reply, blob_reply};
ghost use Rattle.answers.specs.Serve.{views};
ghost use Rattle.serve_tell.specs.Tell.{wrote_of, out_of};

use answers::Lent;
use att::{ATT_READ_BLOB_REQ, ATT_READ_REQ, AttRsp, Span};
use att_error::AttErrorCode;
use serve_tell::Wrote;

// The answer to 0A.
pub fn read(lent: Lent<'_>, handle: u16, out: &mut [u8]) -> Wrote
    ensures value { result
        ≡ wrote_of (read_reply (views (lent_state lent.entry)) lent.entry.link handle) 0x0A (length out.old) }
    ensures out_after { out.new
        ≡ out_of (read_reply (views (lent_state lent.entry)) lent.entry.link handle) 0x0A out.old }
{
    match serve_permit::may_read(*lent.table, lent.link, handle) {
        Err(code) => serve_tell::error(ATT_READ_REQ, handle, code, out),
        Ok(()) => {
            let value = table_records::value_at(*lent.table, handle, lent.fixed, lent.live);
            let len = cut(value.len(), lent.link.mtu);
            let data = Span { at: 0, len };
            serve_tell::tell(AttRsp::Read { data }, value, ATT_READ_REQ, out)
        }
    }
}

// The answer to 0C: an offset over the length is error 07, one at the end gives no bytes.
pub fn read_blob(lent: Lent<'_>, handle: u16, offset: u16, out: &mut [u8]) -> Wrote
    ensures value { result
        ≡ wrote_of (blob_reply (views (lent_state lent.entry)) lent.entry.link handle offset) 0x0C (length out.old) }
    ensures out_after { out.new
        ≡ out_of (blob_reply (views (lent_state lent.entry)) lent.entry.link handle offset) 0x0C out.old }
{
    match serve_permit::may_read(*lent.table, lent.link, handle) {
        Err(code) => serve_tell::error(ATT_READ_BLOB_REQ, handle, code, out),
        Ok(()) => {
            let value = table_records::value_at(*lent.table, handle, lent.fixed, lent.live);
            // Kept: `as`, since over `From` the proof did not close (tried).
            let at = offset as usize;
            if value.len() < at {
                return serve_tell::error(
                    ATT_READ_BLOB_REQ,
                    handle,
                    AttErrorCode::INVALID_OFFSET,
                    out,
                );
            }
            let len = cut(value.len() - at, lent.link.mtu);
            let data = Span { at, len };
            serve_tell::tell(AttRsp::ReadBlob { data }, value, ATT_READ_BLOB_REQ, out)
        }
    }
}

// At most MTU - 1 of so many bytes.
fn cut(n: usize, mtu: u16) -> usize
    ensures { result ≡ min (mtu - 1) n }
{
    usize::from(mtu.saturating_sub(1)).min(n)
}
