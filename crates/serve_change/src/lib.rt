// Document 01, "How a packet is served": the packets that change something, 02, 12 and 52. What changes
// is handed back beside the answer, so that it takes place in one place, and only where the answer went
// out as it was meant.
#![tactic(auto)]

ghost use Rattle.std.specs.Prelude.{min, max, ◌≡◌, length};
ghost use Rattle.att.specs.Typed.{part_of};
ghost use Rattle.answers.specs.Replies as book;
ghost use Rattle.serve_permit.specs.Permit.{store_to};
ghost use Rattle.serve_tell.specs.Tell.{wrote_of, out_of};
ghost use Rattle.serve_change.specs.Changes.{meant_by, meaning_of, said_of, done, agreement};

use answers::{Lent, Link};
use att::{ATT_EXCHANGE_MTU_REQ, ATT_WRITE_REQ, AttRsp, Span};
use att_error::AttErrorCode;
use serve_tell::Wrote;

// What a packet does beside its answer: nothing, a store of the packet's bytes in this range, or the end
// of an exchange.
#[derive(Clone, Copy)]
pub enum Pending {
    Nothing,
    Stores { handle: u16, data: Span },
    Agrees(u16),
}

// How many bytes went out, and what is to take place.
#[derive(Clone, Copy)]
pub struct Said {
    pub len: usize,
    pub effect: Pending,
}

// The answer to 02: 247. The MTU becomes the smaller of 247 and the request, at least 23.
pub fn exchange(link: Link, mtu: u16, out: &mut [u8]) -> Said
    ensures value { result ≡ done (wrote_of (book.exchange link mtu) 0x02 (length out.old)) (agreement link mtu) }
    ensures out_after { out.new ≡ out_of (book.exchange link mtu) 0x02 out.old }
{
    if link.exchanged {
        let told = serve_tell::error(
            ATT_EXCHANGE_MTU_REQ,
            0,
            AttErrorCode::REQUEST_NOT_SUPPORTED,
            out,
        );
        return doing(told, Pending::Nothing);
    }
    let told = serve_tell::tell(
        AttRsp::ExchangeMtu { mtu: 247 },
        &[],
        ATT_EXCHANGE_MTU_REQ,
        out,
    );
    doing(told, Pending::Agrees(agreed(mtu)))
}

fn agreed(mtu: u16) -> u16
    ensures { result ≡ max 23 (min 247 mtu) }
{
    mtu.clamp(23, 247)
}

// The answer to 12: the value in this range of the packet replaces the attribute's.
pub fn write(lent: Lent<'_>, handle: u16, data: Span, src: &[u8], out: &mut [u8]) -> Said
    ensures result_value { meaning_of src.now result
        ≡ said_of (store_to lent.entry.table.now lent.entry.link handle (part_of «data» src.now)) 0x12
        (length out.old) }
    ensures out_after { out.new
        ≡ out_of (store_to lent.entry.table.now lent.entry.link handle (part_of «data» src.now)) 0x12 out.old }
{
    let value = table_records::part(src, data.at, data.len);
    match serve_permit::may_store(*lent.table, lent.link, handle, value.len()) {
        Err(code) => {
            let told = serve_tell::error(ATT_WRITE_REQ, handle, code, out);
            doing(told, Pending::Nothing)
        }
        Ok(()) => {
            let told = serve_tell::tell(AttRsp::Write, &[], ATT_WRITE_REQ, out);
            doing(told, Pending::Stores { handle, data })
        }
    }
}

// What 52 does: the same store, and no answer.
pub fn command(lent: Lent<'_>, handle: u16, data: Span, src: &[u8]) -> Pending
    ensures { meant_by src.now result
        ≡ (store_to lent.entry.table.now lent.entry.link handle (part_of «data» src.now)).effect }
{
    let value = table_records::part(src, data.at, data.len);
    match serve_permit::may_store(*lent.table, lent.link, handle, value.len()) {
        Err(_) => Pending::Nothing,
        Ok(()) => Pending::Stores { handle, data },
    }
}

// An answer and its effect, which takes place only where the answer is the one that was meant.
pub fn doing(told: Wrote, effect: Pending) -> Said
    ensures { result ≡ done told effect }
{
    Said {
        len: told.len,
        effect: if told.meant { effect } else { Pending::Nothing },
    }
}
