// Document 01, "How a packet is served": what a packet is answered with, and what it is to change. It
// tests table, link, output and packet; the packet is decoded, and its answer told into the output. What
// it asks for is handed back beside the answer: nothing changes here.
#![tactic(auto)]

ghost use Rattle.std.specs.Prelude.{◌≤◌, ◌<◌, true, ◌≡◌, length};
ghost use Rattle.att.specs.Typed.{show_att, meaning_of};
ghost use Rattle.att.specs.Wire.{first};
ghost use Rattle.answers.specs.Contract.{lent_state};
ghost use Rattle.answers.specs.Replies as book;
ghost use Rattle.answers.specs.Replies.{reply_to, link_ok};
ghost use Rattle.answers.specs.Serve.{views, serve_refusal};
ghost use Rattle.serve_tell.specs.Tell.{out_of};
ghost use Rattle.serve_change.specs.Changes.{meant_by, said_of};
ghost use Rattle.serve_change.specs.Changes as said;
ghost use Rattle.serve_packet.specs.Packets.{typed_reply, served_op, request_to, command_to, command_of, replied_as, replied_of, out_behind};
ghost use Rattle.serve_packet.specs.Packets.{replied_to, heard_out};

use answers::{Answer, Lent};
use att::{
    ATT_EXCHANGE_MTU_REQ, ATT_FIND_BY_TYPE_VALUE_REQ, ATT_FIND_INFORMATION_REQ,
    ATT_HANDLE_VALUE_CFM, ATT_READ_BLOB_REQ, ATT_READ_BY_GROUP_TYPE_REQ, ATT_READ_BY_TYPE_REQ,
    ATT_READ_REQ, ATT_WRITE_CMD, ATT_WRITE_REQ, Att, AttClient,
};
use att_error::AttErrorCode;
use codec::Refusal;
use serve_change::{Pending, Said};

// What a packet is answered with, and what it is to change.
#[derive(Clone, Copy)]
pub struct Replied {
    pub answer: Answer,
    pub effect: Pending,
}

// One packet into the output. The refusals 11, 12, 1 and 2, in this order, ask for nothing; an answer
// stands at the start of the output, and the bytes behind it stay.
pub fn speak(lent: Lent<'_>, packet: &[u8], out: &mut [u8]) -> Replied
    ensures result_value { replied_as packet.now result
        ≡ replied_to (lent_state lent.entry) packet.now (length out.old) }
    ensures out_after { out.new ≡ heard_out (lent_state lent.entry) packet.now out.old }
{
    match tested(lent, packet, out.len()) {
        Err(why) => Replied {
            answer: Answer::Refused(why),
            effect: Pending::Nothing,
        },
        Ok(()) => reply(lent, packet, out),
    }
}

// The tests of serving, for an output of `room` bytes.
#[tactic(auto, unfolding(answers::specs::Serve::serve_refusal, answers::specs::Serve::sound))]
fn tested(lent: Lent<'_>, packet: &[u8], room: usize) -> Result<(), Refusal>
    ensures { result ≡ serve_refusal (lent_state lent.entry) packet.now room }
{
    if !table::sound_for(*lent.table, lent.fixed.len(), lent.live.len()) {
        return Err(Refusal::BadTable);
    }
    if !serve_link::sound(lent.link) {
        return Err(Refusal::BadLink);
    }
    if room < usize::from(lent.link.mtu) {
        return Err(Refusal::InsufficientSpace);
    }
    if packet.is_empty() {
        return Err(Refusal::InvalidValue);
    }
    Ok(())
}

// "No answer and no change: odd opcodes, 1E, and opcodes with bit 40 set", but for 52.
// Kept: what is known of link and packet as premises, and no type for them: the theorems name `Link`.
fn reply(lent: Lent<'_>, packet: &[u8], out: &mut [u8]) -> Replied
    requires link_value { link_ok lent.link ≡ true }
    requires in_bounds { 23 ≤ length out.old }
    requires packet_nonzero { 0 < length packet.now }
    ensures result_value { replied_as packet.now result
        ≡ replied_of (reply_to (views (lent_state lent.entry)) lent.entry.link packet.now)
        (first packet.now) (length out.old) }
    ensures out_after { out.new
        ≡ out_behind (reply_to (views (lent_state lent.entry)) lent.entry.link packet.now)
        (first packet.now) out.old }
{
    let op = packet[0];
    if silent(op) {
        return Replied {
            answer: Answer::Silent,
            effect: command(op, lent, packet),
        };
    }
    let told = request(op, lent, packet, out);
    Replied {
        answer: Answer::Sent(told.len),
        effect: told.effect,
    }
}

#[tactic(auto, unfolding(answers::specs::Replies::silent))]
fn silent(op: u8) -> bool
    ensures { result ≡ book.silent op }
{
    op % 2 == 1 || op == ATT_HANDLE_VALUE_CFM || op / 64 % 2 == 1
}

// 52, strict and no longer than the MTU, stores; no other packet without an answer does anything.
fn command(op: u8, lent: Lent<'_>, packet: &[u8]) -> Pending
    requires { op ≡ first packet.now }
    ensures { meant_by packet.now result ≡ command_to lent.entry.table.now lent.entry.link packet.now }
{
    let most = usize::from(lent.link.mtu);
    if op != ATT_WRITE_CMD || !att_strict::strict(packet) || most < packet.len() {
        return Pending::Nothing;
    }
    match att_decode::decode(packet) {
        Err(_) => Pending::Nothing,
        Ok(att) => command_of(att, lent, packet),
    }
}

fn command_of(att: Att, lent: Lent<'_>, packet: &[u8]) -> Pending
    ensures { meant_by packet.now result
        ≡ command_of lent.entry.table.now lent.entry.link packet.now att }
{
    match att {
        Att::Client(AttClient::Command(write)) => {
            serve_change::command(lent, write.handle, write.data, packet)
        }
        Att::Client(AttClient::Request(_) | AttClient::Confirmation(_)) | Att::Server(_) => {
            Pending::Nothing
        }
    }
}

// "Other requests, in order: longer than the MTU, error 04; opcode not one of these, error 06; not
// strict, error 04."
fn request(op: u8, lent: Lent<'_>, packet: &[u8], out: &mut [u8]) -> Said
    requires link_value { link_ok lent.link ≡ true }
    requires op_value { op ≡ first packet.now }
    requires packet_nonzero { 0 < length packet.now }
    ensures result_value { said.meaning_of packet.now result
        ≡ said_of (request_to (views (lent_state lent.entry)) lent.entry.link packet.now) op (length out.old) }
    ensures out_after { out.new
        ≡ out_of (request_to (views (lent_state lent.entry)) lent.entry.link packet.now) op out.old }
{
    // Kept: `as`, since over `From` the proof did not close (tried).
    if (lent.link.mtu as usize) < packet.len() {
        return serve_request::refuse(op, AttErrorCode::INVALID_PDU, out);
    }
    if !served(op) {
        return serve_request::refuse(op, AttErrorCode::REQUEST_NOT_SUPPORTED, out);
    }
    if !att_strict::strict(packet) {
        return serve_request::refuse(op, AttErrorCode::INVALID_PDU, out);
    }
    match att_decode::decode(packet) {
        Err(_) => serve_request::refuse(op, AttErrorCode::INVALID_PDU, out),
        Ok(att) => typed(op, att, packet, lent, out),
    }
}

// The requests that are served.
#[tactic(auto, unfolding(crate::specs::Packets::served_op, crate::specs::Packets::served_ops, answers::specs::Replies::served))]
fn served(op: u8) -> bool
    ensures { result ≡ served_op op }
{
    matches!(
        op,
        ATT_EXCHANGE_MTU_REQ
            | ATT_FIND_INFORMATION_REQ
            | ATT_FIND_BY_TYPE_VALUE_REQ
            | ATT_READ_BY_TYPE_REQ
            | ATT_READ_REQ
            | ATT_READ_BLOB_REQ
            | ATT_READ_BY_GROUP_TYPE_REQ
            | ATT_WRITE_REQ
    )
}

fn typed(op: u8, att: Att, src: &[u8], lent: Lent<'_>, out: &mut [u8]) -> Said
    requires link_value { link_ok lent.link ≡ true }
    requires op_value { op ≡ (show_att att).opcode }
    ensures result_value { said.meaning_of src.now result
        ≡ said_of (typed_reply (views (lent_state lent.entry)) lent.entry.link op (meaning_of att src.now)) op
        (length out.old) }
    ensures out_after { out.new
        ≡ out_of (typed_reply (views (lent_state lent.entry)) lent.entry.link op (meaning_of att src.now)) op
        out.old }
{
    let code = AttErrorCode::REQUEST_NOT_SUPPORTED;
    // Kept: an arm for each, since where arms are joined it is not known which packet it was, and the proof
    // does not close.
    match att {
        Att::Client(AttClient::Request(req)) => serve_request::answer(req, src, lent, out),
        Att::Client(AttClient::Command(_)) => serve_request::refuse(op, code, out),
        Att::Client(AttClient::Confirmation(_)) => serve_request::refuse(op, code, out),
        Att::Server(_) => serve_request::refuse(op, code, out),
    }
}
