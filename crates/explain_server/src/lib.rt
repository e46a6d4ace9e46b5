// Packets in words: what servers send.
//
// Each function puts its texts behind those that stand on the line. The texts of each packet are in
// specs/, as the programs' page has them.
#![tactic(auto)]

ghost use Rattle.text_print.specs.Lines.{Puts};
ghost use Rattle.explain_server.specs.Servers.{meaning_texts, error_texts, response_texts, unsolicited_texts, server_texts};

use att::{
    ATT_FIND_BY_TYPE_VALUE_RSP, ATT_FIND_INFORMATION_RSP, ATT_READ_BY_GROUP_TYPE_RSP,
    ATT_READ_BY_TYPE_RSP, Att, AttRsp, AttServer, AttUns,
};
use att_error::AttErrorCode;
use text_print::Line;

// The text of an error code, in parentheses.
fn meaning(line: &mut Line<'_>, code: u8)
    ensures { Puts (meaning_texts code) line.old line.new }
{
    let mut spelt = [0u8; 256];
    line.text(b" (");
    if let Ok(n) = att_text::write_text(code, &mut spelt) {
        line.text(text_put::first(&spelt, n));
    }
    line.text(b")");
}

fn error(line: &mut Line<'_>, request: u8, handle: u16, code: AttErrorCode)
    ensures { Puts (error_texts request handle code.value) line.old line.new }
{
    text_put::byte(line, b"Error request=", request);
    text_put::word(line, b" handle=", handle);
    text_put::byte(line, b" code=", code.value);
    meaning(line, code.value);
}

// A response's name and its fields.
fn response(r: AttRsp, att: Att, src: &[u8], line: &mut Line<'_>)
    ensures { Puts (response_texts r att src.now) line.old line.new }
{
    match r {
        AttRsp::ExchangeMtu { mtu } => text_put::word(line, b"ExchangeMtu mtu=", mtu),
        AttRsp::FindByTypeValue { .. } => {
            line.text(b"FindByTypeValue");
            explain_items::items(ATT_FIND_BY_TYPE_VALUE_RSP, att, src, line);
        }
        AttRsp::FindInformation { format, .. } => {
            text_put::byte(line, b"FindInformation format=", u8::from(format));
            explain_items::items(ATT_FIND_INFORMATION_RSP, att, src, line);
        }
        AttRsp::Error {
            request,
            handle,
            code,
        } => error(line, request, handle, code),
        AttRsp::ReadByType { item_len, .. } => {
            // Kept: `as`, here and below, since over `From` the proof did not close (tried).
            text_put::count(line, b"ReadByType item_len=", item_len as u64);
            explain_items::items(ATT_READ_BY_TYPE_RSP, att, src, line);
        }
        AttRsp::ReadByGroupType { item_len, .. } => {
            text_put::count(line, b"ReadByGroupType item_len=", item_len as u64);
            explain_items::items(ATT_READ_BY_GROUP_TYPE_RSP, att, src, line);
        }
        AttRsp::Read { data } => explain_field::part(line, b"Read data=", src, data),
        AttRsp::ReadBlob { data } => explain_field::part(line, b"ReadBlob data=", src, data),
        AttRsp::Write => line.text(b"Write"),
    }
}

fn unsolicited(u: AttUns, src: &[u8], line: &mut Line<'_>)
    ensures { Puts (unsolicited_texts u src.now) line.old line.new }
{
    match u {
        AttUns::Notify { handle, data } => {
            explain_field::value(line, b"Notify handle=", handle, src, data);
        }
        AttUns::Indicate { handle, data } => {
            explain_field::value(line, b"Indicate handle=", handle, src, data);
        }
    }
}

// What a server sends: the packet's name and its fields.
pub fn server(s: AttServer, att: Att, src: &[u8], line: &mut Line<'_>)
    ensures { Puts (server_texts s att src.now) line.old line.new }
{
    match s {
        AttServer::Response(r) => {
            line.text(b"server response ");
            response(r, att, src, line);
        }
        AttServer::Unsolicited(u) => {
            line.text(b"server unsolicited ");
            unsolicited(u, src, line);
        }
    }
}
