// Packets in words: what clients send.
//
// Each function puts its texts behind those that stand on the line. The texts of each packet are in
// specs/, as the programs' page has them.
#![tactic(auto)]

ghost use Rattle.text_print.specs.Lines.{Puts};
ghost use Rattle.explain_client.specs.Clients.{range_texts, sought_texts, request_texts, command_texts, confirmation_texts, client_texts};

use att::{AttCfm, AttClient, AttCmd, AttReq, Span};
use explain_field::{part, two, value};
use text_print::Line;
use text_put::{byte, kind, word};

// The first and the last handle of a range, as the two finds name them.
fn range(line: &mut Line<'_>, name: &[u8], start: u16, end: u16)
    ensures { Puts (range_texts name.now start end) line.old line.new }
{
    two(line, name, start, b" end_handle=", end);
}

// The type and the value that are looked for.
fn sought(line: &mut Line<'_>, kind: u16, src: &[u8], d: Span)
    ensures { Puts (sought_texts kind d src.now) line.old line.new }
{
    word(line, b" att_type=", kind);
    part(line, b" att_value=", src, d);
}

// A request's name and its fields.
fn request(r: AttReq, src: &[u8], line: &mut Line<'_>)
    ensures { Puts (request_texts r src.now) line.old line.new }
{
    match r {
        AttReq::ReadByGroupType {
            start,
            end,
            group_type,
        } => {
            two(line, b"ReadByGroupType start=", start, b" end=", end);
            kind(line, b" group_type=", group_type);
        }
        AttReq::ReadByType {
            start,
            end,
            attribute_type,
        } => {
            two(line, b"ReadByType start=", start, b" end=", end);
            kind(line, b" attribute_type=", attribute_type);
        }
        AttReq::Read { handle } => word(line, b"Read handle=", handle),
        AttReq::Write { handle, data } => value(line, b"Write handle=", handle, src, data),
        AttReq::ExchangeMtu { mtu } => word(line, b"ExchangeMtu mtu=", mtu),
        AttReq::FindByTypeValue {
            start_handle,
            end_handle,
            att_type,
            att_value,
        } => {
            range(
                line,
                b"FindByTypeValue start_handle=",
                start_handle,
                end_handle,
            );
            sought(line, att_type, src, att_value);
        }
        AttReq::FindInformation {
            start_handle,
            end_handle,
        } => range(
            line,
            b"FindInformation start_handle=",
            start_handle,
            end_handle,
        ),
        AttReq::PrepareWrite {
            handle,
            offset,
            value,
        } => {
            two(line, b"PrepareWrite handle=", handle, b" offset=", offset);
            part(line, b" value=", src, value);
        }
        AttReq::ExecuteWrite { flags } => byte(line, b"ExecuteWrite flags=", flags),
        AttReq::ReadMultiple { handles } => part(line, b"ReadMultiple handles=", src, handles),
        AttReq::ReadBlob { handle, offset } => {
            two(line, b"ReadBlob handle=", handle, b" offset=", offset);
        }
    }
}

// What a client sends: the packet's name and its fields.
pub fn client(c: AttClient, src: &[u8], line: &mut Line<'_>)
    ensures { Puts (client_texts c src.now) line.old line.new }
{
    match c {
        AttClient::Request(r) => {
            line.text(b"client request ");
            request(r, src, line);
        }
        AttClient::Command(AttCmd { handle, data }) => value(
            line,
            b"client command Write handle=",
            handle,
            src,
            data,
        ),
        AttClient::Confirmation(AttCfm::ConfirmIndication) => {
            line.text(b"client confirmation ConfirmIndication");
        }
    }
}
