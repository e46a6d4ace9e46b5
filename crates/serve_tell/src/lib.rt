// Document 01, "How a packet is served": an answer is a typed packet given to the encoder; where the
// encoder refuses, error 0E with handle 0 goes out.
#![tactic(auto)]

ghost use Rattle.std.specs.Prelude.{◌≡◌, length};
ghost use Rattle.codec.specs.Buffer.{laid};
ghost use Rattle.att.specs.Typed.{written_of, laid_of};
ghost use Rattle.att.specs.Wire.{send};
ghost use Rattle.answers.specs.Replies.{error_packet};
ghost use Rattle.answers.specs.Serve.{unlikely};
ghost use Rattle.serve_tell.specs.Tell.{packet_of, encoded_of, unlikely_wrote, wrote_by, out_by};

use att::{Att, AttRsp, AttServer};
use att_error::AttErrorCode;
use codec::Error;

// How many bytes went out, and whether they are the packet that was meant.
// Kept: the length is read of both alike, and the mark in one place.
#[derive(Clone, Copy)]
pub struct Wrote {
    pub len: usize,
    pub meant: bool,
}

// The answer `rsp` to the opcode `op`, its data in `src`. An output too short for any answer gets none.
pub fn tell(rsp: AttRsp, src: &[u8], op: u8, out: &mut [u8]) -> Wrote
    ensures value { result ≡ wrote_by (packet_of rsp src.now) op (length out.old) }
    ensures out_after { out.new ≡ out_by (packet_of rsp src.now) op out.old }
{
    match encode(rsp, src, out) {
        Ok(len) => Wrote { len, meant: true },
        Err(_) => tell_unlikely(op, out),
    }
}

// An error: 01, the request's opcode, handle, code.
#[tactic(auto, using(crate::specs::TellLaws::error_is))]
pub fn error(op: u8, handle: u16, code: AttErrorCode, out: &mut [u8]) -> Wrote
    ensures value { result ≡ wrote_by (send (error_packet op handle code.value)) op (length out.old) }
    ensures out_after { out.new ≡ out_by (send (error_packet op handle code.value)) op out.old }
{
    let answer = AttRsp::Error {
        request: op,
        handle,
        code,
    };
    tell(answer, &[], op, out)
}

fn tell_unlikely(op: u8, out: &mut [u8]) -> Wrote
    ensures value { result ≡ unlikely_wrote op (length out.old) }
    ensures out_after { out.new ≡ laid (unlikely op) out.old }
{
    let error = AttRsp::Error {
        request: op,
        handle: 0,
        code: AttErrorCode::UNLIKELY_ERROR,
    };
    Wrote {
        len: encode(error, &[], out).unwrap_or(0),
        meant: false,
    }
}

#[tactic(auto, unfolding(crate::specs::Tell::encoded_of))]
fn encode(rsp: AttRsp, src: &[u8], out: &mut [u8]) -> Result<usize, Error>
    ensures value { result ≡ written_of (encoded_of rsp src.now) out.old }
    ensures out_after { out.new ≡ laid_of (encoded_of rsp src.now) out.old }
{
    att_encode::encode(Att::Server(AttServer::Response(rsp)), src, out)
}
