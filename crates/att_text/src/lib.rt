// The text of an error code: att.rs's `Display`, written to a lent buffer.
//
// A port of src/att.rs of trouble-host 0.8.0, which was changed: see NOTICE.
#![tactic(auto)]

ghost use Rattle.std.specs.Prelude.{◌≡◌, option_copied};
ghost use Rattle.codec.specs.Buffer.{laid, written};
ghost use Rattle.att_error.specs.Texts.{own_text, text_of};

use codec::Error;

// Kept: no `Display` stands in the place of this, since its `fmt` does not promise that a buffer without room
// stays as it was.
pub fn write_text(code: u8, out: &mut [u8]) -> Result<usize, Error>
    ensures value { result ≡ written (text_of code) out.old }
    ensures out_after { out.new ≡ laid (text_of code) out.old }
{
    if let Some(text) = own_text(code) {
        return codec::write_bytes(text, out);
    }
    match code {
        0x80..=0x9F => text_decimal::write_between(
            b"application error code ",
            code,
            b": check the application documentation of the device which produced this error code",
            out,
        ),
        _ => text_decimal::write_between(
            b"unknown error code ",
            code,
            b": check the most recent bluetooth spec",
            out,
        ),
    }
}

// The text of a code that has one of its own.
// Kept: a constant's `.value` is no pattern, and `write_text` takes any byte: no plainer with names.
#[tactic(auto, unfolding(att_error::specs::Texts::texts))]
fn own_text(code: u8) -> Option<&'static [u8]>
    ensures { option_copied result ≡ own_text code }
{
    let text: &'static [u8] = match code {
        0x01 => b"invalid handle: Attempted to use a handle that isn't valid on this server",
        0x02 => b"read not permitted: the attribute cannot be read",
        0x03 => b"write not permitted: the attribute cannot be written due to permissions",
        0x04 => b"invalid pdu: the attribute PDU was invalid",
        0x05 =>
            b"insufficient authentication: the attribute requires authentication before it can be written",
        0x06 =>
            b"request not supported: ATT server does not support the request received from the client",
        0x07 => b"Offset specified was past the end of the attribute",
        0x08 =>
            b"insufficient authorisation: the attribute requires authorisation before it can be read or written",
        0x09 => b"prepare queue full: too many prepare writes have been queued",
        0x0A => b"attribute not found: no attribute found within the given attribute handle range",
        0x0B => b"The attribute cannot be read using the ATT_READ_BLOB_REQ PDU",
        0x0C =>
            b"insufficient encryption key size: the encryption key size used for encrypting this link is too short",
        0x0D =>
            b"invalid attribute value length: the attribute value length is invalid for the operation",
        0x0E =>
            b"unlikely error: the attribute request encountered an error that was unlikely, and therefore could not be completed",
        0x0F =>
            b"insufficient encryption: the attribute requires encryption before it can be read or written",
        0x10 =>
            b"unsupported group type: the attribute type is not a supported grouping attribute as defined by a higher layer specification",
        0x11 => b"insufficient resources: insufficient resources to complete the request",
        0x12 => b"the server requests the client to rediscover the database",
        0x13 => b"value not allowed: the attribute parameter value was not allowed",
        0xFC =>
            b"write request rejected: the write request could not be fulfilled for reasons other than permissions",
        0xFD =>
            b"CCCD improperly configured: the client characteristic configuration descriptor (CCCD) \
              is not configured according to the requirements of the profile or service",
        0xFE =>
            b"procedure already in progress: the profile or service request could not be serviced because \
              an operation that has been previousl triggered is still in progress",
        0xFF =>
            b"out of range: the attribute value is out of range as defined by a profile or service specification",
        _ => return None,
    };
    Some(text)
}
