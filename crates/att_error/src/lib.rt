// The error codes of att.rs (Core Specification, Volume 3 Part F, 3.4.1.1, and its Supplement, Part B).
//
// A port of src/att.rs of trouble-host 0.8.0, which was changed: see NOTICE.
#![tactic(auto)]

ghost use Rattle.std.specs.Prelude.{◌≡◌};
ghost use Rattle.att_error.specs.Texts.{codes};

use codec::Error;

// Kept: a number with names and no enum, since every byte is a code: 80 to 9F are the application's own.
#[derive(Clone, Copy, PartialEq, Eq)]
pub struct AttErrorCode {
    pub value: u8,
}

impl AttErrorCode {
    pub const INVALID_HANDLE: Self = Self { value: 0x01 };

    pub const READ_NOT_PERMITTED: Self = Self { value: 0x02 };

    pub const WRITE_NOT_PERMITTED: Self = Self { value: 0x03 };

    pub const INVALID_PDU: Self = Self { value: 0x04 };

    pub const INSUFFICIENT_AUTHENTICATION: Self = Self { value: 0x05 };

    pub const REQUEST_NOT_SUPPORTED: Self = Self { value: 0x06 };

    pub const INVALID_OFFSET: Self = Self { value: 0x07 };

    pub const INSUFFICIENT_AUTHORISATION: Self = Self { value: 0x08 };

    pub const PREPARE_QUEUE_FULL: Self = Self { value: 0x09 };

    pub const ATTRIBUTE_NOT_FOUND: Self = Self { value: 0x0A };

    pub const ATTRIBUTE_NOT_LONG: Self = Self { value: 0x0B };

    pub const INSUFFICIENT_ENCRYPTION_KEY_SIZE: Self = Self { value: 0x0C };

    pub const INVALID_ATTRIBUTE_VALUE_LENGTH: Self = Self { value: 0x0D };

    pub const UNLIKELY_ERROR: Self = Self { value: 0x0E };

    pub const INSUFFICIENT_ENCRYPTION: Self = Self { value: 0x0F };

    pub const UNSUPPORTED_GROUP_TYPE: Self = Self { value: 0x10 };

    pub const INSUFFICIENT_RESOURCES: Self = Self { value: 0x11 };

    pub const DATABASE_OUT_OF_SYNC: Self = Self { value: 0x12 };

    pub const VALUE_NOT_ALLOWED: Self = Self { value: 0x13 };

    pub const WRITE_REQUEST_REJECTED: Self = Self { value: 0xFC };

    pub const CCCD_IMPROPERLY_CONFIGURED: Self = Self { value: 0xFD };

    pub const PROCEDURE_ALREADY_IN_PROGRESS: Self = Self { value: 0xFE };

    pub const OUT_OF_RANGE: Self = Self { value: 0xFF };
}

impl From<u8> for AttErrorCode {
    ghost from_gives = { λ n code. code.value ≡ n };

    fn from(value: u8) -> AttErrorCode {
        AttErrorCode { value }
    }
}

impl From<AttErrorCode> for u8 {
    ghost from_gives = { λ code n. n ≡ code.value };

    fn from(code: AttErrorCode) -> u8 {
        code.value
    }
}

// Either error of the codec is an invalid PDU to the peer.
impl From<Error> for AttErrorCode {
    ghost from_gives = { λ _ code. code.value ≡ 0x04 };

    fn from(_e: Error) -> AttErrorCode {
        AttErrorCode::INVALID_PDU
    }
}

// The codes that have a text of their own, rising.
pub fn codes_with_text() -> [u8; 23]
    ensures { result ≡ codes }
{
    [
        AttErrorCode::INVALID_HANDLE.value,
        AttErrorCode::READ_NOT_PERMITTED.value,
        AttErrorCode::WRITE_NOT_PERMITTED.value,
        AttErrorCode::INVALID_PDU.value,
        AttErrorCode::INSUFFICIENT_AUTHENTICATION.value,
        AttErrorCode::REQUEST_NOT_SUPPORTED.value,
        AttErrorCode::INVALID_OFFSET.value,
        AttErrorCode::INSUFFICIENT_AUTHORISATION.value,
        AttErrorCode::PREPARE_QUEUE_FULL.value,
        AttErrorCode::ATTRIBUTE_NOT_FOUND.value,
        AttErrorCode::ATTRIBUTE_NOT_LONG.value,
        AttErrorCode::INSUFFICIENT_ENCRYPTION_KEY_SIZE.value,
        AttErrorCode::INVALID_ATTRIBUTE_VALUE_LENGTH.value,
        AttErrorCode::UNLIKELY_ERROR.value,
        AttErrorCode::INSUFFICIENT_ENCRYPTION.value,
        AttErrorCode::UNSUPPORTED_GROUP_TYPE.value,
        AttErrorCode::INSUFFICIENT_RESOURCES.value,
        AttErrorCode::DATABASE_OUT_OF_SYNC.value,
        AttErrorCode::VALUE_NOT_ALLOWED.value,
        AttErrorCode::WRITE_REQUEST_REJECTED.value,
        AttErrorCode::CCCD_IMPROPERLY_CONFIGURED.value,
        AttErrorCode::PROCEDURE_ALREADY_IN_PROGRESS.value,
        AttErrorCode::OUT_OF_RANGE.value,
    ]
}
