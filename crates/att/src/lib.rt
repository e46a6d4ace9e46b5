// att.rs: the typed packets. The book of the wire is in specs/, its theorems in proofs/.
//
// A data field is an index range of the received bytes.
//
// A port of src/att.rs of trouble-host 0.8.0, which was changed: see NOTICE.
#![tactic(auto)]

ghost use Rattle.std.specs.Prelude.{◌≡◌, option_copied};
ghost use Rattle.att.specs.Formats.{format_of, format_in, format_number, pair_length};
ghost use Rattle.att.specs.Typed.{part_in};
ghost use Rattle.att.specs.declared.Att.TheVariants.{Client, Server};
ghost use Rattle.att.specs.declared.AttClient.TheVariants.{Request, Command, Confirmation};
ghost use Rattle.att.specs.declared.AttServer.TheVariants.{Response, Unsolicited};

use att_error::AttErrorCode;
use ble_uuid::Uuid;
use codec::Error;

// The opcodes, by the names of att.rs. Kept: numbers and no enum, since a byte of any value comes in and a
// packet is decided by a match on it. Opcode 20 is the Read Multiple Variable Request of the Core Specification (3.4.4.11).
pub const ATT_READ_BY_GROUP_TYPE_REQ: u8 = 0x10;

pub const ATT_READ_BY_GROUP_TYPE_RSP: u8 = 0x11;

pub const ATT_ERROR_RSP: u8 = 0x01;

pub const ATT_READ_BY_TYPE_REQ: u8 = 0x08;

pub const ATT_READ_BY_TYPE_RSP: u8 = 0x09;

pub const ATT_READ_REQ: u8 = 0x0A;

pub const ATT_READ_RSP: u8 = 0x0B;

pub const ATT_WRITE_REQ: u8 = 0x12;

pub const ATT_WRITE_CMD: u8 = 0x52;

pub const ATT_WRITE_RSP: u8 = 0x13;

pub const ATT_EXCHANGE_MTU_REQ: u8 = 0x02;

pub const ATT_EXCHANGE_MTU_RSP: u8 = 0x03;

pub const ATT_FIND_BY_TYPE_VALUE_REQ: u8 = 0x06;

pub const ATT_FIND_BY_TYPE_VALUE_RSP: u8 = 0x07;

pub const ATT_FIND_INFORMATION_REQ: u8 = 0x04;

pub const ATT_FIND_INFORMATION_RSP: u8 = 0x05;

pub const ATT_PREPARE_WRITE_REQ: u8 = 0x16;

pub const ATT_PREPARE_WRITE_RSP: u8 = 0x17;

pub const ATT_EXECUTE_WRITE_REQ: u8 = 0x18;

pub const ATT_EXECUTE_WRITE_RSP: u8 = 0x19;

pub const ATT_READ_MULTIPLE_REQ: u8 = 0x20;

pub const ATT_READ_MULTIPLE_RSP: u8 = 0x21;

pub const ATT_READ_BLOB_REQ: u8 = 0x0C;

pub const ATT_READ_BLOB_RSP: u8 = 0x0D;

pub const ATT_HANDLE_VALUE_NTF: u8 = 0x1B;

pub const ATT_HANDLE_VALUE_IND: u8 = 0x1D;

pub const ATT_HANDLE_VALUE_CFM: u8 = 0x1E;

// A part of the bytes that a packet was read from. Kept: a range and no slice, since a caller may make a packet
// over bytes that it does not fit, and that is refused.
#[derive(Clone, Copy, PartialEq, Eq)]
pub struct Span {
    pub at: usize,
    pub len: usize,
}

impl Span {
    // The part itself, where it lies within these bytes.
    pub fn of(self, src: &[u8]) -> Option<&[u8]>
        ensures { option_copied result ≡ part_in self src.now }
    {
        src.get(self.at..)?.get(..self.len)
    }
}

// ATT Request PDU
#[derive(Clone, Copy)]
pub enum AttReq {
    ReadByGroupType {
        start: u16,
        end: u16,
        group_type: Uuid,
    },
    ReadByType {
        start: u16,
        end: u16,
        attribute_type: Uuid,
    },
    Read {
        handle: u16,
    },
    Write {
        handle: u16,
        data: Span,
    },
    ExchangeMtu {
        mtu: u16,
    },
    FindByTypeValue {
        start_handle: u16,
        end_handle: u16,
        att_type: u16,
        att_value: Span,
    },
    FindInformation {
        start_handle: u16,
        end_handle: u16,
    },
    PrepareWrite {
        handle: u16,
        offset: u16,
        value: Span,
    },
    ExecuteWrite {
        flags: u8,
    },
    ReadMultiple {
        handles: Span,
    },
    ReadBlob {
        handle: u16,
        offset: u16,
    },
}

// ATT Command PDU: Write, the one command.
#[derive(Clone, Copy)]
pub struct AttCmd {
    pub handle: u16,
    pub data: Span,
}

// ATT Confirmation PDU
#[derive(Clone, Copy)]
pub enum AttCfm {
    ConfirmIndication,
}

// ATT Client PDU
#[derive(Clone, Copy)]
pub enum AttClient {
    Request(AttReq),
    Command(AttCmd),
    Confirmation(AttCfm),
}

// The format of Find Information Response: the UUIDs that its pairs hold.
#[derive(Clone, Copy, PartialEq, Eq)]
pub enum FindInformationUuidFormat {
    Uuid16,
    Uuid128,
}

// The format of its byte; any other byte is none.
impl TryFrom<u8> for FindInformationUuidFormat {
    type Error = Error;

    ghost try_from_gives = { λ n format. format ≡ format_in n };

    fn try_from(format: u8) -> Result<FindInformationUuidFormat, Error> {
        match format {
            1 => Ok(FindInformationUuidFormat::Uuid16),
            2 => Ok(FindInformationUuidFormat::Uuid128),
            _ => Err(Error::InvalidValue),
        }
    }
}

impl From<FindInformationUuidFormat> for u8 {
    ghost from_gives = { λ format n. n ≡ format_number format };

    fn from(format: FindInformationUuidFormat) -> u8 {
        match format {
            FindInformationUuidFormat::Uuid16 => 1,
            FindInformationUuidFormat::Uuid128 => 2,
        }
    }
}

impl FindInformationUuidFormat {
    // The format of a byte that decoding accepts, where nothing is refused: any byte but 2 gives the first.
    // Kept beside `try_from`: it cannot fail (what may not change).
    pub fn from_decoded(format: u8) -> Self
        ensures { result ≡ format_of format }
    {
        if format == 2 {
            FindInformationUuidFormat::Uuid128
        } else {
            FindInformationUuidFormat::Uuid16
        }
    }

    // The length of a pair of handle and UUID.
    pub fn pair_len(self) -> usize
        ensures { result ≡ pair_length self }
    {
        match self {
            FindInformationUuidFormat::Uuid16 => 4,
            FindInformationUuidFormat::Uuid128 => 18,
        }
    }
}

// ATT Response PDU. In the place of an iterator stand the bytes of its items.
#[derive(Clone, Copy)]
pub enum AttRsp {
    ExchangeMtu {
        mtu: u16,
    },
    FindByTypeValue {
        items: Span,
    },
    FindInformation {
        format: FindInformationUuidFormat,
        items: Span,
    },
    Error {
        request: u8,
        handle: u16,
        code: AttErrorCode,
    },
    ReadByType {
        item_len: u8,
        items: Span,
    },
    ReadByGroupType {
        item_len: u8,
        items: Span,
    },
    Read {
        data: Span,
    },
    ReadBlob {
        data: Span,
    },
    Write,
}

// ATT Unsolicited PDU
#[derive(Clone, Copy)]
pub enum AttUns {
    Notify { handle: u16, data: Span },
    Indicate { handle: u16, data: Span },
}

// ATT Server PDU
#[derive(Clone, Copy)]
pub enum AttServer {
    Response(AttRsp),
    Unsolicited(AttUns),
}

// ATT Protocol Data Unit
#[derive(Clone, Copy)]
pub enum Att {
    Client(AttClient),
    Server(AttServer),
}

impl From<AttReq> for Att {
    ghost from_gives = { λ r att. att ≡ Client (Request r) };

    fn from(req: AttReq) -> Att {
        Att::Client(AttClient::Request(req))
    }
}

impl From<AttCmd> for Att {
    ghost from_gives = { λ c att. att ≡ Client (Command c) };

    fn from(cmd: AttCmd) -> Att {
        Att::Client(AttClient::Command(cmd))
    }
}

impl From<AttCfm> for Att {
    ghost from_gives = { λ c att. att ≡ Client (Confirmation c) };

    fn from(cfm: AttCfm) -> Att {
        Att::Client(AttClient::Confirmation(cfm))
    }
}

impl From<AttRsp> for Att {
    ghost from_gives = { λ r att. att ≡ Server (Response r) };

    fn from(rsp: AttRsp) -> Att {
        Att::Server(AttServer::Response(rsp))
    }
}

impl From<AttUns> for Att {
    ghost from_gives = { λ u att. att ≡ Server (Unsolicited u) };

    fn from(uns: AttUns) -> Att {
        Att::Server(AttServer::Unsolicited(uns))
    }
}
