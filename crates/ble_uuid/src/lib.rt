// types/uuid.rs: the three forms of a UUID, little-endian.
//
// A port of src/types/uuid.rs of trouble-host 0.8.0, which was changed: see NOTICE.
#![tactic(auto)]

ghost use Rattle.std.specs.Prelude.{◌≡◌, ◌≤◌, ◌++◌, length};
ghost use Rattle.ble_uuid.specs.Uuids.{width_of, own, on_air, equal_types, equal, padded, base, att_type, att_bytes};
ghost use Rattle.ble_uuid.specs.Uuids.{raw_of, short_of, short, wide, long, no_uuid, sliced};
ghost use Rattle.ble_uuid.specs.UuidsLaws.{equal_partial, equal_equivalence};

use codec::Error;
use primitives::Primitive;

#[derive(Clone, Copy, Debug)]
pub enum Uuid {
    Uuid16([u8; 2]),
    Uuid32([u8; 4]),
    Uuid128([u8; 16]),
}

// Bytes handed back by value: the first `len` count, and 00 stands behind them.
// Kept: document 01 hands them back so, `att_bytes` makes sixteen that no one lent, and there is no heap.
#[derive(Clone, Copy)]
pub struct Raw {
    pub bytes: [u8; 16],
    pub len: usize,
}

// The Bluetooth base, 00000000-0000-1000-8000-00805F9B34FB, little-endian.
const BASE: [u8; 16] = [
    0xFB, 0x34, 0x9B, 0x5F, 0x80, 0x00, 0x00, 0x80, 0x00, 0x10, 0x00, 0x00, 0x00, 0x00, 0x00, 0x00,
];

// Equality: form and the form's own bytes.
// Kept: what may not change: `equal` is `equal_types` of the own bytes, the test that types' bytes are asked too.
impl PartialEq for Uuid {
    ghost eq = { equal };

    ghost laws = { equal_partial };

    fn eq(&self, other: &Uuid) -> bool {
        equal_types(self.own_bytes(), other.own_bytes())
    }
}

impl Eq for Uuid {
    ghost laws = { equal_equivalence };
}

impl From<u16> for Uuid {
    ghost from_gives = { λ val u. u ≡ short val };

    fn from(val: u16) -> Uuid {
        Uuid::new_short(val)
    }
}

impl From<u32> for Uuid {
    ghost from_gives = { λ val u. u ≡ wide val };

    fn from(val: u32) -> Uuid {
        Uuid::Uuid32(val.to_le_bytes())
    }
}

impl From<[u8; 16]> for Uuid {
    ghost from_gives = { λ val u. u ≡ long val };

    fn from(val: [u8; 16]) -> Uuid {
        Uuid::new_long(val)
    }
}

// 2, 4 or 16 bytes are a UUID.
impl TryFrom<&[u8]> for Uuid {
    type Error = Error;

    ghost try_from_gives = { λ value r. r ≡ sliced value.now };

    #[tactic(auto, unfolding(crate::specs::Uuids::sliced))]
    fn try_from(value: &[u8]) -> Result<Uuid, Error> {
        match value.len() {
            2 => Ok(Uuid::Uuid16(all(value))),
            4 => Ok(Uuid::Uuid32(all(value))),
            16 => Ok(Uuid::Uuid128(all(value))),
            _ => Err(Error::InvalidValue),
        }
    }
}

impl Uuid {
    // Kept beside From: the names of uuid.rs, which outsiders call.
    pub fn new_short(val: u16) -> Self
        ensures { result ≡ short val }
    {
        Uuid::Uuid16(val.to_le_bytes())
    }

    pub fn new_long(val: [u8; 16]) -> Self
        ensures { result ≡ long val }
    {
        Uuid::Uuid128(val)
    }

    // The format of Find Information Response that this UUID is listed under.
    pub fn get_att_type(&self) -> u8
        ensures { result ≡ att_type self.now }
    {
        match self {
            Uuid::Uuid16(_) => 1,
            Uuid::Uuid32(_) | Uuid::Uuid128(_) => 2,
        }
    }

    // The UUID's own bytes, lent.
    pub fn own_bytes(&self) -> &[u8]
        ensures { result.now ≡ own self.now }
    {
        match self {
            Uuid::Uuid16(bytes) => bytes,
            Uuid::Uuid32(bytes) => bytes,
            Uuid::Uuid128(bytes) => bytes,
        }
    }

    // The bytes that a packet carries, lent.
    // Kept beside `own_bytes`: what a packet carries is one definition of its own, which request W-204 moves.
    #[tactic(auto, unfolding(crate::specs::Uuids::on_air))]
    pub fn air_bytes(&self) -> &[u8]
        ensures { result.now ≡ on_air self.now }
    {
        self.own_bytes()
    }

    // The UUID's own bytes, by value.
    pub fn as_raw(self) -> Raw
        ensures { result ≡ raw_of (own self) }
    {
        let bytes = pad(self.own_bytes());
        let len = self.width();
        Raw { bytes, len }
    }

    // The bytes that a packet carries, by value.
    #[tactic(auto, unfolding(crate::specs::Uuids::on_air))]
    pub fn on_air(self) -> Raw
        ensures { result ≡ raw_of (on_air self) }
    {
        self.as_raw()
    }

    // The bytes under the format that `get_att_type` gives.
    pub fn att_bytes(&self) -> Raw
        ensures { result ≡ raw_of (att_bytes self.now) }
    {
        match self {
            Uuid::Uuid32(own) => {
                let bytes = on_base(*own);
                Raw { bytes, len: 16 }
            }
            Uuid::Uuid16(_) | Uuid::Uuid128(_) => self.as_raw(),
        }
    }

    // The number of a 16-bit UUID.
    pub fn as_short(&self) -> Result<u16, Error>
        ensures { result ≡ short_of self.now }
    {
        match self {
            Uuid::Uuid16(own) => Ok(u16::at(own, 0)),
            Uuid::Uuid32(_) | Uuid::Uuid128(_) => Err(Error::InvalidValue),
        }
    }

    // How many own bytes a UUID of this form has.
    pub fn width(&self) -> usize
        ensures { result ≡ width_of self.now }
    {
        match self {
            Uuid::Uuid16(_) => 2,
            Uuid::Uuid32(_) => 4,
            Uuid::Uuid128(_) => 16,
        }
    }
}

// The 16-bit 0000, for a record that holds none.
pub fn no_uuid() -> Uuid
    ensures { result ≡ no_uuid }
{
    Uuid::Uuid16([0; 2])
}

pub fn from_slice(value: &[u8]) -> Result<Uuid, Error>
    ensures { result ≡ sliced value.now }
{
    Uuid::try_from(value)
}

// Whether two UUIDs are equal, from their own bytes.
pub fn equal_types(a: &[u8], b: &[u8]) -> bool
    ensures { result ≡ equal_types a.now b.now }
{
    a == b
}

fn all<const N: usize>(value: &[u8]) -> [u8; N]
    requires { length value.now ≡ N }
    ensures { result ≡ value.now }
{
    let mut bytes = [0u8; N];
    bytes.copy_from_slice(value);
    bytes
}

fn pad(own: &[u8]) -> [u8; 16]
    requires { length own.now ≤ 16 }
    ensures { result ≡ padded own.now }
{
    let mut bytes = [0u8; 16];
    bytes[..own.len()].copy_from_slice(own);
    bytes
}

// A 32-bit value expanded on the base.
fn on_base(value: [u8; 4]) -> [u8; 16]
    ensures { result ≡ base ++ value }
{
    let mut bytes = BASE;
    bytes[12..].copy_from_slice(&value);
    bytes
}
