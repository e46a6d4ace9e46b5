// The strict test: whether received bytes are a packet in the Core form, by lengths alone.
#![tactic(auto)]

ghost use Rattle.std.specs.Prelude.{◌≡◌, [], ◌∷◌, ◌≤◌};
ghost use Rattle.primitives.specs.Numbers.{number_at};
ghost use Rattle.att.specs.Wire.{Ends, Rest, Handles, AUuid, Items, first, by_format, shape_of, shape_strict};
ghost use Rattle.att.specs.Wire as wire;
ghost use Rattle.att_strict.specs.Tests.{exact};

use att::{
    ATT_ERROR_RSP, ATT_EXCHANGE_MTU_REQ, ATT_EXCHANGE_MTU_RSP, ATT_EXECUTE_WRITE_REQ,
    ATT_FIND_BY_TYPE_VALUE_REQ, ATT_FIND_BY_TYPE_VALUE_RSP, ATT_FIND_INFORMATION_REQ,
    ATT_FIND_INFORMATION_RSP, ATT_HANDLE_VALUE_CFM, ATT_HANDLE_VALUE_IND, ATT_HANDLE_VALUE_NTF,
    ATT_PREPARE_WRITE_REQ, ATT_READ_BLOB_REQ, ATT_READ_BLOB_RSP, ATT_READ_BY_GROUP_TYPE_REQ,
    ATT_READ_BY_GROUP_TYPE_RSP, ATT_READ_BY_TYPE_REQ, ATT_READ_BY_TYPE_RSP, ATT_READ_MULTIPLE_REQ,
    ATT_READ_REQ, ATT_READ_RSP, ATT_WRITE_CMD, ATT_WRITE_REQ, ATT_WRITE_RSP,
    FindInformationUuidFormat,
};
use primitives::Primitive;

// Whether bytes are a packet in the Core form. What does not decode is not strict.
#[tactic(auto, using(crate::proofs::Rows::strict_nil))]
pub fn strict(src: &[u8]) -> bool
    ensures { result ≡ wire.strict src.now }
{
    match src {
        [op, p @ ..] => strict_payload(*op, p),
        [] => false,
    }
}

// The length of a pair of 05 by its format; a format that is none has no pairs.
pub fn pair_len(format: u8) -> usize
    ensures { result ≡ by_format (format ∷ []) }
{
    match FindInformationUuidFormat::try_from(format) {
        Ok(format) => format.pair_len(),
        Err(_) => 0,
    }
}

// The length of an item of 09 and 11.
pub fn item_len(p: &[u8]) -> usize
    ensures { result ≡ number_at 1 0 p.now }
{
    usize::from(u8::at(p, 0))
}

// The strict form of the payload of an opcode.
#[tactic(auto, unfolding(att::specs::Wire::shape_of, att::specs::Wire::rows))]
fn strict_payload(op: u8, p: &[u8]) -> bool
    ensures { result ≡ shape_strict (shape_of op) p.now }
{
    match op {
        ATT_ERROR_RSP | ATT_FIND_INFORMATION_REQ | ATT_READ_BLOB_REQ => ends(p, 4),
        ATT_EXCHANGE_MTU_REQ | ATT_EXCHANGE_MTU_RSP | ATT_READ_REQ => ends(p, 2),
        ATT_EXECUTE_WRITE_REQ => ends(p, 1),
        ATT_WRITE_RSP | ATT_HANDLE_VALUE_CFM => ends(p, 0),
        ATT_FIND_BY_TYPE_VALUE_REQ => at_least(p, 6),
        ATT_PREPARE_WRITE_REQ => at_least(p, 4),
        ATT_WRITE_REQ | ATT_WRITE_CMD | ATT_HANDLE_VALUE_NTF | ATT_HANDLE_VALUE_IND => {
            at_least(p, 2)
        }
        ATT_READ_RSP | ATT_READ_BLOB_RSP => at_least(p, 0),
        ATT_READ_BY_TYPE_REQ | ATT_READ_BY_GROUP_TYPE_REQ => has_uuid(p),
        ATT_READ_MULTIPLE_REQ => handles(p),
        ATT_FIND_INFORMATION_RSP => strict_pairs(p),
        ATT_FIND_BY_TYPE_VALUE_RSP => whole_items(p, 0, 4, 2),
        ATT_READ_BY_TYPE_RSP => strict_items(p, 2),
        ATT_READ_BY_GROUP_TYPE_RSP => strict_items(p, 4),
        _ => false,
    }
}

fn ends(p: &[u8], fixed: usize) -> bool
    ensures { result ≡ exact Ends [] fixed p.now }
{
    p.len() == fixed
}

fn at_least(p: &[u8], fixed: usize) -> bool
    ensures { result ≡ exact Rest [] fixed p.now }
{
    fixed <= p.len()
}

fn has_uuid(p: &[u8]) -> bool
    ensures { result ≡ exact AUuid [] 4 p.now }
{
    matches!(p.len(), 6 | 20)
}

fn handles(p: &[u8]) -> bool
    ensures { result ≡ exact Handles [] 0 p.now }
{
    let n = p.len();
    4 <= n && n % 2 == 0
}

fn strict_pairs(p: &[u8]) -> bool
    ensures { result ≡ exact (Items by_format 2) (number_at 1 0 p.now ∷ []) 1 p.now }
{
    whole_items(p, 1, pair_len(u8::at(p, 0)), 2)
}

fn strict_items(p: &[u8], least: usize) -> bool
    requires { 2 ≤ least }
    ensures { result ≡ exact (Items first least) (number_at 1 0 p.now ∷ []) 1 p.now }
{
    whole_items(p, 1, item_len(p), least)
}

// One or more items, all of them whole.
fn whole_items(p: &[u8], fixed: usize, each: usize, least: usize) -> bool
    requires { 2 ≤ least }
    ensures { result ≡ exact (Items first least) (each ∷ []) fixed p.now }
{
    if each < least || p.len() < fixed {
        return false;
    }
    let n = p.len() - fixed;
    each <= n && n % each == 0
}
