// What a person types for bytes, numbers and types.
#![tactic(auto)]

ghost use Rattle.std.specs.Prelude.{◌≤◌, ◌<◌, ◌≡◌, true, eqb, length, IfSome};
ghost use Rattle.std.specs.List.{list_any};
ghost use Rattle.codec.specs.Buffer.{over};
ghost use Rattle.text_hex.specs.Hex.{digit as Hex·digit, digit_in, values, below, pairs, without, unblanked, is_dash, hex_means, answered, filled, digits_mean};
ghost use Rattle.text_hex.specs.Hex.{number_in, decimal_of, handle_of, outline as Hex·outline, hyphened, type_of};
ghost use Rattle.text_hex.specs.Scanning.{scanned, Next};

use ble_uuid::Uuid;
use codec::Error;

// Why a HEX gives no bytes.
#[derive(Clone, Copy, PartialEq, Eq)]
pub enum HexError {
    NotHex,
    TooLong,
}

// The value of a digit of a base.
#[tactic(auto, using(crate::specs::HexLaws::digit_of_base))]
fn digit(c: u8, base: u32) -> Option<u32>
    requires at_least { 2 ≤ base }
    requires at_most { base ≤ 16 }
    ensures { result ≡ digit_in base c }
{
    char::from(c).to_digit(base)
}

// The value of a character that is a hexadecimal digit.
fn value(c: u8) -> u8
    requires { Hex·digit c < 16 }
    ensures { result ≡ Hex·digit c }
{
    digit(c, 16).unwrap() as u8
}

// Whether a character is passed over. One or two such characters, as the programs have them, are asked for in
// place; `contains` may be a call for each character of a text.
fn is_passed(c: u8, passed: &[u8]) -> bool
    ensures { result ≡ list_any (λ d. eqb d c) passed.now }
{
    match passed {
        [a] => *a == c,
        [a, b] => *a == c || *b == c,
        _ => passed.contains(&c),
    }
}

// The first character of a text that is not passed over, and what stands behind it.
#[tactic(auto, unfolding(crate::specs::Hex::without))]
fn next<'a>(text: &'a [u8], passed: &[u8]) -> Option<(u8, &'a [u8])>
    ensures { Next passed.now text.now result }
{
    for (i, c) in text.iter().enumerate() {
        if !is_passed(*c, passed) {
            return Some((*c, &text[i + 1..]));
        }
    }
    None
}

// How many digits stand in a text that has nothing else, but for what is passed over.
#[tactic(auto, unfolding(crate::specs::Hex::without, crate::specs::Hex::below))]
fn count_digits(text: &[u8], passed: &[u8]) -> Option<usize>
    ensures { result ≡ scanned 0 (without passed.now text.now) }
{
    let mut n = 0;
    for c in text {
        if !is_passed(*c, passed) {
            digit(*c, 16)?;
            n += 1;
        }
    }
    Some(n)
}

// Whether `-` stands alone in a text, but for blanks.
fn is_dash(text: &[u8]) -> bool
    ensures { result ≡ is_dash (unblanked text.now) }
{
    matches!(next(text, b" \t"), Some((b'-', rest)) if next(rest, b" \t").is_none())
}

// The bytes of the digits of a text at the start of out.
// Kept: by a place counted on: what is written through `iter_mut` is not known afterwards (tried).
#[tactic(auto, using(crate::specs::HexLaws::none_left_put, crate::specs::HexLaws::odd_one_put))]
fn fill(text: &[u8], passed: &[u8], out: &mut [u8])
    requires text_value { below 16 (values (without passed.now text.now)) ≡ true }
    requires text_in_bounds { length (pairs (values (without passed.now text.now))) ≤ length out.old }
    ensures { out.new ≡ over (pairs (values (without passed.now text.now))) out.old }
{
    let mut at = 0;
    let mut rest = text;
    while let Some((upper, behind)) = next(rest, passed)
        && let Some((lower, behind)) = next(behind, passed)
    {
        out[at] = value(upper) * 16 + value(lower);
        at += 1;
        rest = behind;
    }
}

// The bytes of an even number of digits.
fn decode(text: &[u8], passed: &[u8], out: &mut [u8]) -> Result<usize, HexError>
    ensures value { result ≡ answered (digits_mean (values (without passed.now text.now))) (length out.old) }
    ensures out_after { out.new ≡ filled (digits_mean (values (without passed.now text.now))) out.old }
{
    let n = count_digits(text, passed).ok_or(HexError::NotHex)?;
    if n % 2 != 0 {
        return Err(HexError::NotHex);
    }
    if out.len() < n / 2 {
        return Err(HexError::TooLong);
    }
    fill(text, passed, out);
    Ok(n / 2)
}

// A HEX at the start of out, which has as many bytes as a HEX may have here.
#[tactic(auto, unfolding(crate::specs::Hex::hex_means))]
pub fn read_hex(text: &[u8], out: &mut [u8]) -> Result<usize, HexError>
    ensures value { result ≡ answered (hex_means text.now) (length out.old) }
    ensures out_after { out.new ≡ filled (hex_means text.now) out.old }
{
    if is_dash(text) {
        return Ok(0);
    }
    decode(text, b" \t", out)
}

// A number in a base, of one digit or more and at most `most`.
#[tactic(auto, unfolding(crate::specs::Hex::below, crate::specs::Hex::numeral), using(crate::specs::HexLaws::number_empty, crate::specs::HexLaws::number_starts, crate::specs::HexLaws::number_over))]
fn read_number(word: &[u8], base: u32, most: u64) -> Option<u64>
    requires at_least { 2 ≤ base }
    requires at_most { base ≤ 16 }
    ensures { result ≡ number_in base most word.now }
{
    if word.is_empty() {
        return None;
    }
    let mut v: u64 = 0;
    for c in word {
        let d = digit(*c, base)?;
        v = v.checked_mul(u64::from(base))?.checked_add(u64::from(d))?;
        if most < v {
            return None;
        }
    }
    Some(v)
}

// N: a decimal number that fits 64 bits.
pub fn read_decimal(word: &[u8]) -> Option<u64>
    ensures { result ≡ decimal_of word.now }
{
    read_number(word, 10, u64::MAX)
}

// HANDLE: 4 hexadecimal digits.
#[tactic(auto, unfolding(crate::specs::Hex::handle_of), using(crate::specs::HexLaws::number_bounded))]
pub fn read_handle(word: &[u8]) -> Option<u16>
    ensures { result ≡ handle_of word.now }
{
    if word.len() != 4 {
        return None;
    }
    let n = read_number(word, 16, 0xFFFF)?;
    Some(n as u16)
}

// Whether a word of 36 characters has `-` where the usual form of a 128-bit UUID has it.
fn is_hyphened(word: &[u8]) -> bool
    requires { length word.now ≡ 36 }
    ensures { result ≡ hyphened word.now }
{
    [8, 13, 18, 23].iter().all(|i| word[*i] == b'-')
}

// How many bytes a type of this outline has.
#[tactic(auto, unfolding(crate::specs::Hex::outline))]
fn outline(word: &[u8]) -> Option<usize>
    ensures value { result ≡ Hex·outline word.now }
    ensures at_most { IfSome result (λ n. n ≤ 16) }
{
    match word.len() {
        4 => Some(2),
        8 => Some(4),
        36 if is_hyphened(word) => Some(16),
        _ => None,
    }
}

// TYPE: 4 or 8 hexadecimal digits, or the usual form of a 128-bit UUID; any other word is refused.
#[tactic(auto, using(crate::specs::HexLaws::no_outline, crate::specs::HexLaws::other_bytes, crate::specs::HexLaws::same_bytes))]
pub fn read_type(word: &[u8]) -> Result<Uuid, Error>
    ensures { result ≡ type_of word.now }
{
    let n = outline(word).ok_or(Error::InvalidValue)?;
    let mut bytes = [0u8; 16];
    if decode(word, b"-", &mut bytes) != Ok(n) {
        return Err(Error::InvalidValue);
    }
    bytes[..n].reverse();
    Uuid::try_from(&bytes[..n])
}
