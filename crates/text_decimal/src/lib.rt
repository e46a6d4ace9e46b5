// Numbers in decimal, without padding.
#![tactic(auto)]

ghost use Rattle.std.specs.Prelude.{◌≡◌, ◌++◌, take};
ghost use Rattle.io.specs.Counts.{IsPrefixLen};
ghost use Rattle.codec.specs.Buffer.{laid, written};
ghost use Rattle.text_decimal.specs.Decimal.{decimal_text};

use codec::Error;

// The digits of a number, at the start of the lent bytes; the answer is how many there are.
// Kept: the buffer and how many digits it holds, as the kit's `io::decimal` and its clauses have it.
pub fn spell(n: u64, out: &mut [u8; 20]) -> usize
    ensures prefix_len { IsPrefixLen result out.new }
    ensures out_after { take result out.new ≡ decimal_text n }
{
    io::decimal(n, out)
}

// `front`, the number and `back`, one behind the other. Nothing is written where one has no room.
pub fn write_between(front: &[u8], n: u8, back: &[u8], out: &mut [u8]) -> Result<usize, Error>
    ensures value { result ≡ written (front.now ++ (decimal_text n ++ back.now)) out.old }
    ensures out_after { out.new ≡ laid (front.now ++ (decimal_text n ++ back.now)) out.old }
{
    let mut spelt = [0u8; 20];
    let d = spell(u64::from(n), &mut spelt);
    let f = front.len();
    let room = out.len();
    if room < f || room - f < d || room - f - d < back.len() {
        return Err(Error::InsufficientSpace);
    }
    codec::write_bytes(front, out)?;
    codec::write_bytes(&spelt[..d], &mut out[f..])?;
    let at = f + d;
    let b = codec::write_bytes(back, &mut out[at..])?;
    Ok(at + b)
}
