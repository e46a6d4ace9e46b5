// What the requests of the comparison with the Rust share: the words of a request, refusals, and the digits
// of a number.
//
// The contracts here are those of any library. The crates above put replies together: where specs/ has no
// texts of a reply, it is proved safe and ending only, and all replies are held to the Rust's by oracle/.
#![tactic(auto)]

ghost use Rattle.std.specs.Prelude.{ℕ, ◌≡◌, ◌≤◌, ◌/◌, ◌%◌, List, [], ◌∷◌, length, take};
ghost use Rattle.std.specs.Result.{result_unwrap_or};
ghost use Rattle.primitives.specs.Numbers.{number_at};
ghost use Rattle.cursor.specs.Reading.{rest};
ghost use Rattle.text_hex.specs.Hex.{hex_means, answered, filled};
ghost use Rattle.text_print.specs.Print.{capitals};
ghost use Rattle.text_print.specs.Lines.{Puts};
ghost use Rattle.replay_base.specs.Base.{said, little_of, refused_texts, double_text};

use codec::{Error, Refusal};
use primitives::Primitive;
use text_print::Line;

// The bytes of a HEX, at the start of a lent buffer; none where a word is no HEX or too long.
// Kept: the buffer and a length, as the clauses `buf_after` and `held` have it.
#[tactic(auto, using(crate::specs::BaseLaws::fits, crate::specs::BaseLaws::held))]
pub fn bytes(word: &[u8], buf: &mut [u8]) -> usize
    ensures value { result ≡ result_unwrap_or (answered (hex_means word.now) (length buf.old)) 0 }
    ensures buf_after { buf.new ≡ filled (hex_means word.now) buf.old }
    ensures upper_bound { result ≤ length buf.old }
    ensures held { take result buf.new ≡ said (length buf.old) word.now }
{
    text_hex::read_hex(word, buf).unwrap_or(0)
}

// A number in hexadecimal digits, its four bytes with the least significant first.
#[tactic(auto, using(crate::specs::BaseLaws::turned_round))]
pub fn little(word: &[u8]) -> [u8; 4]
    ensures { result ≡ little_of word.now }
{
    let mut b = [0u8; 4];
    let n = bytes(word, &mut b);
    b[..n].reverse();
    b
}

// The first character of a word, 0 where there is none, and the characters behind it.
pub fn letter(word: &[u8]) -> u8
    ensures { result ≡ number_at 1 0 word.now }
{
    u8::at(word, 0)
}

pub fn tail(word: &[u8]) -> &[u8]
    ensures { result.now ≡ rest 1 word.now }
{
    cursor::remaining(1, word)
}

// `!1` or `!2`, behind a text.
#[tactic(auto, unfolding(text_print::specs::Lines::behind, text_print::specs::Lines::holding))]
pub fn refused(line: &mut Line<'_>, name: &[u8], e: Error)
    ensures { Puts (refused_texts name.now e) line.old line.new }
{
    line.text(name);
    text_put::count(line, b"!", u64::from(u8::from(Refusal::from(e))));
}

// A number of a packet as hexadecimal digits, two for each of its bytes.
pub trait Digits: Primitive {
    ghost digits: { Self → List (List ℕ) };

    fn digits(self, line: &mut Line<'_>)
        ensures { Puts (digits self) line.old line.new };
}

impl Digits for u8 {
    ghost digits = { λ v. capitals (v ∷ []) ∷ [] };

    fn digits(self, line: &mut Line<'_>) {
        line.hex2(self);
    }
}

impl Digits for u16 {
    ghost digits = { λ v. capitals (v / 256 ∷ v % 256 ∷ []) ∷ [] };

    fn digits(self, line: &mut Line<'_>) {
        line.hex4(self);
    }
}

impl Digits for u32 {
    ghost digits = { double_text };

    #[tactic(auto, unfolding(text_print::specs::Lines::behind, text_print::specs::Lines::holding))]
    fn digits(self, line: &mut Line<'_>) {
        line.hex4((self / 65536) as u16);
        line.hex4((self % 65536) as u16);
    }
}
