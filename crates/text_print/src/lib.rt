// A line that is built in a lent buffer: each method puts a text behind what stands there. Where the text
// does not fit, the line stays as it was, and nothing more fits.
#![tactic(auto)]

ghost use Rattle.std.specs.Prelude.{◌+◌, ◌/◌, ◌%◌, ◌≤◌, ◌<◌, ◌≡◌, [], ◌∷◌, length};
ghost use Rattle.codec.specs.Buffer.{over_at, laid_at};
ghost use Rattle.text_print.specs.Print.{placed, two, capitals, hex_text, usual_text, type_text};
ghost use Rattle.text_print.specs.Lines.{Puts};
ghost use Rattle.text_decimal.specs.Decimal.{decimal_text};
ghost use Rattle.text_print.specs.Print.{glyph as Print·glyph};

use ble_uuid::Uuid;

// The lent buffer, and the position behind the texts in it.
// Kept: a position for "no room" too, usize::MAX, and no Option: a line is built of many texts, one behind
// the other, and one test at its end shows whether all of it stands there.
// Kept: no `write!` and no `Display`: `Puts` says each text, and that a line without room stays.
#[derive(Drop)]
pub struct Line<'a> {
    pub out: &'a mut [u8],
    pub pos: usize,
}

impl<'a> Line<'a> {
    pub fn new(out: &'a mut [u8]) -> Self
        ensures same_buffer { result.out.ghost_name ≡ out.entry.ghost_name }
        ensures pos_value { result.pos ≡ 0 }
        ensures out_value { result.out.now ≡ out.old }
    {
        Line { out, pos: 0 }
    }

    // A fixed text.
    #[tactic(auto, unfolding(crate::specs::Lines::behind, crate::specs::Lines::holding))]
    pub fn text(&mut self, bytes: &[u8])
        ensures { Puts (bytes.now ∷ []) self.old self.new }
    {
        let out = &mut *self.out;
        self.pos = lay(out, self.pos, bytes);
    }

    // The digits of bytes.
    #[tactic(auto, unfolding(crate::specs::Lines::behind, crate::specs::Lines::holding))]
    pub fn digits(&mut self, bytes: &[u8])
        ensures { Puts (capitals bytes.now ∷ []) self.old self.new }
    {
        let out = &mut *self.out;
        self.pos = lay_digits(out, self.pos, bytes);
    }

    // HEX: the digits of bytes, or `-` for none.
    pub fn hex(&mut self, bytes: &[u8])
        ensures { Puts (hex_text bytes.now ∷ []) self.old self.new }
    {
        if bytes.is_empty() {
            self.text(b"-");
        } else {
            self.digits(bytes);
        }
    }

    // A number of one byte, as 2 digits.
    // Kept: `hex2` and `hex4` are a line each, and `to_be_bytes` is no trait's: no plainer as one.
    pub fn hex2(&mut self, v: u8)
        ensures { Puts (capitals (v ∷ []) ∷ []) self.old self.new }
    {
        self.digits(&[v]);
    }

    // A number of two bytes, as 4 digits.
    pub fn hex4(&mut self, v: u16)
        ensures { Puts (capitals (v / 256 ∷ v % 256 ∷ []) ∷ []) self.old self.new }
    {
        self.digits(&v.to_be_bytes());
    }

    // A decimal number.
    pub fn decimal(&mut self, n: u64)
        ensures { Puts (decimal_text n ∷ []) self.old self.new }
    {
        let mut spelt = [0u8; 20];
        let k = text_decimal::spell(n, &mut spelt);
        self.text(&spelt[..k]);
    }

    // TYPE.
    pub fn type_text(&mut self, u: Uuid)
        ensures { Puts (type_text u ∷ []) self.old self.new }
    {
        match u {
            Uuid::Uuid16(mut bytes) => {
                bytes.reverse();
                self.digits(&bytes);
            }
            Uuid::Uuid32(mut bytes) => {
                bytes.reverse();
                self.digits(&bytes);
            }
            Uuid::Uuid128(mut bytes) => {
                bytes.reverse();
                self.text(&usual(bytes));
            }
        }
    }
}

// A text at a position, and the position behind it.
fn lay(out: &mut [u8], pos: usize, bytes: &[u8]) -> usize
    ensures value { result ≡ placed pos bytes.now out.old }
    ensures out_after { out.new ≡ laid_at pos bytes.now out.old }
{
    if out.len() < pos || out.len() - pos < bytes.len() {
        return usize::MAX;
    }
    out[pos..pos + bytes.len()].copy_from_slice(bytes);
    pos + bytes.len()
}

// Kept: `char::from_digit` gives an Option of a small letter: no plainer.
#[tactic(auto, using(crate::specs::PrintLaws::glyph_low, crate::specs::PrintLaws::glyph_high))]
fn glyph(d: u8) -> u8
    requires { d < 16 }
    ensures { result ≡ Print·glyph d }
{
    if d < 10 { b'0' + d } else { b'A' - 10 + d }
}

// The two digits of a byte.
#[tactic(auto, using(crate::specs::PrintLaws::two_stores))]
fn pair(out: &mut [u8], at: usize, b: u8)
    requires { at + 2 ≤ length out.old }
    ensures { out.new ≡ over_at at (two b) out.old }
{
    out[at] = glyph(b / 16);
    out[at + 1] = glyph(b % 16);
}

// The digits of bytes at a position, and the position behind them.
// Kept: by a place counted on: what is written through `iter_mut` is not known afterwards (tried).
#[tactic(auto, using(crate::specs::PrintLaws::full, crate::specs::PrintLaws::capitals_length, crate::specs::PrintLaws::nothing_printed, crate::specs::PrintLaws::printed_more, crate::specs::PrintLaws::all_printed))]
fn lay_digits(out: &mut [u8], pos: usize, bytes: &[u8]) -> usize
    ensures value { result ≡ placed pos (capitals bytes.now) out.old }
    ensures out_after { out.new ≡ laid_at pos (capitals bytes.now) out.old }
{
    if out.len() < pos || (out.len() - pos) / 2 < bytes.len() {
        return usize::MAX;
    }
    let mut at = pos;
    for b in bytes {
        pair(out, at, *b);
        at += 2;
    }
    at
}

// The usual form of a 128-bit UUID, from its bytes, the most significant first.
fn usual(big: [u8; 16]) -> [u8; 36]
    ensures { result ≡ usual_text big }
{
    let mut line = [b'-'; 36];
    lay_digits(&mut line, 0, &big[0..4]);
    lay_digits(&mut line, 9, &big[4..6]);
    lay_digits(&mut line, 14, &big[6..8]);
    lay_digits(&mut line, 19, &big[8..10]);
    lay_digits(&mut line, 24, &big[10..16]);
    line
}
