// types/primitives.rs: u8, u16 and u32, read from and written to the start of a slice, little-endian.
//
// A port of src/types/primitives.rs of trouble-host 0.8.0, which was changed: see NOTICE.
#![tactic(auto)]

ghost use Rattle.std.specs.Prelude.{◌≡◌, ℕ, Ok, Err, refl};
ghost use Rattle.codec.specs.Buffer.{laid, written};
ghost use Rattle.codec.specs.declared.Error.TheVariants.{InvalidValue};
ghost use Rattle.primitives.specs.Numbers.{bytes_of, number_at, reading};

use codec::Error;

// What codec.rs has as FixedSize, Encode and Decode, for the integers of packets. A value is known by its
// number: `number` of it, and `of` that number it is.
pub trait Primitive: Copy {
    ghost SIZE: { ℕ };

    ghost of: { ℕ → Self };

    ghost number: { Self → ℕ };

    const SIZE: usize;

    // The value in the bytes from a place of a packet on. For readers that have compared the length already:
    // what lies past the end counts as nothing.
    fn at(src: &[u8], at: usize) -> Self
        ensures { result ≡ of (number_at SIZE at src.now) };

    // The value's bytes at the start of a lent buffer, and how many there are.
    fn encode(self, dest: &mut [u8]) -> Result<usize, Error>
        ensures value { result ≡ written (bytes_of SIZE (number self)) dest.old }
        ensures dest_after { dest.new ≡ laid (bytes_of SIZE (number self)) dest.old };

    // The value at the start of some bytes.
    fn decode(src: &[u8]) -> Result<Self, Error>
        ensures { result ≡ reading SIZE (λ n. Ok (of n)) (Err InvalidValue) src.now }
    {
        if src.len() < Self::SIZE {
            return Err(Error::InvalidValue);
        }
        Ok(Self::at(src, 0))
    }

    ghost itself: { (n : ℕ) → number (of n) ≡ n };
}

impl Primitive for u8 {
    ghost SIZE = { 1 };

    ghost of = { λ n. n };

    ghost number = { λ v. v };

    ghost itself = { λ n. refl };

    const SIZE: usize = 1;

    fn at(src: &[u8], at: usize) -> u8 {
        if src.len() <= at { 0 } else { src[at] }
    }

    fn encode(self, dest: &mut [u8]) -> Result<usize, Error> {
        codec::write_bytes(&[self], dest)
    }
}

impl Primitive for u16 {
    ghost SIZE = { 2 };

    ghost of = { λ n. n };

    ghost number = { λ v. v };

    ghost itself = { λ n. refl };

    const SIZE: usize = 2;

    fn at(src: &[u8], at: usize) -> u16 {
        if src.len() <= at {
            return 0;
        }
        u16::from_le_bytes([src[at], u8::at(src, at + 1)])
    }

    fn encode(self, dest: &mut [u8]) -> Result<usize, Error> {
        let [low, high] = self.to_le_bytes();
        codec::write_bytes(&[low, high], dest)
    }
}

impl Primitive for u32 {
    ghost SIZE = { 4 };

    ghost of = { λ n. n };

    ghost number = { λ v. v };

    ghost itself = { λ n. refl };

    const SIZE: usize = 4;

    // Kept: by halves, as the law `number_halves` has it; the edit halves_swapped is of them.
    fn at(src: &[u8], at: usize) -> u32 {
        if src.len() <= at {
            return 0;
        }
        u32::from(u16::at(src, at)) + 65536 * u32::from(u16::at(src, at + 2))
    }

    fn encode(self, dest: &mut [u8]) -> Result<usize, Error> {
        let [a, b, c, d] = self.to_le_bytes();
        codec::write_bytes(&[a, b, c, d], dest)
    }
}
