// codec.rs: the two errors. Beside them document 01's table of refusals, and what every call that writes
// bytes rests on.
//
// A port of src/codec.rs of trouble-host 0.8.0, which was changed: see NOTICE.
#![tactic(auto)]

ghost use Rattle.std.specs.Prelude.{◌≡◌};
ghost use Rattle.codec.specs.Buffer.{laid, written};
ghost use Rattle.codec.specs.Refusals.{refusal_number, name_of, refusal_of};

#[derive(Clone, Copy, Debug, PartialEq, Eq)]
pub enum Error {
    InsufficientSpace,
    InvalidValue,
}

// Document 01, "Refusal numbers", in its order.
#[derive(Clone, Copy, Debug, PartialEq, Eq)]
pub enum Refusal {
    InsufficientSpace,
    InvalidValue,
    TableFull,
    BadHandle,
    BadType,
    BadValue,
    NoRoom,
    UnknownHandle,
    NotStorable,
    TooLong,
    BadTable,
    BadLink,
}

// The row of the table that an error of the codec is: `?` makes it.
impl From<Error> for Refusal {
    ghost from_gives = { λ e r. r ≡ refusal_of e };

    fn from(e: Error) -> Refusal {
        match e {
            Error::InsufficientSpace => Refusal::InsufficientSpace,
            Error::InvalidValue => Refusal::InvalidValue,
        }
    }
}

impl From<Refusal> for u8 {
    ghost from_gives = { λ r n. n ≡ refusal_number r };

    fn from(r: Refusal) -> u8 {
        match r {
            Refusal::InsufficientSpace => 1,
            Refusal::InvalidValue => 2,
            Refusal::TableFull => 3,
            Refusal::BadHandle => 4,
            Refusal::BadType => 5,
            Refusal::BadValue => 6,
            Refusal::NoRoom => 7,
            Refusal::UnknownHandle => 8,
            Refusal::NotStorable => 9,
            Refusal::TooLong => 10,
            Refusal::BadTable => 11,
            Refusal::BadLink => 12,
        }
    }
}

impl Refusal {
    // Its name, as document 01's table has it.
    // Kept: no `Display`: `write_name` promises that a buffer without room stays.
    pub fn name(self) -> &'static [u8]
        ensures { result.now ≡ name_of self }
    {
        match self {
            Refusal::InsufficientSpace => b"InsufficientSpace",
            Refusal::InvalidValue => b"InvalidValue",
            Refusal::TableFull => b"TableFull",
            Refusal::BadHandle => b"BadHandle",
            Refusal::BadType => b"BadType",
            Refusal::BadValue => b"BadValue",
            Refusal::NoRoom => b"NoRoom",
            Refusal::UnknownHandle => b"UnknownHandle",
            Refusal::NotStorable => b"NotStorable",
            Refusal::TooLong => b"TooLong",
            Refusal::BadTable => b"BadTable",
            Refusal::BadLink => b"BadLink",
        }
    }
}

// Bytes at the start of a lent buffer, and how many; one that is too short stays as it was.
pub fn write_bytes(src: &[u8], dest: &mut [u8]) -> Result<usize, Error>
    ensures value { result ≡ written src.now dest.old }
    ensures dest_after { dest.new ≡ laid src.now dest.old }
{
    if dest.len() < src.len() {
        return Err(Error::InsufficientSpace);
    }
    dest[..src.len()].copy_from_slice(src);
    Ok(src.len())
}

// A refusal's name into a lent buffer.
pub fn write_name(r: Refusal, out: &mut [u8]) -> Result<usize, Error>
    ensures value { result ≡ written (name_of r) out.old }
    ensures out_after { out.new ≡ laid (name_of r) out.old }
{
    write_bytes(r.name(), out)
}
