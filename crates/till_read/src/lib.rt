// A line of `till` as a command, or what is wrong with it. Where a line has several faults, the first is
// told: an unknown command, then the number of words, then the words from left to right.
#![tactic(auto)]

ghost use Rattle.std.specs.Prelude.{◌≡◌, length};
ghost use Rattle.text_hex.specs.Hex.{hex_means, filled};
ghost use Rattle.text_lines.specs.Words.{word_of};
ghost use Rattle.till_read.specs.Commands.{fault_of, name_of, last_of, behind_of, counted, number_at, len_at, handle_at, kind_at, marked, hex_at};
ghost use Rattle.till_read.specs.Commands.{link_of, room_of, addition_of, store_of, words_of, words_bytes, read_of, read_bytes};

use attributes::{Addition, Room};
use ble_uuid::Uuid;
use text_hex::HexError;

#[derive(Clone, Copy, Debug, PartialEq, Eq)]
pub enum Fault {
    NotHex,
    UnknownCommand,
    MissingWord,
    TooManyWords,
    NotNumber,
    NotType,
    NotMarks,
    TooLong,
}

impl From<HexError> for Fault {
    ghost from_gives = { λ e f. f ≡ fault_of e };

    fn from(e: HexError) -> Fault {
        match e {
            HexError::NotHex => Fault::NotHex,
            HexError::TooLong => Fault::TooLong,
        }
    }
}

// A command with its words read. Where it has a HEX, that stands at the start of the lent bytes, `len`
// bytes long.
// Kept: a length and no slice of the lent bytes: of bytes that are lent on the clause `bytes_after` could say
// nothing (what may not change).
#[derive(Clone, Copy)]
pub enum Command {
    Fixed {
        len: usize,
    },
    Live {
        len: usize,
    },
    NewTable,
    Add(Addition),
    Store {
        handle: u16,
        len: usize,
    },
    Lookup {
        handle: u16,
    },
    NewLink {
        mtu: u16,
        encrypted: bool,
        exchanged: bool,
    },
    Output {
        len: usize,
    },
    Send {
        len: usize,
    },
    Show,
}

// What the first word asks for.
#[derive(Clone, Copy)]
enum Name {
    Fixed,
    Live,
    Table,
    Add,
    Store,
    Lookup,
    Link,
    Output,
    Send,
    Show,
}

impl Name {
    // The number of the last word that a command must have, its name being 0. How many stand behind
    // `add`, from four to six, its fourth says.
    fn last(self) -> usize
        ensures { result ≡ last_of self }
    {
        match self {
            Name::Table | Name::Show => 0,
            Name::Fixed | Name::Live | Name::Lookup | Name::Output | Name::Send => 1,
            Name::Store | Name::Link => 2,
            Name::Add => 4,
        }
    }

    // The number of the first word that is one too many.
    fn behind(self) -> usize
        ensures { result ≡ behind_of self }
    {
        match self {
            Name::Table | Name::Show => 1,
            Name::Fixed | Name::Live | Name::Lookup | Name::Output | Name::Send => 2,
            Name::Store | Name::Link => 3,
            Name::Add => 7,
        }
    }
}

#[tactic(auto, unfolding(crate::specs::Commands::name_of), using(crate::proofs::Comparing::compared))]
fn name_of(word: &[u8]) -> Option<Name>
    ensures { result ≡ name_of word.now }
{
    match word {
        b"fixed" => Some(Name::Fixed),
        b"live" => Some(Name::Live),
        b"table" => Some(Name::Table),
        b"add" => Some(Name::Add),
        b"store" => Some(Name::Store),
        b"lookup" => Some(Name::Lookup),
        b"link" => Some(Name::Link),
        b"output" => Some(Name::Output),
        b"send" => Some(Name::Send),
        b"show" => Some(Name::Show),
        _ => None,
    }
}

// Whether a line has the word with the number `last`, and none with the number `behind`.
#[tactic(auto, unfolding(crate::specs::Commands::counted))]
fn counted(line: &[u8], last: usize, behind: usize) -> Result<(), Fault>
    ensures { result ≡ counted line.now last behind }
{
    if text_lines::word(line, last).is_empty() {
        return Err(Fault::MissingWord);
    }
    if !text_lines::word(line, behind).is_empty() {
        return Err(Fault::TooManyWords);
    }
    Ok(())
}

// A word as a number; as a number of up to `most`; as a handle; as a type.
fn number(line: &[u8], k: usize) -> Result<u64, Fault>
    ensures { result ≡ number_at k line.now }
{
    text_hex::read_decimal(text_lines::word(line, k)).ok_or(Fault::NotNumber)
}

fn len(line: &[u8], most: u64) -> Result<usize, Fault>
    ensures { result ≡ len_at most line.now }
{
    let n = number(line, 1)?;
    if most < n {
        return Err(Fault::TooLong);
    }
    Ok(n as usize)
}

fn handle(line: &[u8]) -> Result<u16, Fault>
    ensures { result ≡ handle_at line.now }
{
    text_hex::read_handle(text_lines::word(line, 1)).ok_or(Fault::NotHex)
}

fn kind(line: &[u8]) -> Result<Uuid, Fault>
    ensures { result ≡ kind_at line.now }
{
    text_hex::read_type(text_lines::word(line, 2)).map_err(|_| Fault::NotType)
}

// Whether a word is MARKS of these letters.
fn marked(letters: &[u8], word: &[u8]) -> Result<(), Fault>
    ensures { result ≡ marked letters.now word.now }
{
    if !text_lines::marks(letters, word) {
        return Err(Fault::NotMarks);
    }
    Ok(())
}

// How many bytes the HEX with the number k has, up to `most`; they stand at the start of the lent bytes.
fn hex(line: &[u8], k: usize, most: usize, bytes: &mut [u8]) -> Result<usize, Fault>
    ensures value { result ≡ hex_at k most line.now (length bytes.old) }
    ensures bytes_after { bytes.new ≡ filled (hex_means (word_of k line.now)) bytes.old }
{
    let n = text_hex::read_hex(text_lines::word(line, k), bytes)?;
    if most < n {
        return Err(Fault::TooLong);
    }
    Ok(n)
}

// `MTU MARKS` behind `link`. A number that no MTU is, is no number.
fn link(line: &[u8]) -> Result<Command, Fault>
    ensures { result ≡ link_of line.now }
{
    let n = number(line, 1)?;
    let marks = text_lines::word(line, 2);
    marked(b"ex", marks)?;
    Ok(Command::NewLink {
        mtu: u16::try_from(n).map_err(|_| Fault::NotNumber)?,
        encrypted: text_lines::has(marks, b'e'),
        exchanged: text_lines::has(marks, b'x'),
    })
}

// `fixed AT LEN` or `live CAPACITY` behind `add HANDLE TYPE MARKS`.
#[tactic(auto, using(crate::proofs::Comparing::compared))]
fn room(line: &[u8]) -> Result<Room, Fault>
    ensures { result ≡ room_of line.now }
{
    match text_lines::word(line, 4) {
        b"fixed" => {
            counted(line, 6, 7)?;
            Ok(Room::Fixed {
                at: number(line, 5)? as usize,
                len: number(line, 6)? as usize,
            })
        }
        b"live" => {
            counted(line, 5, 6)?;
            Ok(Room::Live {
                capacity: number(line, 5)? as usize,
            })
        }
        _ => Err(Fault::UnknownCommand),
    }
}

fn addition(line: &[u8]) -> Result<Addition, Fault>
    ensures { result ≡ addition_of line.now }
{
    let handle = handle(line)?;
    let kind = kind(line)?;
    let marks = text_lines::word(line, 3);
    marked(b"rwRW", marks)?;
    Ok(Addition {
        handle,
        kind,
        readable: text_lines::has(marks, b'r'),
        writable: text_lines::has(marks, b'w'),
        read_encrypted: text_lines::has(marks, b'R'),
        write_encrypted: text_lines::has(marks, b'W'),
        room: room(line)?,
    })
}

// `HANDLE HEX` behind `store`. The HEX is read into the lent bytes even where the handle is none.
fn store(line: &[u8], bytes: &mut [u8]) -> Result<Command, Fault>
    ensures value { result ≡ store_of line.now (length bytes.old) }
    ensures bytes_after { bytes.new ≡ filled (hex_means (word_of 2 line.now)) bytes.old }
{
    let len = hex(line, 2, 8192, bytes);
    Ok(Command::Store {
        handle: handle(line)?,
        len: len?,
    })
}

// A line of a name and as many words as its command takes.
#[tactic(auto, unfolding(crate::specs::Commands::words_of, crate::specs::Commands::words_bytes))]
fn words(name: Name, line: &[u8], bytes: &mut [u8]) -> Result<Command, Fault>
    ensures value { result ≡ words_of name line.now (length bytes.old) }
    ensures bytes_after { bytes.new ≡ words_bytes name line.now bytes.old }
{
    Ok(match name {
        Name::Fixed => Command::Fixed {
            len: hex(line, 1, 4096, bytes)?,
        },
        Name::Live => Command::Live {
            len: len(line, 40000)?,
        },
        Name::Table => Command::NewTable,
        Name::Add => Command::Add(addition(line)?),
        Name::Store => store(line, bytes)?,
        Name::Lookup => Command::Lookup {
            handle: handle(line)?,
        },
        Name::Link => link(line)?,
        Name::Output => Command::Output {
            len: len(line, 1024)?,
        },
        Name::Send => Command::Send {
            len: hex(line, 1, 8192, bytes)?,
        },
        Name::Show => Command::Show,
    })
}

// The command of a line that is neither blank nor a comment.
#[tactic(auto, unfolding(crate::specs::Commands::read_of, crate::specs::Commands::read_bytes))]
pub fn read(line: &[u8], bytes: &mut [u8]) -> Result<Command, Fault>
    ensures value { result ≡ read_of line.now (length bytes.old) }
    ensures bytes_after { bytes.new ≡ read_bytes line.now bytes.old }
{
    let name = name_of(text_lines::word(line, 0)).ok_or(Fault::UnknownCommand)?;
    counted(line, name.last(), name.behind())?;
    words(name, line, bytes)
}
