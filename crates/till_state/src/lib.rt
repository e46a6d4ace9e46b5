// What `till` holds, and how its commands change it. The bytes of the two areas and of the output are
// lent; a till knows how many of them are in use. A call on the table that is refused leaves the till as it
// was: it went in by value, and the caller has its own still.
#![tactic(auto)]

ghost use Rattle.std.specs.Prelude.{◌≡◌, length, replicate};
ghost use Rattle.attributes.specs.Additions.{new_table, added};
ghost use Rattle.attributes.specs.Stores.{stored};
ghost use Rattle.codec.specs.Buffer.{laid};
ghost use Rattle.text_put.specs.Put.{first_of};
ghost use Rattle.till_state.specs.Tills.{first_till, with_table, with_link, with_fixed, with_live, with_output, tabled, in_use, live_after};

use answers::Link;
use attributes::{Addition, Table};
use codec::Refusal;

#[derive(Clone, Copy)]
pub struct Till {
    pub table: Table,
    pub link: Link,
    pub fixed: usize,
    pub live: usize,
    pub output: usize,
}

// No bytes, a new table for none, a link at its first MTU, and an output of 247 bytes.
#[tactic(auto, unfolding(attributes::specs::Additions::new_table))]
pub fn start() -> Till
    ensures { result ≡ first_till }
{
    Till {
        table: table::new(b"", b"").unwrap(),
        link: serve_link::first_link(false),
        fixed: 0,
        live: 0,
        output: 247,
    }
}

// Other fixed bytes; the table stays.
pub fn set_fixed(till: Till, bytes: &[u8], fixed: &mut [u8]) -> Till
    ensures value { result ≡ with_fixed till (length bytes.now) }
    ensures fixed_after { fixed.new ≡ laid bytes.now fixed.old }
{
    let _ = codec::write_bytes(bytes, fixed);
    Till {
        fixed: bytes.len(),
        ..till
    }
}

// So many live bytes 00, up to 40,000; the table stays.
pub fn set_live(till: Till, len: usize, live: &mut [u8]) -> Till
    ensures value { result ≡ with_live till len }
    ensures live_after { live.new ≡ laid (first_of len (replicate 40000 0)) live.old }
{
    let zeros = [0u8; 40000];
    let _ = codec::write_bytes(text_put::first(&zeros, len), live);
    Till { live: len, ..till }
}

pub fn set_table(till: Till, table: Table) -> Till
    ensures { result ≡ with_table till table }
{
    Till { table, ..till }
}

pub fn set_link(till: Till, link: Link) -> Till
    ensures { result ≡ with_link till link }
{
    Till { link, ..till }
}

pub fn set_output(till: Till, len: usize) -> Till
    ensures { result ≡ with_output till len }
{
    Till {
        output: len,
        ..till
    }
}

// A new table for the areas.
pub fn new_table(till: Till, fixed: &[u8], live: &[u8]) -> Result<Till, Refusal>
    ensures { result ≡ tabled till (new_table (length fixed.now) (length live.now)) }
{
    Ok(set_table(till, table::new(fixed, live)?))
}

// An attribute more.
pub fn add(till: Till, addition: Addition, fixed: &[u8], live: &[u8]) -> Result<Till, Refusal>
    ensures { result ≡ tabled till (added till.table addition (length fixed.now) (length live.now)) }
{
    let table = table::add(till.table, addition, fixed, live)?;
    Ok(set_table(till, table))
}

// The till's own store, into the live bytes that are in use; those behind them stay.
pub fn store(
    till: Till,
    handle: u16,
    value: &[u8],
    fixed: &[u8],
    live: &mut [u8],
) -> Result<Till, Refusal>
    ensures value { result ≡ tabled till (stored till.table handle value.now fixed.now (in_use till.live live.old)) }
    ensures live_after { live.new ≡ live_after till handle value.now fixed.now live.old }
{
    let n = till.live.min(live.len());
    let table = table::store(till.table, handle, value, fixed, &mut live[..n])?;
    Ok(set_table(till, table))
}
