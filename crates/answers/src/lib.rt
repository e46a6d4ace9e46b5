// The link's record, and what serving a packet answers. The book of the responder is in specs/, its
// theorems in proofs/.
#![tactic(auto)]

use attributes::Table;
use codec::Refusal;

// A link: its MTU, whether the exchange was made, and whether it is encrypted.
#[derive(Clone, Copy)]
pub struct Link {
    pub mtu: u16,
    pub exchanged: bool,
    pub encrypted: bool,
}

// What a packet is answered from, lent together: the table, the link, and the fixed and the live bytes.
#[derive(Clone, Copy)]
pub struct Lent<'a> {
    pub table: &'a Table,
    pub link: Link,
    pub fixed: &'a [u8],
    pub live: &'a [u8],
}

#[derive(Clone, Copy)]
pub enum Answer {
    // An answer of this many bytes stands at the start of the output.
    Sent(usize),
    Silent,
    Refused(Refusal),
}

// The answer, with the table and the link as they are after it.
#[derive(Clone, Copy)]
pub struct Served {
    pub answer: Answer,
    pub table: Table,
    pub link: Link,
}
