// Document 01, "Table, link and the till's own stores": a link as it is at first, and when a link is sound.
#![tactic(auto)]

ghost use Rattle.std.specs.Prelude.{◌≡◌};
ghost use Rattle.answers.specs.Replies.{mtu_ok, link_ok};
ghost use Rattle.answers.specs.Serve.{first_link};

use answers::Link;

// A link before any exchange: MTU 23, encrypted or not.
pub fn first_link(encrypted: bool) -> Link
    ensures { result ≡ first_link encrypted }
{
    Link {
        mtu: 23,
        exchanged: false,
        encrypted,
    }
}

// Whether an MTU is legal: 23 to 247.
#[tactic(auto, unfolding(answers::specs::Replies::mtu_ok))]
pub fn legal_mtu(mtu: u16) -> bool
    ensures { result ≡ mtu_ok mtu }
{
    23 <= mtu && mtu <= 247
}

// Whether a link is sound: its MTU is legal.
#[tactic(auto, unfolding(answers::specs::Replies::link_ok))]
pub fn sound(link: Link) -> bool
    ensures { result ≡ link_ok link }
{
    legal_mtu(link.mtu)
}
