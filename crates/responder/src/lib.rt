// Document 01, "How a packet is served": the responder. A packet is answered, and what it asks for takes
// place, here and nowhere else.
#![tactic(auto)]

ghost use Rattle.std.specs.Prelude.{◌≡◌, length};
ghost use Rattle.answers.specs.Contract.{state_of, turn_of, out_after, served_as};
ghost use Rattle.serve_change.specs.Changes.{meant_by};
ghost use Rattle.responder.specs.Change.{carried_out, served_by};

use answers::{Lent, Link, Served};
use attributes::Table;
use serve_change::Pending;
use serve_packet::Replied;

// One packet into the output. The refusals 11, 12, 1 and 2, in this order, change nothing; an answer
// stands at the start of the output, and the bytes behind it stay.
pub fn serve(
    table: Table,
    link: Link,
    fixed: &[u8],
    live: &mut [u8],
    packet: &[u8],
    out: &mut [u8],
) -> Served
    ensures value { result
        ≡ served_as (turn_of table link fixed.now live.old packet.now (length out.old)) }
    ensures live_after { live.new
        ≡ (turn_of table link fixed.now live.old packet.now (length out.old)).state.live }
    ensures out_after { out.new
        ≡ out_after (turn_of table link fixed.now live.old packet.now (length out.old)).heard
        out.old }
{
    let lent = Lent {
        table: &table,
        link,
        fixed,
        live,
    };
    let said = serve_packet::speak(lent, packet, out);
    change(said, table, link, fixed, live, packet)
}

// What a packet asks for takes place: a store, the end of an exchange, or nothing. A refused store leaves
// the table as it was.
// Kept: no `Lent` here, since the live bytes are lent for change: no plainer.
fn change(
    said: Replied,
    table: Table,
    link: Link,
    fixed: &[u8],
    live: &mut [u8],
    packet: &[u8],
) -> Served
    ensures value { result
        ≡ served_by said.answer (carried_out (state_of table link fixed.now live.old) (meant_by packet.now said.effect)) }
    ensures live_after { live.new
        ≡ (carried_out (state_of table link fixed.now live.old) (meant_by packet.now said.effect)).live }
{
    let answer = said.answer;
    match said.effect {
        Pending::Nothing => Served {
            answer,
            table,
            link,
        },
        Pending::Agrees(mtu) => {
            let agreed = Link {
                mtu,
                exchanged: true,
                encrypted: link.encrypted,
            };
            Served {
                answer,
                table,
                link: agreed,
            }
        }
        Pending::Stores { handle, data } => {
            let value = table_records::part(packet, data.at, data.len);
            let next = table::store(table, handle, value, fixed, live).unwrap_or(table);
            Served {
                answer,
                table: next,
                link,
            }
        }
    }
}
