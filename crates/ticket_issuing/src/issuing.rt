ghost use Rattle.std.specs.Prelude.{◌≡◌, ◌≤◌, ◌<◌, length};
ghost use Rattle.ha_base.specs.declared.limits.TheConstants.{NUMBER_END};
ghost use Rattle.ike_sas.specs.TicketMessages.{IsShortTicket};
ghost use Rattle.ticket_issuing.specs.Issuing.{Issues, configuration_for};
ghost use Rattle.tickets.specs.declared.form.TheConstants.{LONGEST_TICKET};
ghost use Rattle.turn_rules.specs.MemberTickets.{SealsTicket, content_of};

use aes_gcm::Key;
use events::Seal;
use ha_base::{Memory, Moment, Octets};
use ike_sas::TicketAnswer;
use keeper_book::Record;
use spend_once::Number;
use std::alloc::Global;
use std::marker::Model;
use tickets::{Content, LONGEST_TICKET, issue, spell_content};

/// Room for a ticket, and for the plaintext that is noted beside it.
#[derive(Drop)]
pub struct TicketRoom {
    plain: Octets,
    sealed: Octets,
}

impl Model for TicketRoom {
    ghost use Rattle.ticket_issuing.specs.Issuing.{AreTicketRooms};

    ghost Value = { Unit {0} };

    ghost view = { λ room. tt };

    ghost invariant = { λ room. AreTicketRooms room.plain room.sealed };
}

impl TicketRoom {
    /// Makes the room. An error is want of memory.
    pub fn new(alloc: Global) -> Result<TicketRoom, Memory> {
        Ok(TicketRoom {
            plain: Octets::with_room(alloc, LONGEST_TICKET)?,
            sealed: Octets::with_room(alloc, LONGEST_TICKET)?,
        })
    }
}

/// Seals a content in the ticket of a number, which is spent. No memory is taken.
pub fn issue_ticket(room: TicketRoom, key: &Key, number: Number, content: &Content) -> Seal
    requires named { number.name ≡ key.now.name }
    ensures sealed { SealsTicket key.now number.value content.now result }
    ensures short { length result.sealed.octets ≤ LONGEST_TICKET }
{
    let TicketRoom {
        mut plain,
        mut sealed,
    } = room;
    spell_content(content, &mut plain);
    let name = number.name();
    let iv = number.value();
    issue(key, number, content, &mut sealed);
    Seal {
        name,
        iv,
        plain,
        sealed,
    }
}

/// What a ticket carries that is issued in an association at a moment, and is taken for so many
/// seconds.
fn content_of(lifetime: u32, now: Moment, sa: &Record) -> Content
    requires moment { now.0 < NUMBER_END }
    ensures { result ≡ content_of (configuration_for lifetime) now sa.now }
{
    Content {
        spii: sa.spii,
        spir: sa.spir,
        sk_d: sa.keys.sk_d,
        size: sa.size,
        issued: now.0,
        expiry: now.0 + lifetime as u64,
        identity: sa.identity,
    }
}

/// Issues the ticket of a number in an association at a moment. The number is spent, and no memory
/// is taken.
pub(crate) fn issue_in(
    room: TicketRoom,
    key: &Key,
    lifetime: u32,
    number: Number,
    now: Moment,
    sa: &Record,
) -> TicketAnswer
    requires moment { now.0 < NUMBER_END }
    requires named { number.name ≡ key.now.name }
    ensures issues { Issues key.now lifetime now sa.now number.value result }
    ensures short { IsShortTicket result }
{
    let content = content_of(lifetime, now, sa);
    TicketAnswer::Issued {
        lifetime,
        seal: issue_ticket(room, key, number, &content),
    }
}
