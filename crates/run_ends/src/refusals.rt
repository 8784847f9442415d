//! Why the run itself refuses an event, before any end sees it.

ghost use Rattle.std.specs.Prelude.{◌≡◌, [], None};
ghost use Rattle.turn_rules.specs.Datagrams.{datagram_at, datagrams_of};
ghost use Rattle.turn_rules.specs.Fits.{is_importable, is_of_datagrams, member_of, named_in};
ghost use Rattle.turn_rules.specs.Fits.{refused_absent, refused_besides, refused_where, run_refusal};
ghost use Rattle.run_ends.specs.Parties.{state_of};
ghost use Rattle.run_ends.specs.Refusals.{refused_short};

use crate::parties::Parties;
use events::{Event, Party, Refusal, Which};
use ha_base::{LEAST_ESP_SPI, LEAST_SPI, MAX_DATAGRAMS};
use keeper_book::Record;
use turn_trace::Trace;

/// The most members of a run.
const MAX_MEMBERS: usize = 64;

fn refused_where(test: bool, why: Refusal) -> Option<Refusal>
    ensures { result ≡ refused_where test why None }
{
    if test {
        return Some(why);
    }
    None
}

fn member_of(party: Party) -> Option<u64>
    ensures { result ≡ member_of party }
{
    match party {
        Party::Peer => None,
        Party::Member(member) => Some(member),
    }
}

/// The member that an event names, if it names one.
pub fn named_in(event: &Event) -> Option<u64>
    ensures { result ≡ named_in event.now }
{
    match event {
        Event::Own { member, .. } => Some(*member),
        Event::Draw { member, .. } => Some(*member),
        Event::Crash { member } => Some(*member),
        Event::Sync { member, .. } => Some(*member),
        Event::Send { from, .. } => member_of(*from),
        Event::Ask { from, .. } => member_of(*from),
        Event::Again { from, .. } => member_of(*from),
        Event::Deliver { to, .. } => member_of(*to),
        Event::Alter { to, .. } => member_of(*to),
        Event::Cut { to, .. } => member_of(*to),
        Event::Inject { to, .. } => member_of(*to),
        _ => None,
    }
}

// an event that may give a datagram, or brings one that was given
fn is_of_datagrams(event: &Event) -> bool
    ensures { result ≡ is_of_datagrams event.now }
{
    match event {
        Event::Send { .. } | Event::Ask { .. } | Event::Again { .. } | Event::Sync { .. } => true,
        Event::Ticket { .. } => true,
        Event::Deliver { .. } | Event::Alter { .. } | Event::Cut { .. } => true,
        Event::Inject { .. } => true,
        _ => false,
    }
}

// the SPIs that a run may import; the smaller ones are for what the cluster draws itself
fn is_importable(sa: &Record) -> bool
    ensures { result ≡ is_importable sa.now }
{
    sa.spii >= LEAST_SPI
        && sa.spir >= LEAST_SPI
        && sa.spi_in >= LEAST_ESP_SPI
        && sa.spi_out >= LEAST_ESP_SPI
        && sa.starts.esp_out > 0
        && sa.starts.esp_in > 0
        && sa.starts.iv > 0
}

// there is no such datagram, or it has fewer octets
fn lacks(trace: &Trace, which: Which, octets: usize) -> Option<Refusal>
    ensures { result ≡ refused_short octets (datagram_at which (datagrams_of trace.now.past)) }
{
    match trace.datagram(which) {
        Some(datagram) => {
            let there = datagram.octets.as_slice();
            refused_where(there.len() < octets, Refusal::NoOctet)
        }
        None => Some(Refusal::NoDatagram),
    }
}

impl Parties {
    /// Why the run itself refuses an event, where these turns were before, if it does.
    pub(crate) fn refusal(&self, trace: &Trace, event: &Event) -> Option<Refusal>
        ensures { result ≡ run_refusal (state_of trace.now.past self.now) event.now }
    {
        if is_of_datagrams(event) && trace.datagrams() >= MAX_DATAGRAMS {
            return Some(Refusal::DatagramsFull);
        }
        match self.absence(named_in(event)) {
            Some(why) => Some(why),
            None => self.refused_besides(trace, event),
        }
    }

    // a member that never joined, or ended, does nothing
    fn absence(&self, member: Option<u64>) -> Option<Refusal>
        ensures { result ≡ refused_absent (state_of [] self.now) member None }
    {
        let member = member?;
        if !self.has_member(member) {
            return Some(Refusal::NoMember);
        }
        let place = self.place_of(member);
        refused_where(self.members[place].is_none(), Refusal::Down)
    }

    // what some events ask besides
    fn refused_besides(&self, trace: &Trace, event: &Event) -> Option<Refusal>
        ensures { result ≡ refused_besides (state_of trace.now.past self.now) event.now }
    {
        match event {
            Event::Cluster { .. } => refused_where(trace.turns() > 0, Refusal::Late),
            Event::Import { sa } => refused_where(!is_importable(sa), Refusal::SpiRange),
            Event::Join { .. } => {
                let joined = self.members.len();
                let full = joined >= MAX_MEMBERS || joined >= self.boxes;
                refused_where(full, Refusal::NoRoom(joined as u32))
            }
            Event::Deliver { which, .. } => lacks(trace, *which, 0),
            Event::Alter { which, place, .. } => lacks(trace, *which, *place as usize + 1),
            Event::Cut { which, keep, .. } => lacks(trace, *which, *keep as usize),
            _ => None,
        }
    }
}
