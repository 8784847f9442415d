//! What is delivered to an end.

ghost use Rattle.std.specs.Prelude.{◌≡◌, ◌<◌, ◌≤◌, length, is_some, true, IfOk, None, Some, Ok};
ghost use Rattle.turn_rules.specs.Datagrams.{altered, arrives, changed, cut, datagram_at, datagrams_of};
ghost use Rattle.turn_rules.specs.Fits.{refused_arrival};
ghost use Rattle.turn_rules.specs.Packets.{IsVerdictOf, LiesWithin};

use events::{EspVerdict, Event, Medium, Verdict, Which};
use ha_base::{Memory, Octets};
use std::alloc::Global;
use std::marker::Model;
use turn_trace::Trace;

/// What comes to an end: octets of its own, that it may change.
#[derive(Drop)]
pub(crate) struct Arrival {
    pub(crate) medium: Medium,
    pub(crate) octets: Vec<u8>,
}

impl Model for Arrival {
    ghost use Rattle.turn_rules.specs.Datagrams.{PlainDatagram};

    ghost Value = { PlainDatagram };

    ghost view = { λ a. record { medium = a.medium; octets = a.octets.items } };
}

fn copied(alloc: Global, medium: Medium, octets: &[u8]) -> Result<Arrival, Memory>
    ensures { IfOk result (λ arrival. arrival ≡ record { medium = medium; octets = octets.now }) }
{
    match Vec::from_slice(alloc, octets) {
        Ok(octets) => Ok(Arrival { medium, octets }),
        Err(_) => Err(Memory),
    }
}

// the datagram that is meant, as it was given
fn given(alloc: Global, trace: &Trace, which: Which) -> Result<Arrival, Memory>
    requires { is_some (datagram_at which (datagrams_of trace.now.past)) ≡ true }
    ensures { IfOk result (λ given. datagram_at which (datagrams_of trace.now.past) ≡ Some given) }
{
    match trace.datagram(which) {
        Some(datagram) => copied(alloc, datagram.medium, datagram.octets.as_slice()),
        None => unreachable!(),
    }
}

impl Arrival {
    // the octet at this place is changed by an exclusive or
    fn altered(mut self, place: usize, octet: u8) -> Arrival
        requires { place < length self.octets }
        ensures { changed (Some self) (altered place octet) ≡ Ok result }
    {
        self.octets[place] ^= octet;
        self
    }

    // the first octets alone
    fn cut(mut self, keep: usize) -> Arrival
        requires { keep ≤ length self.octets }
        ensures { changed (Some self) (cut keep) ≡ Ok result }
    {
        self.octets.truncate(keep);
        self
    }
}

/// What an event delivers that the run does not refuse. An error is want of memory.
pub(crate) fn arriving(alloc: Global, trace: &Trace, event: &Event) -> Result<Arrival, Memory>
    requires { refused_arrival (arrives (datagrams_of trace.now.past) event.now) ≡ None }
    ensures { IfOk result
        (λ arrival. arrives (datagrams_of trace.now.past) event.now ≡ Ok arrival) }
{
    match event {
        Event::Deliver { which, .. } => return given(alloc, trace, *which),
        Event::Alter {
            which,
            place,
            octet,
            ..
        } => {
            let arrival = given(alloc, trace, *which)?;
            return Ok(arrival.altered(*place as usize, *octet));
        }
        Event::Cut { which, keep, .. } => {
            let arrival = given(alloc, trace, *which)?;
            return Ok(arrival.cut(*keep as usize));
        }
        Event::Inject { medium, octets, .. } => return copied(alloc, *medium, octets.as_slice()),
        _ => unreachable!(),
    }
}

/// The verdict that an answer to a packet is. The payload takes the place of the packet.
pub(crate) fn verdict_of(answer: EspVerdict, mut octets: Vec<u8>) -> Verdict
    requires { LiesWithin answer (length octets.items) }
    ensures { IsVerdictOf answer octets.items result }
{
    match answer {
        EspVerdict::Accepted { counter, packet } => {
            octets.rotate_left(packet.start);
            octets.truncate(packet.length);
            Verdict::Accepted {
                counter,
                number: packet.number,
                next_header: packet.next_header,
                payload: Octets::of(octets),
            }
        }
        EspVerdict::Dropped(why) => Verdict::DroppedEsp(why),
        EspVerdict::Refused(why) => Verdict::Refused(why),
    }
}
