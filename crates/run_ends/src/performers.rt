//! What an end does at an event that the run does not refuse.

ghost use Rattle.std.specs.Prelude.{◌≡◌, ◌<◌, not, Some, None, true, IfOk, OnErr};
ghost use Rattle.std.specs.List.{AllByRecursion};
ghost use Rattle.cluster_member.specs.Members.{AsksInVain};
ghost use Rattle.cluster_peer.specs.Slots.{IsPeerAfter};
ghost use Rattle.events.specs.Events.{plain};
ghost use Rattle.events.specs.Ranges.{Fits};
ghost use Rattle.events.specs.declared.verdict.Refusal.TheVariants as refusal;
ghost use Rattle.ha_base.specs.declared.outside.Moment.{Moment};
ghost use Rattle.ha_base.specs.declared.limits.TheConstants.{NUMBER_END};
ghost use Rattle.ha_base.specs.declared.services.TheConstants.{MOST_REQUESTS};
ghost use Rattle.keeper_book.specs.Asks.{AsksFor};
ghost use Rattle.turn_rules.specs.Datagrams.{datagrams_of, delivery_of};
ghost use Rattle.turn_rules.specs.Draws.{EntersRecord};
ghost use Rattle.turn_rules.specs.Fits.{Quietly, Refusing, named_in, run_refusal};
ghost use Rattle.turn_rules.specs.Services.{Serves};
ghost use Rattle.turn_rules.specs.Slots.{admits};
ghost use Rattle.turn_rules.specs.Tasks as task;
ghost use Rattle.run_ends.specs.Acting.{Arrives, MemberActs, PeerActs, asks_an_end};
ghost use Rattle.run_ends.specs.Parties.{Acts, AreInPlace, IsShort, state_of};

use crate::arrivals::arriving;
use crate::deliveries::{member_takes, peer_takes};
use crate::parties::{Parties, refused};
use crate::refusals::named_in;
use cluster_member::{Member, of_import};
use cluster_peer::Peer;
use events::{Event, Refusal, Step, Verdict};
use ha_base::{Memory, Moment, Service};
use keeper_book::{Keeper, Record};
use std::alloc::Global;
use turn_trace::Trace;

impl Parties {
    /// What the member does that an event names, or the peer, where the event asks an end for
    /// something.
    pub(crate) fn perform<K: Keeper>(
        &mut self,
        keeper: &mut K,
        service: &mut Box<dyn Service>,
        now: Moment,
        trace: &Trace,
        event: &Event,
    ) -> Result<Step, Memory>
        requires asks { asks_an_end event.now ≡ true }
        requires unrefused { run_refusal (state_of trace.now.past self.old) event.now ≡ None }
        requires moment { now.0 < NUMBER_END }
        requires fits { Fits (plain event.now) }
        requires room { count service.old < MOST_REQUESTS }
        requires short { AllByRecursion IsShort (datagrams_of trace.now.past) }
        requires in_place { AreInPlace self.old }
        ensures acts { IfOk result (λ step. AsksFor K.Keeper keeper.old keeper.new (λ calls.
            Acts trace.now.past self.old now event.now calls step self.new)) }
        ensures serves { IfOk result
            (λ step. Serves count last gives service.old step.served service.new) }
        ensures err { OnErr result (self.new ≡ self.old) }
        ensures unserved { OnErr result (service.new ≡ service.old) }
        ensures in_vain { OnErr result (AsksInVain K.Keeper keeper.old keeper.new) }
    {
        let Some(number) = named_in(event) else {
            return peer_performs(
                self.alloc,
                &mut self.peer,
                keeper,
                service,
                now,
                trace,
                event,
            );
        };
        let place = self.place_of(number);
        match &mut self.members[place] {
            Some(member) => {
                return member_performs(self.alloc, member, keeper, service, now, trace, event);
            }
            None => unreachable!(),
        }
    }
}

// what a member that is up does at an event of its own, by what it holds
fn member_performs<K: Keeper>(
    alloc: Global,
    member: &mut Member,
    keeper: &mut K,
    service: &mut Box<dyn Service>,
    now: Moment,
    trace: &Trace,
    event: &Event,
) -> Result<Step, Memory>
    requires asks { asks_an_end event.now ≡ true }
    requires named { named_in event.now ≡ Some member.old.number }
    requires arrives { Arrives (datagrams_of trace.now.past) (delivery_of event.now) }
    requires moment { now.0 < NUMBER_END }
    requires fits { Fits (plain event.now) }
    requires room { count service.old < MOST_REQUESTS }
    requires short { AllByRecursion IsShort (datagrams_of trace.now.past) }
    ensures acts { IfOk result (λ step. AsksFor K.Keeper keeper.old keeper.new (λ calls. MemberActs
        (datagrams_of trace.now.past) now event.now calls step member.old member.new)) }
    ensures serves { IfOk result
        (λ step. Serves count last gives service.old step.served service.new) }
    ensures err { OnErr result (member.new ≡ member.old) }
    ensures unserved { OnErr result (service.new ≡ service.old) }
    ensures in_vain { OnErr result (AsksInVain K.Keeper keeper.old keeper.new) }
{
    match event {
        Event::Own { spir, .. } => return member.take_over(keeper, *spir),
        Event::Draw { spir, .. } => return Ok(member.draw(keeper, *spir)),
        Event::Send { spir, payload, .. } => {
            return member.send_data(keeper, *spir, payload.as_slice());
        }
        Event::Ask { spir, request, .. } => return member.ask(keeper, *spir, request.as_slice()),
        Event::Again { spir, id, .. } => return member.again(*spir, *id),
        Event::Sync { spir, .. } => return member.begin_sync(keeper, *spir),
        _ => {
            let arrival = arriving(alloc, trace, event)?;
            return member_takes(member, keeper, service, now, arrival);
        }
    }
}

// and what the peer does
fn peer_performs<K: Keeper>(
    alloc: Global,
    peer: &mut Peer,
    keeper: &mut K,
    service: &mut Box<dyn Service>,
    now: Moment,
    trace: &Trace,
    event: &Event,
) -> Result<Step, Memory>
    requires asks { asks_an_end event.now ≡ true }
    requires named { named_in event.now ≡ None }
    requires arrives { Arrives (datagrams_of trace.now.past) (delivery_of event.now) }
    requires fits { Fits (plain event.now) }
    requires room { count service.old < MOST_REQUESTS }
    requires short { AllByRecursion IsShort (datagrams_of trace.now.past) }
    ensures acts { IfOk result (λ step. AsksFor K.Keeper keeper.old keeper.new (λ calls. PeerActs
        (datagrams_of trace.now.past) now event.now calls step peer.old peer.new)) }
    ensures serves { IfOk result
        (λ step. Serves count last gives service.old step.served service.new) }
    ensures window { peer.new.window ≡ peer.old.window }
    ensures err { OnErr result (peer.new.held ≡ peer.old.held) }
    ensures unserved { OnErr result (service.new ≡ service.old) }
    ensures in_vain { OnErr result (AsksInVain K.Keeper keeper.old keeper.new) }
{
    match event {
        Event::Import { sa } => return import(peer, keeper, sa),
        Event::Send { spir, payload, .. } => return peer.send_data(*spir, payload.as_slice()),
        Event::Ask { spir, request, .. } => return peer.ask(*spir, request.as_slice()),
        Event::Again { spir, id, .. } => return peer.again(*spir, *id),
        Event::Ticket { spir } => return peer.ask_ticket(*spir),
        Event::Forget { spir } => return Ok(peer.forget(*spir)),
        _ => {
            let arrival = arriving(alloc, trace, event)?;
            return peer_takes(peer, service, now, arrival);
        }
    }
}

// an association that both ends have from the beginning
fn import<K: Keeper>(peer: &mut Peer, keeper: &mut K, sa: &Record) -> Result<Step, Memory>
    ensures imports { IfOk result (λ step. AsksFor K.Keeper keeper.old keeper.new (λ calls.
        Refusing (not (admits peer.old.held.slots sa.now)) refusal.SpiInUse calls step
        (Quietly (EntersRecord sa.now) calls step)
        × IsPeerAfter (task.Enter sa.now) step peer.old peer.new)) }
    ensures window { peer.new.window ≡ peer.old.window }
    ensures err { OnErr result (peer.new.held ≡ peer.old.held) }
    ensures in_vain { OnErr result (AsksInVain K.Keeper keeper.old keeper.new) }
{
    if !peer.admits(sa) {
        return Ok(refused(Refusal::SpiInUse));
    }
    peer.reserve()?;
    match keeper.enter(sa) {
        Ok(()) => {
            peer.add(sa);
            return Ok(Step::quiet(Verdict::Entered));
        }
        Err(fault) => match of_import(fault) {
            Some(refusal) => return Ok(refused(refusal)),
            None => return Err(Memory),
        },
    }
}
