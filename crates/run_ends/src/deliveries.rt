//! Datagrams that come to an end.

ghost use Rattle.std.specs.Prelude.{◌≡◌, ◌<◌, ◌≤◌, IfOk, OnErr, None, length};
ghost use Rattle.cluster_member.specs.Members.{IsAfter};
ghost use Rattle.ha_base.specs.declared.limits.TheConstants.{DATAGRAM_OCTETS, NUMBER_END};
ghost use Rattle.ha_base.specs.declared.services.TheConstants.{MOST_REQUESTS};
ghost use Rattle.keeper_book.specs.Asks.{AsksFor};
ghost use Rattle.turn_rules.specs.Deliveries.{MemberTakes};
ghost use Rattle.turn_rules.specs.Held.{held_at};
ghost use Rattle.turn_rules.specs.Services.{Serves};
ghost use Rattle.turn_rules.specs.Tasks as task;
ghost use Rattle.run_ends.specs.Arrivals.{MemberTakesIn, PeerTakesIn};
ghost use Rattle.run_ends.specs.Parties.{IsShort};

use crate::arrivals::{Arrival, verdict_of};
use cluster_member::Member;
use cluster_peer::Peer;
use events::{Medium, Step};
use ha_base::{Memory, Moment, Service};
use keeper_book::Keeper;

pub(crate) fn peer_takes(
    peer: &mut Peer,
    service: &mut Box<dyn Service>,
    now: Moment,
    arrival: Arrival,
) -> Result<Step, Memory>
    requires short { IsShort arrival }
    requires served_few { count service.old < MOST_REQUESTS }
    ensures takes { IfOk result
        (λ step. PeerTakesIn arrival.medium now arrival.octets step peer.old peer.new) }
    ensures serves { IfOk result
        (λ step. Serves count last gives service.old step.served service.new) }
    ensures err { OnErr result (peer.new ≡ peer.old) }
    ensures unserved { OnErr result (service.new ≡ service.old) }
{
    let Arrival { medium, mut octets } = arrival;
    match medium {
        Medium::Ike => peer.receive_ike(now, service, &octets),
        Medium::Esp => {
            let answer = peer.receive_esp(&mut octets);
            Ok(Step::quiet(verdict_of(answer, octets)))
        }
    }
}

pub(crate) fn member_takes<K: Keeper>(
    member: &mut Member,
    keeper: &mut K,
    service: &mut Box<dyn Service>,
    now: Moment,
    arrival: Arrival,
) -> Result<Step, Memory>
    requires moment { now.0 < NUMBER_END }
    requires short { IsShort arrival }
    requires served_few { count service.old < MOST_REQUESTS }
    ensures takes { IfOk result (λ step. AsksFor K.Keeper keeper.old keeper.new (λ calls.
        MemberTakesIn arrival.medium now arrival.octets calls step member.old member.new)) }
    ensures serves { IfOk result
        (λ step. Serves count last gives service.old step.served service.new) }
    ensures err { OnErr result (member.new ≡ member.old) }
    ensures unasked { OnErr result (keeper.new ≡ keeper.old) }
    ensures unserved { OnErr result (service.new ≡ service.old) }
{
    let Arrival { medium, octets } = arrival;
    match medium {
        Medium::Ike => member.receive_ike(keeper, service, now, &octets),
        Medium::Esp => Ok(member_takes_packet(member, keeper, octets)),
    }
}

fn member_takes_packet<K: Keeper>(member: &mut Member, keeper: &mut K, mut octets: Vec<u8>) -> Step
    requires short { length octets.items ≤ DATAGRAM_OCTETS }
    ensures takes { AsksFor K.Keeper keeper.old keeper.new (λ calls.
        MemberTakes (held_at member.old.held) octets.items calls result
        × IsAfter task.Receive calls result member.old member.new) }
    ensures served { result.served ≡ None }
{
    let answer = member.receive_esp(keeper, &mut octets);
    Step::quiet(verdict_of(answer, octets))
}
