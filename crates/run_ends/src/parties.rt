//! The ends of a run, and what they do at an event.

ghost use Rattle.std.specs.Prelude.{◌≡◌, ◌<◌, None, [], List, IfOk, OnErr};
ghost use Rattle.std.specs.List.{AllByRecursion};
ghost use Rattle.events.specs.Events.{plain};
ghost use Rattle.events.specs.Ranges.{Fits};
ghost use Rattle.cluster_member.specs.Members.{AsksInVain};
ghost use Rattle.events.specs.declared.turn.Turn.{Turn};
ghost use Rattle.ha_base.specs.declared.outside.Moment.{Moment};
ghost use Rattle.ha_base.specs.declared.limits.TheConstants.{NUMBER_END};
ghost use Rattle.ha_base.specs.declared.services.TheConstants.{MOST_REQUESTS};
ghost use Rattle.keeper_book.specs.Asks.{AsksFor};
ghost use Rattle.replay_set.specs.Window.{IsWindowSize};
ghost use Rattle.turn_rules.specs.Configurations.{default_configuration, gateway_of};
ghost use Rattle.turn_rules.specs.Datagrams.{datagrams_of};
ghost use Rattle.turn_rules.specs.Fits.{run_refusal};
ghost use Rattle.turn_rules.specs.PeerStates.{peer_begun};
ghost use Rattle.turn_rules.specs.Services.{Serves};
ghost use Rattle.turn_rules.specs.Steps.{Says};
ghost use Rattle.run_ends.specs.Parties.{Acts, AreInPlace, Configures, IsShort, Plays, state_of};

use crate::settings::Settings;
use cluster_member::Member;
use cluster_peer::Peer;
use events::{Event, Refusal, Step, Verdict};
use ha_base::{Memory, Moment, Service};
use keeper_book::Keeper;
use std::alloc::Global;
use std::marker::Model;
use turn_trace::Trace;

/// The peer, and the members that joined.
#[derive(Drop)]
pub(crate) struct Parties {
    pub(crate) alloc: Global,
    // how many services were handed in for members
    pub(crate) boxes: usize,
    pub(crate) settings: Settings,
    pub(crate) peer: Peer,
    // a member that ended leaves its place empty
    pub(crate) members: Vec<Option<Member>>,
}

impl Model for Parties {
    ghost use Rattle.std.specs.Prelude.{◌≡◌, ◌≤◌, length};
    ghost use Rattle.replay_set.specs.Window.{IsWindowSize};
    ghost use Rattle.run_ends.specs.Parties.{EndsHeld};

    ghost Value = { EndsHeld };

    ghost view = { λ c. record {
      boxes = c.boxes;
      config = c.settings;
      peer = c.peer.held;
      members = c.members.items;
    } };

    ghost invariant = { λ c. IsWindowSize c.settings.window × (c.peer.window ≡ c.settings.window)
        × (length c.members.items ≤ 64) };
}

pub(crate) fn refused(refusal: Refusal) -> Step
    ensures { Says (Verdict.Refused refusal) result }
{
    Step::quiet(Verdict::Refused(refusal))
}

impl Parties {
    /// Ends that have done nothing, and services for as many members as `boxes` says.
    pub fn new(alloc: Global, boxes: usize) -> Parties
        ensures { result ≡ record {
          boxes = boxes;
          config = default_configuration;
          peer = peer_begun (gateway_of default_configuration);
          members = [];
        } }
    {
        let settings = Settings::by_default();
        Parties {
            alloc,
            boxes,
            peer: Peer::new(alloc, settings.gateway(), settings.window),
            settings,
            members: Vec::new(alloc),
        }
    }

    /// What the ends do at a moment at an event, where these turns were before: the run refuses it,
    /// or it is performed. The service is that of the end that acts. An error is want of memory; the
    /// ends and the service are then as they were, and the keeper was asked only where it lacked the
    /// memory itself.
    pub fn play<K: Keeper>(
        &mut self,
        keeper: &mut K,
        service: &mut Box<dyn Service>,
        now: Moment,
        trace: &Trace,
        event: &Event,
    ) -> Result<Step, Memory>
        requires moment { now.0 < NUMBER_END }
        requires fits { Fits (plain event.now) }
        requires room { count service.old < MOST_REQUESTS }
        requires short { AllByRecursion IsShort (datagrams_of trace.now.past) }
        requires first { trace.now.past ≡ []
            → (self.old.peer.slots ≡ []) × (self.old.members ≡ []) }
        requires in_place { AreInPlace self.old }
        ensures plays { IfOk result (λ step. AsksFor K.Keeper keeper.old keeper.new (λ calls.
            Plays trace.now.past self.old now event.now calls step self.new)) }
        ensures serves { IfOk result
            (λ step. Serves count last gives service.old step.served service.new) }
        ensures err { OnErr result (self.new ≡ self.old) }
        ensures unserved { OnErr result (service.new ≡ service.old) }
        ensures in_vain { OnErr result (AsksInVain K.Keeper keeper.old keeper.new) }
    {
        match self.refusal(trace, event) {
            Some(why) => return Ok(refused(why)),
            None => return self.act(keeper, service, now, trace, event),
        }
    }

    // what the ends do at an event that the run does not refuse
    fn act<K: Keeper>(
        &mut self,
        keeper: &mut K,
        service: &mut Box<dyn Service>,
        now: Moment,
        trace: &Trace,
        event: &Event,
    ) -> Result<Step, Memory>
        requires unrefused { run_refusal (state_of trace.now.past self.old) event.now ≡ None }
        requires moment { now.0 < NUMBER_END }
        requires fits { Fits (plain event.now) }
        requires room { count service.old < MOST_REQUESTS }
        requires short { AllByRecursion IsShort (datagrams_of trace.now.past) }
        requires first { trace.now.past ≡ []
            → (self.old.peer.slots ≡ []) × (self.old.members ≡ []) }
        requires in_place { AreInPlace self.old }
        ensures acts { IfOk result (λ step. AsksFor K.Keeper keeper.old keeper.new (λ calls.
            Acts trace.now.past self.old now event.now calls step self.new)) }
        ensures serves { IfOk result
            (λ step. Serves count last gives service.old step.served service.new) }
        ensures err { OnErr result (self.new ≡ self.old) }
        ensures unserved { OnErr result (service.new ≡ service.old) }
        ensures in_vain { OnErr result (AsksInVain K.Keeper keeper.old keeper.new) }
    {
        match event {
            Event::Cluster {
                identity,
                lifetime,
                window,
                ticket_key,
            } => {
                let settings = Settings::of(*identity, *lifetime, *window, ticket_key);
                return Ok(self.configure(settings));
            }
            Event::Join { fresh } => return self.join(*fresh),
            Event::Crash { member } => return Ok(self.crash(*member)),
            _ => return self.perform(keeper, service, now, trace, event),
        }
    }

    // before the first turn
    fn configure(&mut self, settings: Settings) -> Step
        requires window { IsWindowSize settings.window }
        requires no_slots { self.old.peer.slots ≡ [] }
        requires nobody { self.old.members ≡ [] }
        ensures configures { Configures settings (λ event. (past : List Turn) (now : Moment)
            → Acts past self.old now event [] result self.new) }
        ensures alone { result.served ≡ None }
    {
        self.peer.configure(settings.gateway(), settings.window);
        self.settings = settings;
        Step::quiet(Verdict::Configured)
    }
}
