//! What an association of the peer does with a request to synchronise (RFC 6311, section 5).

ghost use Rattle.std.specs.Prelude.{◌≡◌, ◌≤◌, [], true, Ok};
ghost use Rattle.ike_sas.specs.Arrivals.{has_message_ids_inside};
ghost use Rattle.ike_sas.specs.declared.synchronising.TheConstants.{SYNC_RESPONSE_OCTETS};
ghost use Rattle.sync_exchange.specs.Answers.{IsPeerAnswer};
ghost use Rattle.turn_rules.specs.PeerMessages.{MayAcceptSync, SlotSynchronises, sync_state};
ghost use Rattle.turn_rules.specs.Slots.{slot_after};
ghost use Rattle.turn_rules.specs.Tasks as task;
ghost use Rattle.cluster_peer.specs.Messages.{IsAskedFor};
ghost use Rattle.ha_base.specs.declared.outside.Moment.{Moment};

use crate::association::{Association, higher};
use crate::names::name_at;
use events::{IkeDrop, Refusal, Step, Verdict};
use ha_base::End;
use ike_sas::Draft;
use keeper_book::Counter;
use request_exchange::{drop_message, sent_step};
use sk_payload::Opened;
use sync_exchange::{Accepted, PeerState, SyncDrop, SyncRequest, peer_accepts, request_of};

/// What a request to synchronise asks for.
fn asked_for(request: &Opened) -> SyncRequest
    requires { has_message_ids_inside request.now.inner ≡ true }
    ensures { IsAskedFor request.now result }
{
    let Ok(payloads) = &request.inner else {
        unreachable!()
    };
    let Ok(asked) = request_of(payloads) else {
        unreachable!()
    };
    asked
}

impl Association {
    // What the association holds that a synchronisation asks for.
    fn sync_state(&self) -> PeerState
        ensures { result ≡ sync_state self.now }
    {
        PeerState {
            highest: self.highest,
            next_ask: self.ike.next(),
            next_esp: self.lot.next(),
        }
    }

    /// Answers a request to synchronise: it is accepted, or dropped where its Message ID is not above
    /// the highest that the cluster used, or where its delta can't be added. One that would be
    /// accepted is refused `Exhausted` where no IV is left for the response. No memory is taken.
    pub fn synchronise(&mut self, draft: Draft, request: &Opened) -> Step
        requires says { has_message_ids_inside request.now.inner ≡ true }
        requires empty { draft.payloads ≡ [] }
        requires room { SYNC_RESPONSE_OCTETS ≤ draft.room }
        ensures answers { SlotSynchronises self.old request.now [] result }
        ensures after { (now : Moment) → self.new ≡ slot_after now task.Receive result self.old }
        ensures sa { self.new.sa ≡ self.old.sa }
    {
        let asked = asked_for(request);
        match peer_accepts(&self.sync_state(), &asked) {
            Ok(accepted) => self.accept(draft, request, &asked, &accepted),
            Err(SyncDrop::NotAbove(highest)) => drop_message(IkeDrop::SyncOld(highest)),
            Err(SyncDrop::Delta) => drop_message(IkeDrop::Delta),
            Err(_) => unreachable!(),
        }
    }

    // Takes on what was accepted, where an IV is left for the response.
    fn accept(
        &mut self,
        draft: Draft,
        request: &Opened,
        asked: &SyncRequest,
        accepted: &Accepted,
    ) -> Step
        requires is { IsPeerAnswer (sync_state self.old) asked.now (Ok accepted.now) }
        requires empty { draft.payloads ≡ [] }
        requires room { SYNC_RESPONSE_OCTETS ≤ draft.room }
        ensures accepts { MayAcceptSync self.old request.now asked.now accepted.now result }
        ensures after { (now : Moment) → self.new ≡ slot_after now task.Receive result self.old }
        ensures sa { self.new.sa ≡ self.old.sa }
    {
        let Some(iv) = self.ivs.draw() else {
            return Step::quiet(Verdict::Refused(Refusal::Exhausted));
        };
        let done = self
            .ike
            .accept_sync(draft, &request.header, asked, accepted, iv);
        let verdict = Verdict::SyncAccepted {
            counter: name_at(End::Peer, &self.sa, Counter::Answer),
            p2: accepted.p2,
            m2: accepted.m2,
            delta: accepted.next_esp - self.lot.next(),
            unknown: done.unknown,
        };
        self.lot.skip(accepted.next_esp);
        self.highest = Some(higher(self.highest, accepted.m2));
        sent_step(verdict, None, done.sent)
    }
}
