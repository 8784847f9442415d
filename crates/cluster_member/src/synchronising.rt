//! What a member that took an association over does to synchronise with the peer (RFC 6311, section
//! 5.1).

ghost use Rattle.std.specs.Prelude.{◌≡◌, ◌<◌, ◌≤◌, [], true, false, IfOk, OnErr};
ghost use Rattle.ha_base.specs.declared.limits.TheConstants.{MESSAGE_ID_END};
ghost use Rattle.ike_sas.specs.Arrivals.{has_message_ids_inside};
ghost use Rattle.ike_sas.specs.Held.{with_sync_begun};
ghost use Rattle.keeper_book.specs.Asks.{AsksFor};
ghost use Rattle.request_exchange.specs.Given.{IsOfSync};
ghost use Rattle.turn_rules.specs.Held.{held_at};
ghost use Rattle.turn_rules.specs.MemberMessages.{HeldSyncs, HeldTakesSync, SyncsOf, TakesSyncOf, awaits_sync, sync_id, sync_ids, sync_nonce};
ghost use Rattle.turn_rules.specs.Steps.{IsQuiet};
ghost use Rattle.turn_rules.specs.Tasks as task;
ghost use Rattle.cluster_member.specs.Advances.{Advances};
ghost use Rattle.cluster_member.specs.Arriving.{TakesWhereHeld, ike_under};
ghost use Rattle.cluster_member.specs.Members.{HoldsOn, IsAfter};
ghost use Rattle.cluster_member.specs.Synchronising.{Announces, SendsPrepared};

use crate::holding::{Holding, name_of};
use crate::holdings::{Holdings, not_owner, place_of};
use crate::member::Member;
use crate::ready::ready_with_iv;
use crate::refusals;
use events::{IkeDrop, Refusal, Step, Verdict};
use ha_base::{MESSAGE_ID_END, Memory, read_u32};
use ike_sas::{Draft, IkeSa};
use keeper_book::Keeper;
use request_exchange::{drop_message, sent_step};
use sk_payload::Opened;
use spend_once::{Kind, Number};
use std::alloc::Global;
use sync_exchange::{MessageIds, SyncDrop};

/// The nonce of a request to synchronise that announces this Message ID.
fn sync_nonce(fresh: &[u8; 24], id: u32) -> u32
    ensures { result ≡ sync_nonce fresh.now id }
{
    id ^ read_u32(&fresh[..4])
}

/// Sends the request of a draft, which announces this Message ID, with the number as its IV. No
/// memory is taken.
fn announce(ike: &mut IkeSa, draft: Draft, id: u32, iv: Number) -> Step
    requires named { iv.name ≡ ike.old.keys.sending.name }
    requires next { ike.old.next ≤ id }
    ensures announces { Announces ike.old id iv.value draft.payloads result }
    ensures held { ike.new ≡ with_sync_begun id ike.old }
{
    let sent = ike.begin_sync(draft, id, iv);
    let verdict = Verdict::Syncing {
        m1: id,
        p1: ike.floor(),
    };
    sent_step(verdict, None, sent)
}

impl Holding {
    // the Message ID that is announced next
    fn sync_id(&self) -> u64
        ensures value { result ≡ sync_id self.now }
        ensures from { self.now.bases.ask ≤ result }
        ensures next { self.now.nexts.ask ≤ result }
        ensures within { self.now.highs.ask ≤ MESSAGE_ID_END }
    {
        match self.attempt {
            None => self.ask.next(),
            Some(_) => self.ask.next() + 1,
        }
    }

    // what is announced with this Message ID
    fn sync_ids(&self, fresh: &[u8; 24], id: u32) -> MessageIds
        requires { id ≡ sync_id self.now }
        ensures { result ≡ sync_ids fresh.now self.now }
    {
        MessageIds {
            nonce: sync_nonce(fresh, id),
            send: id,
            receive: self.ike.floor(),
        }
    }

    /// Asks the peer to synchronise. An error is want of memory; then no keeper was asked, and
    /// nothing has changed.
    fn begin_sync<K: Keeper>(
        &mut self,
        alloc: Global,
        keeper: &mut K,
        fresh: &[u8; 24],
    ) -> Result<Step, Memory>
        ensures syncs { IfOk result (λ step. AsksFor K.Keeper keeper.old keeper.new (λ calls.
            HeldSyncs fresh.now self.old calls step
            × Advances self.old (task.Sync self.old.sa.spir) calls step self.new)) }
        ensures err { OnErr result ((self.new ≡ self.old) × (keeper.new ≡ keeper.old)) }
        ensures sa { self.new.sa ≡ self.old.sa }
    {
        if self.ike.synced() {
            return Ok(Step::quiet(Verdict::Refused(Refusal::NoSync)));
        }
        let id = self.sync_id();
        if id >= MESSAGE_ID_END {
            return Ok(Step::quiet(Verdict::Refused(Refusal::Exhausted)));
        }
        let draft = Draft::of_synchronisation(alloc, &self.sync_ids(fresh, id as u32))?;
        Ok(self.send_sync(keeper, draft))
    }

    // Sends the request of a draft, once the Message ID that it announces and the next IV are ready.
    fn send_sync<K: Keeper>(&mut self, keeper: &mut K, draft: Draft) -> Step
        requires below_the_end { sync_id self.old < MESSAGE_ID_END }
        ensures syncs { AsksFor K.Keeper keeper.old keeper.new (λ calls.
            SendsPrepared draft.payloads self.old calls result
            × Advances self.old (task.Sync self.old.sa.spir) calls result self.new) }
        ensures sa { self.new.sa ≡ self.old.sa }
    {
        let id = self.sync_id();
        match ready_with_iv(keeper, &mut self.ask, id, &mut self.iv) {
            Ok(iv) => {
                self.ask.jump(id);
                self.attempt = Some(id as u32);
                return announce(&mut self.ike, draft, id as u32, iv);
            }
            Err(stop) => return Step::quiet(Verdict::Refused(refusals::of_stop(stop))),
        }
    }

    // the Message ID that was announced in the request whose response is awaited
    fn awaits_sync(&self) -> Option<u32>
        ensures { result ≡ awaits_sync self.now }
    {
        if self.ike.synced() {
            None
        } else {
            self.attempt
        }
    }

    /// Takes the response to a request to synchronise, where the last one still awaits it.
    fn take_sync(&mut self, fresh: &[u8; 24], response: &Opened) -> Step
        requires says { has_message_ids_inside response.now.inner ≡ true }
        ensures takes { HeldTakesSync fresh.now self.old response.now [] result }
        ensures after { Advances self.old task.Receive [] result self.new }
        ensures quiet { IsQuiet result }
        ensures sa { self.new.sa ≡ self.old.sa }
    {
        match self.awaits_sync() {
            Some(id) => self.take_awaited(fresh, id, response),
            None => drop_message(IkeDrop::NotAsked),
        }
    }

    // Takes the response to a request to synchronise that announced this Message ID, or to one
    // before it.
    fn take_awaited(&mut self, fresh: &[u8; 24], id: u32, response: &Opened) -> Step
        requires says { has_message_ids_inside response.now.inner ≡ true }
        ensures takes { TakesSyncOf fresh.now self.old id response.now result }
        ensures after { Advances self.old task.Receive [] result self.new }
        ensures quiet { IsQuiet result }
        ensures sa { self.new.sa ≡ self.old.sa }
    {
        let Ok(payloads) = &response.inner else {
            unreachable!()
        };
        match self.ike.take_sync(sync_nonce(fresh, id), payloads) {
            Ok((next, floor)) => {
                self.ask.jump(next as u64);
                return Step::quiet(Verdict::Synced {
                    counter: name_of(&self.sa, Kind::Answer, 0),
                    next_ask: next,
                    floor,
                });
            }
            Err(SyncDrop::Nonce) => return drop_message(IkeDrop::Nonce),
            Err(_) => unreachable!(),
        }
    }
}

impl Holdings {
    /// Asks the peer to synchronise in an association that is held. An error is want of memory; then
    /// no keeper was asked, and nothing has changed.
    fn begin_sync<K: Keeper>(
        &mut self,
        alloc: Global,
        keeper: &mut K,
        fresh: &[u8; 24],
        spir: u64,
    ) -> Result<Step, Memory>
        ensures syncs { IfOk result (λ step. AsksFor K.Keeper keeper.old keeper.new (λ calls.
            SyncsOf fresh.now (held_at self.old.held spir) calls step
            × HoldsOn (task.Sync spir) calls step self.old.held self.new.held)) }
        ensures err { OnErr result ((self.new.held ≡ self.old.held) × (keeper.new ≡ keeper.old)) }
    {
        match place_of(&self.items, spir) {
            Some(place) => {
                let holding = &mut self.items[place];
                holding.begin_sync(alloc, keeper, fresh)
            }
            None => Ok(not_owner()),
        }
    }

    /// Takes a response to a request to synchronise where it belongs. No memory is taken.
    pub(crate) fn take_sync(&mut self, fresh: &[u8; 24], response: &Opened) -> Step
        requires of_sync { IsOfSync (ike_under (held_at self.old.held)) false response.now }
        ensures takes { TakesWhereHeld (held_at self.old.held) response.now
            (λ held. HeldTakesSync fresh.now held response.now [] result) }
        ensures holds { HoldsOn task.Receive [] result self.old.held self.new.held }
        ensures quiet { IsQuiet result }
    {
        match place_of(&self.items, response.header.spir) {
            Some(place) => {
                let holding = &mut self.items[place];
                holding.take_sync(fresh, response)
            }
            None => unreachable!(),
        }
    }
}

impl Member {
    /// Asks the peer to synchronise in an association that was taken over, under a Message ID above
    /// all that this member announced before (RFC 6311, section 5.1). It is refused `NotOwner`
    /// exactly where the association is not held, then `NoSync` where it is synchronised already,
    /// and else by the name of the stop of the Message ID that is announced, or of the IV. An error
    /// is want of memory; then no keeper was asked, and the member is as it was.
    pub fn begin_sync<K: Keeper>(&mut self, keeper: &mut K, spir: u64) -> Result<Step, Memory>
        ensures syncs { IfOk result (λ step. AsksFor K.Keeper keeper.old keeper.new (λ calls.
            SyncsOf self.old.fresh (held_at self.old.held spir) calls step
            × IsAfter (task.Sync spir) calls step self.old self.new)) }
        ensures err { OnErr result ((self.new ≡ self.old) × (keeper.new ≡ keeper.old)) }
    {
        self.holdings
            .begin_sync(self.alloc, keeper, &self.fresh, spir)
    }
}
