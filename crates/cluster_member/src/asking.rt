ghost use Rattle.std.specs.Prelude.{◌≡◌, ◌≤◌, [], IfOk, OnErr, length};
ghost use Rattle.ha_base.specs.declared.services.TheConstants.{LONGEST_REQUEST};
ghost use Rattle.ike_sas.specs.Answers.{request_payloads};
ghost use Rattle.ike_window.specs.Asking.{FitsBeside};
ghost use Rattle.keeper_book.specs.Asks.{AsksFor};
ghost use Rattle.turn_rules.specs.Held.{held_at};
ghost use Rattle.turn_rules.specs.MemberMessages.{AsksOf, HeldAsks, HeldSendsRequest, ResendsOf, held_ike};
ghost use Rattle.turn_rules.specs.Messages.{Resends};
ghost use Rattle.turn_rules.specs.Tasks as task;
ghost use Rattle.cluster_member.specs.Members.{HoldsOn, IsAfter};
ghost use Rattle.cluster_member.specs.Advances.{Advances};

use crate::holding::Holding;
use crate::holdings::{Holdings, not_owner, place_of};
use crate::member::Member;
use crate::ready::ready_with_iv;
use crate::refusals;
use events::{Refusal, Step, Verdict};
use ha_base::Memory;
use keeper_book::Keeper;
use request_exchange::RequestRoom;
use std::alloc::Global;

impl Holding {
    /// Sends a request under the next Message ID (RFC 7296, sections 2.2 and 2.3).
    pub(crate) fn send_request<K: Keeper>(&mut self, keeper: &mut K, room: RequestRoom) -> Step
        ensures asks { AsksFor K.Keeper keeper.old keeper.new
            (λ calls. HeldAsks self.old room calls result
            × Advances self.old (task.Ask self.old.sa.spir room) calls result self.new) }
        ensures sa { self.new.sa ≡ self.old.sa }
    {
        if !self.ike.synced() {
            return Step::quiet(Verdict::Refused(Refusal::NotSynced));
        }
        match self.ike.may_ask(self.ike.next()) {
            Ok(()) => return self.send_next(keeper, room),
            Err(least) => return Step::quiet(Verdict::Refused(Refusal::WindowFull(least))),
        }
    }

    // Sends a request that fits the window, once the next Message ID and the next IV are ready.
    fn send_next<K: Keeper>(&mut self, keeper: &mut K, room: RequestRoom) -> Step
        requires fits { FitsBeside self.old.nexts.ask self.old.asked }
        ensures asks { AsksFor K.Keeper keeper.old keeper.new
            (λ calls. HeldSendsRequest self.old room calls result
            × Advances self.old (task.Ask self.old.sa.spir room) calls result self.new) }
        ensures sa { self.new.sa ≡ self.old.sa }
    {
        let id = self.ask.next();
        match ready_with_iv(keeper, &mut self.ask, id, &mut self.iv) {
            Ok(iv) => {
                self.ask.jump(id + 1);
                return request_exchange::ask(&mut self.ike, room, id as u32, iv);
            }
            Err(stop) => return Step::quiet(Verdict::Refused(refusals::of_stop(stop))),
        }
    }

    /// Sends an outstanding request again (RFC 7296, section 2.1). An error is want of memory.
    pub(crate) fn send_again(&self, alloc: Global, id: u32) -> Result<Step, Memory>
        ensures { IfOk result (Resends id (held_ike self.now)) }
    {
        request_exchange::resend(alloc, &self.ike, id)
    }
}

impl Holdings {
    /// Sends a request in an association that is held.
    pub(crate) fn send_request<K: Keeper>(
        &mut self,
        keeper: &mut K,
        spir: u64,
        room: RequestRoom,
    ) -> Step
        ensures asks { AsksFor K.Keeper keeper.old keeper.new
            (λ calls. AsksOf (held_at self.old.held spir) room calls result
            × HoldsOn (task.Ask spir room) calls result self.old.held self.new.held) }
    {
        match place_of(&self.items, spir) {
            Some(place) => {
                let holding = &mut self.items[place];
                holding.send_request(keeper, room)
            }
            None => not_owner(),
        }
    }

    /// Sends a request again in an association that is held. An error is want of memory.
    pub(crate) fn send_again(&self, alloc: Global, spir: u64, id: u32) -> Result<Step, Memory>
        ensures { IfOk result (ResendsOf (held_at self.now.held spir) id []) }
    {
        match place_of(&self.items, spir) {
            Some(place) => self.items[place].send_again(alloc, id),
            None => Ok(not_owner()),
        }
    }
}

impl Member {
    /// Sends a request of at most 256 octets in an association, for the peer to execute, under the
    /// next Message ID (RFC 7296, sections 2.2 and 2.3). It is refused `NotOwner` exactly where the
    /// association is not held, then `NotSynced` in a later epoch that has not synchronised (RFC
    /// 6311, section 5.1), then `WindowFull` where the window has no room, and else by the name of
    /// the stop of its Message ID, or of its IV. An error is want of memory; then no keeper was
    /// asked, and the member is as it was.
    pub fn ask<K: Keeper>(
        &mut self,
        keeper: &mut K,
        spir: u64,
        request: &[u8],
    ) -> Result<Step, Memory>
        requires { length request.now ≤ LONGEST_REQUEST }
        ensures asks { IfOk result (λ step. AsksFor K.Keeper keeper.old keeper.new (λ calls.
            AsksOf (held_at self.old.held spir) (request_payloads request.now) calls step
            × IsAfter (task.Ask spir (request_payloads request.now)) calls step self.old self.new)) }
        ensures err { OnErr result ((self.new ≡ self.old) × (keeper.new ≡ keeper.old)) }
    {
        let room = RequestRoom::new(self.alloc, request)?;
        Ok(self.holdings.send_request(keeper, spir, room))
    }

    /// Sends a request again that is outstanding in an association, with the same octets (RFC 7296,
    /// section 2.1). It is refused `NotOwner` exactly where the association is not held, and
    /// `NotOutstanding` exactly where no request of this Message ID is outstanding in it. Nothing
    /// is sealed and nothing changes. An error is want of memory.
    pub fn again(&self, spir: u64, id: u32) -> Result<Step, Memory>
        ensures resends { IfOk result (λ step. ResendsOf (held_at self.now.held spir) id [] step
            × IsAfter (task.Again spir id) [] step self.now self.now) }
    {
        self.holdings.send_again(self.alloc, spir, id)
    }
}
