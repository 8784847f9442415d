ghost use Rattle.std.specs.Prelude.{◌≡◌, ◌<◌, true, length, slice_get, Some, IfOk, OnErr};
ghost use Rattle.std.specs.List.{remove};
ghost use Rattle.ike_values.specs.Validity.{AreValid};
ghost use Rattle.keeper_book.specs.Asks.{AsksFor};
ghost use Rattle.resume_exchange.specs.declared.half_opens.HalfOpen.{HalfOpen};
ghost use Rattle.resume_settling.specs.Replies.{Replies};
ghost use Rattle.resume_settling.specs.Settling.{IsAccepted, IsInVain, IsSettlingOf, Settles};
ghost use Rattle.resume_settling.specs.Judgements.{IsCorrect};

use crate::answers::{MemberAuth, Why};
use crate::choosing::chosen;
use crate::replies::{own_code, refusal, reply};
use ha_base::{End, Identity, Memory, read_u32};
use ike_sas::SentMessage;
use ike_values::Payloads;
use ike_values::notify_types::AUTHENTICATION_FAILED;
use keeper_book::{Keeper, KeeperFault, Record};
use resume_exchange::{
    HalfOpen, HalfOpens, LEAST_CHILD_SPI, Offer, Ready, auth_frame, resumed_record,
};
use std::alloc::Global;

/// What the keeper is asked to settle, and both answers that may follow, ready to be sealed.
pub(crate) struct Settling {
    /// The ticket, and the responder's SPI of the association that it was issued in.
    pub(crate) ticket: u64,
    pub(crate) old_spir: u64,
    /// The resumed association.
    pub(crate) sa: Record,
    /// The answer where it is settled.
    pub(crate) accepted: Ready,
    /// The answer where the ticket was spent.
    pub(crate) spent: Ready,
}

impl Settling {
    /// What is settled of a half-open association, whose peer sent these payloads to a member of
    /// this identity. An error is want of memory.
    pub(crate) fn new(
        alloc: Global,
        identity: &Identity,
        half_open: &HalfOpen,
        payloads: &Payloads,
    ) -> Result<Settling, Memory>
        requires correct { IsCorrect half_open.now payloads.now }
        requires valid { AreValid true payloads.now }
        ensures made { IfOk result (IsSettlingOf half_open.now) }
        ensures accepted { IfOk result (λ settling.
            IsAccepted identity.now half_open.now payloads.now settling.sa settling.accepted) }
    {
        let content = &half_open.content;
        let from = &half_open.derivation;
        let (proposal, initiator, responder) = chosen(payloads, content.size).unwrap();
        let spi_in = LEAST_CHILD_SPI + from.spir as u32;
        let offer = Offer {
            number: proposal.number,
            spi: spi_in,
            size: content.size,
        };
        let code = own_code(identity, half_open);
        let frame = auth_frame(
            alloc,
            End::Cluster,
            identity,
            &code,
            offer,
            initiator,
            responder,
        )?;
        let spi_out = read_u32(proposal.spi.as_slice());
        Ok(Settling {
            ticket: half_open.ticket,
            old_spir: content.spir,
            sa: resumed_record(
                &content.sk_d,
                content.size,
                content.identity,
                from,
                spi_in,
                spi_out,
            ),
            accepted: Ready::new(alloc, frame)?,
            spent: refusal(alloc, AUTHENTICATION_FAILED)?,
        })
    }

    /// Asks the keeper to settle the ticket, and answers for the half-open association at this
    /// place, which is removed where a message is sealed. An error is the keeper's want of memory.
    pub(crate) fn settle<K: Keeper>(
        self,
        keeper: &mut K,
        member: u32,
        half_opens: &mut HalfOpens,
        place: usize,
    ) -> Result<MemberAuth, Memory>
        requires { place < length half_opens.old }
        ensures settles { IfOk result (λ answer. (half_open : HalfOpen) →
            slice_get half_opens.old place ≡ Some half_open → IsSettlingOf half_open self →
            AsksFor K.Keeper keeper.old keeper.new (λ calls. Settles member half_open
            half_opens.old place self.sa self.accepted calls answer half_opens.new)) }
        ensures memory { OnErr result (half_opens.new ≡ half_opens.old) }
        ensures in_vain { OnErr result (AsksFor K.Keeper keeper.old keeper.new IsInVain) }
    {
        let Settling {
            ticket,
            old_spir,
            sa,
            accepted,
            spent,
        } = self;
        match keeper.settle(ticket, old_spir, &sa, member) {
            Ok(()) => Ok(MemberAuth::Resumed(sa, end_with(half_opens, place, accepted))),
            Err(KeeperFault::Spent) => {
                let sent = end_with(half_opens, place, spent);
                Ok(MemberAuth::AuthFailed(Why::Spent, sent))
            }
            Err(KeeperFault::Memory) => Err(Memory),
            Err(fault) => Ok(MemberAuth::Refused(fault)),
        }
    }
}

/// Removes the half-open association at this place, and seals the answer to its peer.
pub(crate) fn end_with(half_opens: &mut HalfOpens, place: usize, ready: Ready) -> SentMessage
    requires { place < length half_opens.old }
    ensures replies { (half_open : HalfOpen) → slice_get half_opens.old place ≡ Some half_open →
        Replies half_open ready result }
    ensures removed { half_opens.new ≡ remove half_opens.old place }
{
    let half_open = half_opens.remove(place);
    reply(&half_open, ready)
}
