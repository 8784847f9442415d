ghost use Rattle.std.specs.Prelude.{◌≡◌, ◌<◌, true, length, slice_get, Some, IfOk, OnErr};
ghost use Rattle.ike_values.specs.Headers.{IsMessage};
ghost use Rattle.ike_values.specs.Validity.{AreValid};
ghost use Rattle.keeper_book.specs.Asks.{AsksFor};
ghost use Rattle.resume_exchange.specs.declared.half_opens.HalfOpen.{HalfOpen};
ghost use Rattle.resume_settling.specs.Judgements.{AnswersAuth, DeclinesProposals, FollowsPayloads};
ghost use Rattle.resume_settling.specs.Settling.{FailsAuth, IsInVain};

use crate::answers::{MemberAuth, Why};
use crate::finding::last_meant;
use crate::opening::open_auth;
use crate::replies::refusal;
use crate::settling::{Settling, end_with};
use ha_base::{Memory, Moment};
use ike_values::notify_types::{AUTHENTICATION_FAILED, NO_PROPOSAL_CHOSEN};
use ike_values::{Message, Payloads};
use keeper_book::Keeper;
use resume_answers::OwnParts;
use resume_exchange::{AuthJudged, HalfOpens, ResumeDrop, judge_auth};
use std::alloc::Global;

/// Answers a message that came to a member while associations are half open there (RFC 5723,
/// section 4.3.3; RFC 7296, section 1.2). `bytes` were decoded to the message.
///
/// It is for the live half-open association with both SPIs of its header, of several for the one
/// that was begun last. The answer is the first that applies: `UnknownSpi` where there is none,
/// `Exchange` where the message is no request of IKE_AUTH with the Message ID 1, `NotOpened`, `Bad`
/// for faulty inner payloads, and then by what they say, as [`judge_auth`] judges it. Where all is
/// as it has to be the keeper is asked to settle the ticket, and the association is resumed exactly
/// where it does. An error is want of memory, also the keeper's: what is half open is as it was.
pub fn on_auth<K: Keeper>(
    alloc: Global,
    keeper: &mut K,
    own: &OwnParts,
    half_opens: &mut HalfOpens,
    now: Moment,
    message: &Message,
    bytes: &[u8],
) -> Result<MemberAuth, Memory>
    requires { IsMessage message.now bytes.now }
    ensures answers { IfOk result (λ answer. AsksFor K.Keeper keeper.old keeper.new (λ calls.
        AnswersAuth own.now now.0 message.now.header bytes.now half_opens.old calls answer
        half_opens.new)) }
    ensures memory { OnErr result (half_opens.new ≡ half_opens.old) }
    ensures in_vain { OnErr result (AsksFor K.Keeper keeper.old keeper.new IsInVain) }
{
    let Some(place) = last_meant(half_opens.as_slice(), now, &message.header) else {
        return Ok(MemberAuth::Dropped(ResumeDrop::UnknownSpi));
    };
    let half_open = &half_opens.as_slice()[place];
    match open_auth(alloc, half_open, message, bytes)? {
        Ok(payloads) => on_payloads(alloc, keeper, own, half_opens, place, now, &payloads),
        Err(why) => Ok(MemberAuth::Dropped(why)),
    }
}

/// Answers good inner payloads of an IKE_AUTH for the half-open association at this place.
fn on_payloads<K: Keeper>(
    alloc: Global,
    keeper: &mut K,
    own: &OwnParts,
    half_opens: &mut HalfOpens,
    place: usize,
    now: Moment,
    payloads: &Payloads,
) -> Result<MemberAuth, Memory>
    requires place { place < length half_opens.old }
    requires valid { AreValid true payloads.now }
    ensures answers { IfOk result (λ answer. (half_open : HalfOpen) →
        slice_get half_opens.old place ≡ Some half_open →
        AsksFor K.Keeper keeper.old keeper.new (λ calls. FollowsPayloads own.now now.0 half_open
        half_opens.old place payloads.now calls answer half_opens.new)) }
    ensures memory { OnErr result (half_opens.new ≡ half_opens.old) }
    ensures in_vain { OnErr result (AsksFor K.Keeper keeper.old keeper.new IsInVain) }
{
    let half_open = &half_opens.as_slice()[place];
    match judge_auth(half_open, now, payloads) {
        AuthJudged::Payload => fail(alloc, half_opens, place, Why::Payload),
        AuthJudged::Identity => fail(alloc, half_opens, place, Why::Identity),
        AuthJudged::Code => fail(alloc, half_opens, place, Why::Code),
        AuthJudged::NoProposal => decline(alloc, half_opens, place),
        AuthJudged::Expired => fail(alloc, half_opens, place, Why::Expired),
        AuthJudged::Correct(_) => {
            let settling = Settling::new(alloc, &own.identity, half_open, payloads)?;
            settling.settle(keeper, own.member, half_opens, place)
        }
    }
}

/// Answers AUTHENTICATION_FAILED. An error is want of memory; nothing has changed then.
fn fail(
    alloc: Global,
    half_opens: &mut HalfOpens,
    place: usize,
    why: Why,
) -> Result<MemberAuth, Memory>
    requires { place < length half_opens.old }
    ensures fails { IfOk result (λ answer. (half_open : HalfOpen) →
        slice_get half_opens.old place ≡ Some half_open →
        FailsAuth half_open half_opens.old place why answer half_opens.new) }
    ensures memory { OnErr result (half_opens.new ≡ half_opens.old) }
{
    let ready = refusal(alloc, AUTHENTICATION_FAILED)?;
    Ok(MemberAuth::AuthFailed(why, end_with(half_opens, place, ready)))
}

/// Answers NO_PROPOSAL_CHOSEN. An error is want of memory; nothing has changed then.
fn decline(alloc: Global, half_opens: &mut HalfOpens, place: usize) -> Result<MemberAuth, Memory>
    requires { place < length half_opens.old }
    ensures declines { IfOk result (λ answer. (half_open : HalfOpen) →
        slice_get half_opens.old place ≡ Some half_open →
        DeclinesProposals half_open half_opens.old place answer half_opens.new) }
    ensures memory { OnErr result (half_opens.new ≡ half_opens.old) }
{
    let ready = refusal(alloc, NO_PROPOSAL_CHOSEN)?;
    Ok(MemberAuth::NoProposal(end_with(half_opens, place, ready)))
}
