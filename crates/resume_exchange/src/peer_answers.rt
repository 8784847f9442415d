ghost use Rattle.std.specs.Prelude.{◌≡◌, List, ℕ, IfOk, OnErr, MatchOption};
ghost use Rattle.resume_exchange.specs.Attempts.{Awaits, SendsAuth, derivation_with};
ghost use Rattle.resume_exchange.specs.PeerAnswers.{IsResumeAnswer, IsRedirectAnswer, OffersNonce};

use crate::attempts::{Attempt, Awaited};
use crate::auth_messages::copy_of;
use crate::beginning::seal_auth;
use crate::drops::ResumeDrop;
use crate::request::{NONCE_OCTETS, first_nonce};
use ha_base::{Derivation, GatewayId, Memory, Octets};
use ike_sas::SentMessage;
use ike_values::Message;
use ike_values::notify_types::{COOKIE, REDIRECT, TICKET_NACK};
use redirects::redirect_of;
use std::alloc::Global;

/// What a peer makes of an answer to its request to resume.
#[derive(Drop)]
pub enum PeerAnswer {
    /// The ticket is taken: the responder's SPI, and the IKE_AUTH that is sent.
    Nr(u64, SentMessage),
    /// The ticket is not taken. The attempt has ended.
    Nacked,
    /// The gateway that the peer is to go to, and the nonce that came. Where the redirect is
    /// followed the attempt has ended.
    Redirect(GatewayId, Octets),
    /// It is dropped: as `NotAsked`, `Form` or `SpiInUse`.
    Dropped(ResumeDrop),
}

impl Attempt {
    /// What is made of an answer to the request (RFC 5723, section 4.3.2; RFC 5685, section 3).
    /// `bytes` are its octets, and `in_use` says whether an association has its responder's SPI.
    ///
    /// It is `NotAsked` where the IKE_AUTH was sent already. Of a cookie, a redirect, a TICKET_NACK
    /// and a nonce, the first that is there counts, in this order. It is `Form` where the Message
    /// ID is not 0, where none of the four is there or a cookie is, where a redirect is none, where
    /// the nonce has not 32 octets, and where with it the responder's SPI is 0; with a nonce it is
    /// `SpiInUse` where `in_use` is true. An error is want of memory. The attempt changes by `Nr`
    /// alone.
    pub fn on_answer(
        &mut self,
        alloc: Global,
        message: &Message,
        bytes: &[u8],
        in_use: bool,
    ) -> Result<PeerAnswer, Memory>
        ensures answer { IfOk result (λ answer.
            IsResumeAnswer self.old message.now bytes.now in_use answer self.new) }
        ensures memory { OnErr result (self.new ≡ self.old) }
    {
        if self.awaited.is_some() {
            return Ok(PeerAnswer::Dropped(ResumeDrop::NotAsked));
        }
        let payloads = &message.payloads;
        if message.header.id != 0 || payloads.first_notify(COOKIE).is_some() {
            return Ok(PeerAnswer::Dropped(ResumeDrop::Form));
        }
        if let Some(octets) = payloads.first_notify(REDIRECT) {
            return redirected(alloc, octets);
        }
        if payloads.first_notify(TICKET_NACK).is_some() {
            return Ok(PeerAnswer::Nacked);
        }
        let Some(nr) = offered_nonce(message) else {
            return Ok(PeerAnswer::Dropped(ResumeDrop::Form));
        };
        if in_use {
            return Ok(PeerAnswer::Dropped(ResumeDrop::SpiInUse));
        }
        let spir = message.header.spir;
        let sent = self.authenticate(alloc, spir, &nr, bytes)?;
        Ok(PeerAnswer::Nr(spir, sent))
    }

    /// Takes the member's nonce, and sends the IKE_AUTH. An error is want of memory, and leaves the
    /// attempt as it was.
    fn authenticate(
        &mut self,
        alloc: Global,
        spir: u64,
        nr: &[u8; NONCE_OCTETS],
        bytes: &[u8],
    ) -> Result<SentMessage, Memory>
        ensures sends { IfOk result (λ sent. SendsAuth self.old.keys
            (derivation_with self.old spir nr.now) self.old.request.octets sent) }
        ensures awaits { IfOk result (λ sent.
            Awaits self.old (derivation_with self.old spir nr.now) bytes.now self.new) }
        ensures memory { OnErr result (self.new ≡ self.old) }
    {
        let from = Derivation {
            old_spir: self.keys.spir,
            ni: self.ni,
            nr: *nr,
            spii: self.number,
            spir,
        };
        let response = copy_of(alloc, bytes)?;
        let sent = seal_auth(alloc, &self.keys, &from, self.request.as_slice())?;
        self.awaited = Some(Awaited { from, response });
        Ok(sent)
    }
}

/// The member's nonce, where it names itself and gives one.
fn offered_nonce(message: &Message) -> Option<[u8; NONCE_OCTETS]>
    ensures { MatchOption result
        ((nr : List ℕ) → ¬ OffersNonce message.now nr) (OffersNonce message.now) }
{
    let octets = first_nonce(message.payloads.as_slice())?;
    if octets.len() != NONCE_OCTETS || message.header.spir == 0 {
        return None;
    }
    let mut nr = [0; NONCE_OCTETS];
    nr.copy_from_slice(octets);
    Some(nr)
}

/// What is made of the data of a redirect. An error is want of memory.
fn redirected(alloc: Global, octets: &[u8]) -> Result<PeerAnswer, Memory>
    ensures { IfOk result (IsRedirectAnswer octets.now) }
{
    match redirect_of(alloc, octets)? {
        Some((gateway, nonce)) => Ok(PeerAnswer::Redirect(gateway, nonce)),
        None => Ok(PeerAnswer::Dropped(ResumeDrop::Form)),
    }
}
