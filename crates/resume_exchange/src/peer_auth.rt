ghost use Rattle.std.specs.Prelude.{◌≡◌, ◌↔◌, ℕ, None, Some, IfOk, IsTrue, MatchOption, map};
ghost use Rattle.ike_values.specs.Headers.{IsMessage};
ghost use Rattle.ike_values.specs.PayloadView.{id_value, payload_value};
ghost use Rattle.ike_values.specs.ProposalView.{proposal_value};
ghost use Rattle.resume_exchange.specs.Parts.{first_of};
ghost use Rattle.resume_exchange.specs.MemberProofs.{IsAuthAnswer, IsAwaitedAnswer, IsInnerAnswer};
ghost use Rattle.resume_exchange.specs.MemberProofs.{IsPeerAuth, IsProven, OffersSpi};
ghost use Rattle.resume_exchange.specs.MemberProofs.{proposal_spi, first_esp_spi, idr_data};
ghost use Rattle.resume_exchange.specs.MemberProofs.{member_code};
ghost use Rattle.resume_exchange.specs.Attempts.{child_spi};
ghost use Rattle.resume_exchange.specs.ResumedRecords.{IsRecordResumed};

use crate::attempts::{Attempt, Awaited};
use crate::drops::ResumeDrop;
use crate::offers::{ESP, LEAST_CHILD_SPI};
use crate::parts::{SHARED_KEY, first_auth, first_proposals};
use crate::records::resumed_record;
use crate::sealing::{sa_keys, sealing_key};
use ha_base::{End, Memory, Octets, read_u32};
use ike_grammar::Bad;
use ike_sas::first_error;
use ike_values::{IdBody, Message, Payload, Payloads, Proposal, Proposals};
use keeper_book::Record;
use key_schedule::{auth_code, equal_codes};
use sk_payload::{OpenFault, open_decoded};
use std::alloc::Global;

/// What a peer makes of the response to its IKE_AUTH.
#[derive(Drop)]
pub enum PeerAuth {
    /// The association is resumed. The attempt has ended.
    Resumed(Record),
    /// The member refuses it, by an error of this type. The attempt has ended.
    Refused(u16),
    /// It is dropped: as `NotAsked`, `NotOpened`, `Bad`, `AuthWrong`, `Form` or `SpiInUse`.
    Dropped(ResumeDrop),
}

impl Attempt {
    /// What is made of the response to the IKE_AUTH (RFC 5723, section 4.3.3; RFC 7296, section
    /// 1.2). `bytes` were decoded to the message, and `in_use` says whether an association has its
    /// responder's SPI.
    ///
    /// The answer is the first that applies: `NotAsked` where none was sent, `NotOpened`, `Bad` for
    /// faulty inner payloads, `Refused` with the type of the first error, `AuthWrong` where IDr or
    /// AUTH by the shared key is missing or the code is not the member's, `Form` where there is no
    /// proposal for ESP with an SPI of four octets, and `SpiInUse`. An error is want of memory.
    pub fn on_auth(
        &self,
        alloc: Global,
        message: &Message,
        bytes: &[u8],
        in_use: bool,
    ) -> Result<PeerAuth, Memory>
        requires { IsMessage message.now bytes.now }
        ensures { IfOk result (IsPeerAuth self.now bytes.now in_use) }
    {
        match &self.awaited {
            Some(awaited) => self.on_awaited(alloc, awaited, message, bytes, in_use),
            None => Ok(PeerAuth::Dropped(ResumeDrop::NotAsked)),
        }
    }

    /// What is made of the response that is awaited.
    fn on_awaited(
        &self,
        alloc: Global,
        awaited: &Awaited,
        message: &Message,
        bytes: &[u8],
        in_use: bool,
    ) -> Result<PeerAuth, Memory>
        requires { IsMessage message.now bytes.now }
        ensures { IfOk result (IsAwaitedAnswer self.now awaited.now bytes.now in_use) }
    {
        let key = sealing_key(&self.keys.sk_d, self.keys.size, &awaited.from, End::Cluster);
        match open_decoded(alloc, &key, bytes, message) {
            Ok(opened) => self.on_inner(alloc, awaited, &opened.inner, in_use),
            Err(OpenFault::NotOpened) => Ok(PeerAuth::Dropped(ResumeDrop::NotOpened)),
            Err(OpenFault::Memory) => Err(Memory),
        }
    }

    /// What is made of inner payloads, which may be faulty.
    fn on_inner(
        &self,
        alloc: Global,
        awaited: &Awaited,
        inner: &Result<Payloads, Bad>,
        in_use: bool,
    ) -> Result<PeerAuth, Memory>
        ensures { IfOk result (IsInnerAnswer self.now awaited.now inner.now in_use) }
    {
        match inner {
            Ok(payloads) => self.on_payloads(alloc, awaited, payloads, in_use),
            Err(bad) => Ok(PeerAuth::Dropped(ResumeDrop::Bad(*bad))),
        }
    }

    /// What is made of good inner payloads.
    fn on_payloads(
        &self,
        alloc: Global,
        awaited: &Awaited,
        payloads: &Payloads,
        in_use: bool,
    ) -> Result<PeerAuth, Memory>
        ensures { IfOk result (IsAuthAnswer self.now awaited.now payloads.now in_use) }
    {
        if let Some(kind) = first_error(payloads.as_slice()) {
            return Ok(PeerAuth::Refused(kind));
        }
        if !self.is_proven(alloc, awaited, payloads)? {
            return Ok(PeerAuth::Dropped(ResumeDrop::AuthWrong));
        }
        let Some(spi_in) = offered_spi(payloads) else {
            return Ok(PeerAuth::Dropped(ResumeDrop::Form));
        };
        if in_use {
            return Ok(PeerAuth::Dropped(ResumeDrop::SpiInUse));
        }
        Ok(PeerAuth::Resumed(self.record(awaited, spi_in)))
    }

    /// The record of what is resumed, where the cluster receives at this SPI in the Child SA.
    fn record(&self, awaited: &Awaited, spi_in: u32) -> Record
        ensures { IsRecordResumed self.now.keys.sk_d self.now.keys.size self.now.keys.identity
            awaited.now.from spi_in (child_spi self.now.number) result }
    {
        let spi_out = LEAST_CHILD_SPI + self.number as u32;
        let old = &self.keys;
        resumed_record(
            &old.sk_d,
            old.size,
            old.identity,
            &awaited.from,
            spi_in,
            spi_out,
        )
    }

    /// Whether the member has the resumed keys. An error is want of memory.
    fn is_proven(
        &self,
        alloc: Global,
        awaited: &Awaited,
        payloads: &Payloads,
    ) -> Result<bool, Memory>
        ensures { IfOk result (λ proven.
            IsTrue proven ↔ IsProven self.now awaited.now payloads.now) }
    {
        let Some(identity) = first_responder_identity(payloads.as_slice()) else {
            return Ok(false);
        };
        let Some(auth) = first_auth(payloads.as_slice()) else {
            return Ok(false);
        };
        let code = self.member_code(alloc, awaited, identity)?;
        Ok(auth.method == SHARED_KEY && equal_codes(auth.content.as_slice(), &code))
    }

    /// The AUTH code of a member of this identity. An error is want of memory.
    fn member_code(
        &self,
        alloc: Global,
        awaited: &Awaited,
        identity: &IdBody,
    ) -> Result<[u8; 32], Memory>
        ensures { IfOk result (λ code.
            code ≡ member_code self.now awaited.now (id_value identity.now)) }
    {
        let keys = sa_keys(&self.keys.sk_d, self.keys.size, &awaited.from);
        let content = identity.content.as_slice();
        let mut body = Octets::with_room(alloc, 4 + content.len())?;
        body.extend(&[identity.kind, 0, 0, 0]).unwrap();
        body.extend(content).unwrap();
        let response = awaited.response.as_slice();
        Ok(auth_code(&keys.sk_pr, response, &awaited.from.ni, body.as_slice()))
    }
}

/// The SPI of the first proposal for ESP that has one of four octets.
fn offered_spi(payloads: &Payloads) -> Option<u32>
    ensures { MatchOption result
        ((spi : ℕ) → ¬ OffersSpi payloads.now spi) (OffersSpi payloads.now) }
{
    first_esp_spi(first_proposals(payloads.as_slice())?)
}

/// The first such SPI of some proposals.
fn first_esp_spi(proposals: &Proposals) -> Option<u32>
    ensures { result ≡ first_esp_spi proposals.now }
{
    let mut rest = proposals.as_slice();
    while let [proposal, others @ ..] = rest {
        if let Some(spi) = proposal_spi(proposal) {
            return Some(spi);
        }
        rest = others;
    }
    None
}

/// The SPI of a proposal for ESP, where it has four octets.
fn proposal_spi(proposal: &Proposal) -> Option<u32>
    ensures { result ≡ proposal_spi (proposal_value proposal.now) }
{
    let spi = proposal.spi.as_slice();
    if proposal.protocol == ESP && spi.len() == 4 {
        Some(read_u32(spi))
    } else {
        None
    }
}

/// The first identity of the responder.
fn first_responder_identity(payloads: &[Payload]) -> Option<&IdBody>
    ensures { MatchOption result
        (first_of idr_data (map payload_value payloads.now) ≡ None)
        (λ found. first_of idr_data (map payload_value payloads.now) ≡ Some (id_value found.now)) }
{
    let mut rest = payloads;
    while let [payload, others @ ..] = rest {
        if let Payload::IdR(found) = payload {
            return Some(found);
        }
        rest = others;
    }
    None
}
