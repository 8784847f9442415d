ghost use Rattle.std.specs.Prelude.{◌≡◌, ◌&&◌, ◌==◌, ℕ, Option, Some, None, IfOk, MatchOption, if◌then◌else◌};
ghost use Rattle.ike_sas.specs.Arrivals.{IsArrival, IsArrivalAt, IsGoodResponse, IsMessageArrival, IsNewFor, IsOpenedArrival, IsOrdinaryRequest, IsRepeated, IsRequestArrival, IsResponseArrival, NewIsNew, is_only_sk, is_own_flag, is_sealed};
ghost use Rattle.ike_sas.specs.Held.{IkeHeld, is_initiator};
ghost use Rattle.ike_values.specs.Headers.{IsMessage};
ghost use Rattle.ike_values.specs.declared.header.Header.{Header};
ghost use Rattle.ike_window.specs.Requests.{IsRepeat};
ghost use Rattle.ike_window.specs.Windows.{IsAnswered};

use crate::arrival::Arrival;
use crate::exchanges::{CREATE_CHILD_SA, IKE_AUTH, IKE_SESSION_RESUME, INFORMATIONAL};
use crate::requests::copied;
use crate::sa::IkeSa;
use crate::synchronisation::{bad_in, is_synchronisation};
use events::IkeDrop;
use ha_base::{End, Memory};
use ike_grammar::{Unread, decode_message, one_message};
use ike_values::{Message, Payload, Payloads};
use ike_window::Judged;
use sk_payload::{OpenFault, Opened, open_decoded};
use std::alloc::Global;

/// Where an end finds what it holds of an association.
pub trait Associations {
    // what is held under an initiator's and a responder's SPI
    ghost held_under: { Self → ℕ → ℕ → Option IkeHeld };

    /// What is held of the association with these SPIs, if there is one.
    fn find(&self, spii: u64, spir: u64) -> Option<&IkeSa>
        ensures { MatchOption result (held_under self.now spii spir ≡ None)
            (λ sa. held_under self.now spii spir ≡ Some sa.now) };
}

impl Associations for IkeSa {
    ghost held_under = { λ sa spii spir.
        if (sa.keys.spii == spii) && (sa.keys.spir == spir) then Some sa else None };

    fn find(&self, spii: u64, spir: u64) -> Option<&IkeSa> {
        if self.keys.spii == spii && self.keys.spir == spir {
            Some(self)
        } else {
            None
        }
    }
}

/// The Initiator flag is that of this end (RFC 7296, section 3.1).
fn is_own_flag(end: End, initiator: bool) -> bool
    ensures { result ≡ is_own_flag end initiator }
{
    match end {
        End::Cluster => !initiator,
        End::Peer => initiator,
    }
}

/// SK is the only payload.
fn is_only_sk(payloads: &Payloads) -> bool
    ensures { result ≡ is_only_sk payloads.now }
{
    match payloads.as_slice() {
        [Payload::Sk(_)] => true,
        _ => false,
    }
}

/// The message is of an exchange that is sealed, and SK is its only payload.
fn is_sealed(message: &Message) -> bool
    ensures { result ≡ is_sealed message.now }
{
    let exchange = message.header.exchange;
    (exchange == IKE_AUTH || exchange == CREATE_CHILD_SA || exchange == INFORMATIONAL)
        && is_only_sk(&message.payloads)
}

/// What octets that came are to an end that holds these associations: the first step that applies.
/// Nothing is changed by it. An error is want of memory.
pub fn receive<A: Associations>(
    alloc: Global,
    end: End,
    associations: &A,
    bytes: &[u8],
) -> Result<Arrival, Memory>
    ensures steps { IfOk result (IsArrival (A.held_under associations.now) end bytes.now) }
    ensures new { IfOk result (NewIsNew (A.held_under associations.now)) }
{
    match decode_message(alloc, bytes) {
        Ok(message) => receive_message(alloc, end, associations, bytes, message),
        Err(Unread::Bad(bad)) => Ok(Arrival::Dropped(IkeDrop::Bad(bad))),
        Err(Unread::Memory(memory)) => Err(memory),
    }
}

/// What a message is to an end, where the octets spell it.
fn receive_message<A: Associations>(
    alloc: Global,
    end: End,
    associations: &A,
    bytes: &[u8],
    message: Message,
) -> Result<Arrival, Memory>
    requires { IsMessage message bytes.now }
    ensures steps { IfOk result
        (IsMessageArrival (A.held_under associations.now) end bytes.now message) }
    ensures new { IfOk result (NewIsNew (A.held_under associations.now)) }
{
    let header = message.header;
    if is_own_flag(end, header.initiator) {
        return Ok(Arrival::Dropped(IkeDrop::Direction));
    }
    if header.exchange == IKE_SESSION_RESUME {
        return Ok(Arrival::Resumption(message));
    }
    if !is_sealed(&message) {
        return Ok(Arrival::Dropped(IkeDrop::Exchange(header.exchange)));
    }
    match associations.find(header.spii, header.spir) {
        Some(sa) => sa.receive(alloc, bytes, &message),
        None => Ok(Arrival::Dropped(IkeDrop::UnknownSpi)),
    }
}

impl IkeSa {
    /// What a message of this association is.
    #[tactic(auto, using(crate::proofs::Headers::opened_header))]
    fn receive(&self, alloc: Global, bytes: &[u8], message: &Message) -> Result<Arrival, Memory>
        requires { IsMessage message.now bytes.now }
        ensures steps { IfOk result (IsArrivalAt self.now bytes.now message.now) }
        ensures new { IfOk result (IsNewFor self.now message.now.header) }
    {
        one_message();
        match open_decoded(alloc, &self.keys.receiving, bytes, message) {
            Ok(opened) => self.receive_opened(alloc, opened),
            Err(OpenFault::NotOpened) => Ok(Arrival::Dropped(IkeDrop::NotOpened)),
            Err(OpenFault::Memory) => Err(Memory),
        }
    }

    /// What a message is that was opened.
    fn receive_opened(&self, alloc: Global, opened: Opened) -> Result<Arrival, Memory>
        ensures steps { IfOk result (IsOpenedArrival self.now opened) }
        ensures new { IfOk result (IsNewFor self.now opened.header) }
    {
        if opened.header.response {
            Ok(self.receive_response(opened))
        } else {
            self.receive_request(alloc, opened)
        }
    }

    /// What a response is.
    fn receive_response(&self, opened: Opened) -> Arrival
        ensures steps { IsResponseArrival self.now opened result }
        ensures new { IsNewFor self.now opened.header result }
    {
        match bad_in(&opened) {
            Some(bad) => Arrival::Dropped(IkeDrop::Bad(bad)),
            None => self.good_response(opened),
        }
    }

    /// What a response is whose inner payloads are good.
    fn good_response(&self, opened: Opened) -> Arrival
        ensures steps { IsGoodResponse self.now opened result }
        ensures new { IsNewFor self.now opened.header result }
    {
        if is_synchronisation(&opened) {
            return match self.keys.end {
                End::Cluster => Arrival::SyncResponse(opened),
                End::Peer => Arrival::Dropped(IkeDrop::NotAsked),
            };
        }
        if self.asking.again(opened.header.id).is_some() {
            Arrival::Response(opened)
        } else {
            Arrival::Dropped(IkeDrop::NotAsked)
        }
    }

    /// What a request is.
    fn receive_request(&self, alloc: Global, opened: Opened) -> Result<Arrival, Memory>
        ensures steps { IfOk result (IsRequestArrival self.now opened) }
        ensures new { IfOk result (IsNewFor self.now opened.header) }
    {
        if self.keys.end == End::Peer && is_synchronisation(&opened) {
            return Ok(Arrival::Synchronisation(opened));
        }
        self.judge(alloc, opened)
    }

    // What a request is that is no synchronisation. An error is want of memory.
    fn judge(&self, alloc: Global, opened: Opened) -> Result<Arrival, Memory>
        ensures steps { IfOk result (IsOrdinaryRequest self.now opened) }
        ensures new { IfOk result (IsNewFor self.now opened.header) }
    {
        let id = opened.header.id;
        if id < self.answering.floor() {
            return Ok(Arrival::Dropped(IkeDrop::Old(id)));
        }
        if !self.synced {
            return Ok(Arrival::Dropped(IkeDrop::NotSynced(id)));
        }
        match self.answering.judge(id) {
            Judged::New => Ok(Arrival::New(opened)),
            Judged::Repeat => self.repeat(alloc, id),
            Judged::Ahead => Ok(Arrival::Dropped(IkeDrop::Ahead(id))),
            Judged::Old => Ok(Arrival::Dropped(IkeDrop::Old(id))),
        }
    }

    /// The response that is kept to a request.
    fn repeat(&self, alloc: Global, id: u32) -> Result<Arrival, Memory>
        requires { IsRepeat self.now.answered.floor self.now.answered.low
            (IsAnswered self.now.answered) id }
        ensures steps { IfOk result (IsRepeated self.now id) }
        ensures new { (header : Header) → IfOk result (IsNewFor self.now header) }
    {
        match self.answering.stored(id) {
            Some(kept) => Ok(Arrival::Repeat {
                id,
                datagram: copied(alloc, kept)?,
            }),
            None => unreachable!(),
        }
    }
}
