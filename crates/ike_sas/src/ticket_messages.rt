//! What the messages of an association say of tickets (RFC 5723, sections 4.1, 4.2 and 7).

ghost use Rattle.std.specs.Prelude.{◌≡◌, ◌+◌, ◌≤◌, ◌++◌, ◌∷◌, [], None, Some, map, length, true, IfOk, MatchOption};
ghost use Rattle.ike_sas.specs.TicketMessages.{IsShortTicket, IsTicketReply, asks_ticket_inside, first_ticket, is_ticket_due, is_ticket_size, nack_payload, ticket_answer_payload, ticket_data, ticket_of, ticket_payload, ticket_request_payloads, ticket_value};
ghost use Rattle.ike_values.specs.PayloadView.{payload_value};

use crate::answers::{ANSWER_OCTETS, error_of};
use crate::draft::Draft;
use events::Seal;
use ha_base::{Memory, Octets, read_u32};
use ike_values::notify_types::{TICKET_LT_OPAQUE, TICKET_NACK, TICKET_REQUEST};
use ike_values::{Payload, Payloads};
use sk_payload::Opened;
use std::alloc::Global;

/// How many octets tell the lifetime of a ticket.
pub const LIFETIME_OCTETS: usize = 4;

/// How many octets a ticket has at most that a peer keeps.
pub const LONGEST_KEPT_TICKET: usize = 512;

/// How many octets of data a notification has at most that gives a ticket.
const TICKET_DATA_OCTETS: usize = LIFETIME_OCTETS + LONGEST_KEPT_TICKET;

/// How many octets of inner payloads the answer to a request for a ticket has at most: those of any
/// answer, and a notification with the longest ticket.
pub const TICKET_ANSWER_OCTETS: usize = ANSWER_OCTETS + 8 + TICKET_DATA_OCTETS;

/// What a request for a ticket is answered with.
#[derive(Drop)]
pub enum TicketAnswer {
    /// A ticket: for how many seconds it is taken, and its sealing.
    Issued { lifetime: u32, seal: Seal },
    /// No ticket.
    Declined,
}

/// A ticket that was given to a peer.
#[derive(Drop)]
pub struct GivenTicket {
    /// For how many seconds it is taken.
    pub lifetime: u32,
    pub octets: Octets,
}

/// What the response to a request says of tickets.
#[derive(Drop)]
pub enum TicketReply {
    /// One is given.
    Given(GivenTicket),
    /// None is given, as the response says.
    Declined,
    /// Nothing.
    Nothing,
}

/// The inner payloads ask for a ticket.
fn asks_ticket_inside(request: &Opened) -> bool
    ensures { result ≡ asks_ticket_inside request.now.inner }
{
    match &request.inner {
        Ok(payloads) => payloads.first_notify(TICKET_REQUEST).is_some(),
        Err(_) => false,
    }
}

/// A ticket is due in the answer to a request: it is one that is executed, and it asks for a
/// ticket, by a notification with any data.
pub fn is_ticket_due(request: &Opened) -> bool
    ensures { result ≡ is_ticket_due request.now }
{
    error_of(request).is_none() && asks_ticket_inside(request)
}

impl Draft {
    /// What a peer sends to be given a ticket. An error is want of memory.
    pub fn of_ticket_request(alloc: Global) -> Result<Draft, Memory>
        ensures { IfOk result (λ draft. draft.payloads ≡ ticket_request_payloads) }
    {
        let mut draft = Draft::new(alloc, 8)?;
        draft.put_notify(TICKET_REQUEST, &[]);
        Ok(draft)
    }

    /// Appends a ticket, and for how many seconds it is taken. There is room for it. No memory is
    /// taken.
    pub fn put_ticket(&mut self, lifetime: u32, ticket: &[u8])
        requires short { length ticket.now ≤ LONGEST_KEPT_TICKET }
        requires fits { 8 + LIFETIME_OCTETS + length ticket.now ≤ self.old.room }
        ensures payloads { self.new.payloads
            ≡ self.old.payloads ++ ticket_payload lifetime ticket.now ∷ [] }
        ensures room { self.new.room + 8 + LIFETIME_OCTETS + length ticket.now ≡ self.old.room }
    {
        let mut octets = [0; TICKET_DATA_OCTETS];
        let end = LIFETIME_OCTETS + ticket.len();
        octets[..LIFETIME_OCTETS].copy_from_slice(&lifetime.to_be_bytes());
        octets[LIFETIME_OCTETS..end].copy_from_slice(ticket);
        self.put_notify(TICKET_LT_OPAQUE, &octets[..end]);
    }

    /// Appends that no ticket is given. There is room for it. No memory is taken.
    pub fn put_nack(&mut self)
        requires fits { 8 ≤ self.old.room }
        ensures payloads { self.new.payloads ≡ self.old.payloads ++ nack_payload ∷ [] }
        ensures room { self.new.room + 8 ≡ self.old.room }
    {
        self.put_notify(TICKET_NACK, &[]);
    }

    /// Appends what a request for a ticket is answered with. There is room for it. No memory is
    /// taken.
    pub fn put_ticket_answer(&mut self, answer: &TicketAnswer)
        requires short { IsShortTicket answer.now }
        requires fits { 8 + TICKET_DATA_OCTETS ≤ self.old.room }
        ensures payloads { self.new.payloads
            ≡ self.old.payloads ++ ticket_answer_payload answer.now ∷ [] }
        ensures room { self.old.room ≤ self.new.room + 8 + TICKET_DATA_OCTETS }
    {
        match answer {
            TicketAnswer::Issued { lifetime, seal } => {
                self.put_ticket(*lifetime, seal.sealed.as_slice());
            }
            TicketAnswer::Declined => self.put_nack(),
        }
    }
}

/// So many octets of data give a ticket that a peer keeps.
fn is_ticket_size(size: usize) -> bool
    ensures { result ≡ is_ticket_size size }
{
    LIFETIME_OCTETS <= size && size <= TICKET_DATA_OCTETS
}

/// The data of a payload that gives a ticket.
fn ticket_data(payload: &Payload) -> Option<&[u8]>
    ensures { MatchOption result
        (ticket_data (payload_value payload.now) ≡ None)
        (λ octets. ticket_data (payload_value payload.now) ≡ Some octets.now) }
{
    match payload {
        Payload::Notify(notify)
            if notify.kind == TICKET_LT_OPAQUE && is_ticket_size(notify.content.as_slice().len()) =>
            { Some(notify.content.as_slice()) }
        _ => None,
    }
}

/// The data of the first payload that gives a ticket.
fn first_ticket(payloads: &[Payload]) -> Option<&[u8]>
    ensures { MatchOption result
        (first_ticket (map payload_value payloads.now) ≡ None)
        (λ octets. (first_ticket (map payload_value payloads.now) ≡ Some octets.now)
        × (is_ticket_size (length octets.now) ≡ true)) }
{
    let mut rest = payloads;
    while let [payload, others @ ..] = rest {
        if let Some(octets) = ticket_data(payload) {
            return Some(octets);
        }
        rest = others;
    }
    None
}

/// A copy of the ticket in such data. An error is want of memory.
fn given_ticket(alloc: Global, given: &[u8]) -> Result<GivenTicket, Memory>
    requires { is_ticket_size (length given.now) ≡ true }
    ensures { IfOk result (λ ticket. ticket_value ticket ≡ ticket_of given.now) }
{
    let (lifetime, ticket) = given.split_at(LIFETIME_OCTETS);
    let mut octets = Octets::with_room(alloc, ticket.len())?;
    octets.extend(ticket).unwrap();
    Ok(GivenTicket {
        lifetime: read_u32(lifetime),
        octets,
    })
}

/// What the response with these payloads says of tickets (RFC 5723, section 4.2). The first
/// TICKET_LT_OPAQUE counts that has a lifetime and a ticket of at most 512 octets; only where there
/// is none does a TICKET_NACK count. An error is want of memory.
pub fn ticket_reply(alloc: Global, payloads: &Payloads) -> Result<TicketReply, Memory>
    ensures { IfOk result (IsTicketReply payloads.now) }
{
    match first_ticket(payloads.as_slice()) {
        Some(given) => Ok(TicketReply::Given(given_ticket(alloc, given)?)),
        None if payloads.first_notify(TICKET_NACK).is_some() => Ok(TicketReply::Declined),
        None => Ok(TicketReply::Nothing),
    }
}
