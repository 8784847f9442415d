ghost use Rattle.std.specs.Prelude.{◌≡◌, ◌+◌, ◌<◌, ◌≤◌, ◌++◌, ◌∷◌, [], ◌↔◌, ℕ, List, None, Some, MatchOption, IfNone, IfSome, IsSome, length};
ghost use Rattle.ha_base.specs.declared.services.TheConstants.{MOST_REQUESTS};
ghost use Rattle.ike_sas.specs.Answers.{answer_payloads, data_in, data_of, error_in, error_of, error_payload, inner_error, notify_type_of, reply_payloads};

use crate::draft::Draft;
use crate::exchanges::{CREATE_CHILD_SA, IKE_AUTH};
use ha_base::{LONGEST_REQUEST, Reply, Service};
use ike_grammar::Reason;
use ike_values::Payloads;
use ike_values::notify_types::{
    INVALID_SYNTAX, NO_PROPOSAL_CHOSEN, REPLY_DATA, REQUEST_DATA, UNSUPPORTED_CRITICAL_PAYLOAD,
};
use sk_payload::Opened;

/// How many octets a service's reply has at most.
pub const LONGEST_REPLY: usize = 256;

/// How many octets of inner payloads an answer has at most: a notification with the longest reply.
pub const ANSWER_OCTETS: usize = 8 + LONGEST_REPLY;

/// The error that a new request is answered with (RFC 7296, section 3.10.1). Nothing is executed
/// then.
#[derive(Clone, Copy, Debug, PartialEq, Eq)]
pub enum RequestError {
    /// An inner payload of this unknown type is critical (RFC 7296, section 2.5).
    UnsupportedCriticalPayload(u8),
    /// The inner payloads are faulty, the exchange is IKE_AUTH, or the request's data are too long.
    InvalidSyntax,
    /// The exchange is CREATE_CHILD_SA: no proposal fits.
    NoProposalChosen,
}

impl RequestError {
    /// The type of its notification.
    pub fn notify_type(self) -> u16
        ensures { result ≡ notify_type_of self }
    {
        match self {
            RequestError::UnsupportedCriticalPayload(_) => UNSUPPORTED_CRITICAL_PAYLOAD,
            RequestError::InvalidSyntax => INVALID_SYNTAX,
            RequestError::NoProposalChosen => NO_PROPOSAL_CHOSEN,
        }
    }
}

/// The error for faulty inner payloads.
fn inner_error(reason: Reason) -> RequestError
    ensures { result ≡ inner_error reason }
{
    match reason {
        Reason::UnknownCritical(kind) => RequestError::UnsupportedCriticalPayload(kind),
        _ => RequestError::InvalidSyntax,
    }
}

/// The data of a request to a service, and no octets where there is no such notification.
fn data_in(payloads: &Payloads) -> &[u8]
    ensures { result.now ≡ data_in payloads.now }
{
    match payloads.first_notify(REQUEST_DATA) {
        Some(octets) => octets,
        None => &[],
    }
}

/// The error for a request of this exchange type with good inner payloads.
fn error_in(exchange: u8, payloads: &Payloads) -> Option<RequestError>
    ensures { result ≡ error_in exchange payloads.now }
{
    if exchange == IKE_AUTH {
        Some(RequestError::InvalidSyntax)
    } else if exchange == CREATE_CHILD_SA {
        Some(RequestError::NoProposalChosen)
    } else if data_in(payloads).len() > LONGEST_REQUEST {
        Some(RequestError::InvalidSyntax)
    } else {
        None
    }
}

/// The error that a new request is to be answered with, and none where it is to be executed.
pub fn error_of(request: &Opened) -> Option<RequestError>
    ensures { result ≡ error_of request.now }
{
    match &request.inner {
        Ok(payloads) => error_in(request.header.exchange, payloads),
        Err(bad) => Some(inner_error(bad.reason)),
    }
}

/// The data that a request has for the service: those of the first notification that asks for an
/// execution, and no octets where there is none, or the inner payloads are faulty.
pub fn data_of(request: &Opened) -> &[u8]
    ensures { result.now ≡ data_of request.now.inner }
{
    match &request.inner {
        Ok(payloads) => data_in(payloads),
        Err(_) => &[],
    }
}

/// Executes a new request, and gives the reply. None, and then nothing is executed, exactly where
/// it is to be answered with an error.
pub fn execute(request: &Opened, service: &mut Box<dyn Service>) -> Option<Reply>
    requires { count service.old < MOST_REQUESTS }
    ensures refused { MatchOption result (IsSome (error_of request.now))
        (λ _. error_of request.now ≡ None) }
    ensures unchanged { IfNone result (service.new ≡ service.old) }
    ensures counted { IfSome result (λ _. count service.new ≡ count service.old + 1) }
    ensures last { IfSome result (λ _. last service.new ≡ Some (data_of request.now.inner)) }
    ensures gives { IfSome result (λ reply. gives service.old (count service.old + 1)
        (data_of request.now.inner) reply.octets) }
    ensures same { (n : ℕ) (asked reply : List ℕ)
        → gives service.new n asked reply ↔ gives service.old n asked reply }
{
    if error_of(request).is_some() {
        return None;
    }
    Some(service.execute(data_of(request)))
}

impl Draft {
    /// Appends the notification of an error.
    fn put_error(&mut self, error: RequestError)
        requires { 9 ≤ self.old.room }
        ensures payloads { self.new.payloads ≡ self.old.payloads ++ error_payload error ∷ [] }
        ensures room { self.old.room ≤ self.new.room + 9 }
    {
        match error {
            RequestError::UnsupportedCriticalPayload(kind) => {
                self.put_notify(error.notify_type(), &[kind]);
            }
            _ => self.put_notify(error.notify_type(), &[]),
        }
    }

    /// Appends the reply to a request, where it asked for one.
    fn put_reply(&mut self, request: &Opened, reply: &[u8])
        requires room { 8 + length reply.now ≤ self.old.room }
        ensures payloads { self.new.payloads
            ≡ self.old.payloads ++ reply_payloads request.now.inner reply.now }
        ensures room { self.old.room ≤ self.new.room + 8 + length reply.now }
    {
        match &request.inner {
            Ok(payloads) if payloads.first_notify(REQUEST_DATA).is_some() => {
                self.put_notify(REPLY_DATA, reply);
            }
            _ => {}
        }
    }

    /// Appends what a new request is answered with: the error that refuses it, or else the reply
    /// of the service that executed it, where the request had data for it. There is room for it.
    /// No memory is taken.
    pub fn put_answer(&mut self, request: &Opened, reply: &[u8])
        requires room { ANSWER_OCTETS ≤ self.old.room }
        requires short { length reply.now ≤ LONGEST_REPLY }
        ensures payloads { self.new.payloads
            ≡ self.old.payloads ++ answer_payloads request.now reply.now }
        ensures room { self.old.room ≤ self.new.room + ANSWER_OCTETS }
    {
        match error_of(request) {
            Some(error) => self.put_error(error),
            None => self.put_reply(request, reply),
        }
    }
}
