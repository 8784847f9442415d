ghost use Rattle.std.specs.Prelude.{◌≡◌, ◌+◌, ◌≤◌, [], length, IfOk};
ghost use Rattle.ike_encoding.specs.Messages.{header_written};
ghost use Rattle.ike_sas.specs.Drafts.{IsEmptyFor};
ghost use Rattle.resume_exchange.specs.FirstMessages.{answer_header};
ghost use Rattle.resume_answers.specs.Octets.{nack_answer, nonce_answer, redirect_answer};
ghost use Rattle.resume_answers.specs.declared.octets.TheConstants.{LONGEST_ANSWER, NONCE_ANSWER};

use ha_base::{GatewayId, Memory, Octets};
use ike_encoding::header_octets;
use ike_sas::IKE_SESSION_RESUME;
use ike_values::notify_types::{REDIRECT, TICKET_NACK};
use ike_values::payload_types::{NONCE, NOTIFY};
use ike_values::{HEADER_OCTETS, Header};
use resume_exchange::{
    NONCE_OCTETS, NONCE_PAYLOAD, NOTIFY_FRONT, copy_of, put_gateway, put_nonce, put_notify,
};
use std::alloc::Global;

/// How many octets an answer with a nonce has.
pub const NONCE_ANSWER: usize = HEADER_OCTETS + NONCE_PAYLOAD;

/// How many octets an answer has at most: a redirect with the longest identity of a gateway.
pub const LONGEST_ANSWER: usize = HEADER_OCTETS + NOTIFY_FRONT + 2 + 255 + NONCE_OCTETS;

/// The header of an answer.
fn answer_header(spii: u64, spir: u64) -> Header
    ensures { result ≡ answer_header spii spir }
{
    Header {
        spii,
        spir,
        exchange: IKE_SESSION_RESUME,
        initiator: false,
        response: true,
        id: 0,
    }
}

/// Writes an answer that holds a nonce. There is room for it.
fn put_nonce_answer(out: &mut Octets, spii: u64, spir: u64, nr: &[u8; NONCE_OCTETS])
    requires { IsEmptyFor NONCE_ANSWER out.old }
    ensures { out.new.octets ≡ nonce_answer spii spir nr.now }
{
    let header = answer_header(spii, spir);
    out.extend(&header_octets(&header, NONCE, NONCE_ANSWER as u32))
        .unwrap();
    put_nonce(out, 0, nr);
}

/// Writes an answer that does not take the ticket. There is room for it.
fn put_nack_answer(out: &mut Octets, spii: u64)
    requires { IsEmptyFor (28 + 8) out.old }
    ensures { out.new.octets ≡ nack_answer spii }
{
    let length = HEADER_OCTETS + NOTIFY_FRONT;
    let header = answer_header(spii, 0);
    out.extend(&header_octets(&header, NOTIFY, length as u32))
        .unwrap();
    put_notify(out, 0, TICKET_NACK, &[]);
}

/// Writes an answer that sends the peer to a gateway. There is room for it.
fn put_redirect_answer(out: &mut Octets, spii: u64, gateway: &GatewayId, ni: &[u8; NONCE_OCTETS])
    requires { IsEmptyFor LONGEST_ANSWER out.old }
    ensures { out.new.octets ≡ redirect_answer spii gateway.now ni.now }
{
    let length = HEADER_OCTETS + NOTIFY_FRONT + 2 + gateway.octets.as_slice().len() + NONCE_OCTETS;
    let header = answer_header(spii, 0);
    out.extend(&header_octets(&header, NOTIFY, length as u32))
        .unwrap();
    put_gateway(out, 0, REDIRECT, gateway, ni);
}

/// Memory for what is answered and kept of a request, which is taken before the keeper is asked.
#[derive(Drop)]
pub(crate) struct Room {
    /// The request.
    request: Octets,
    /// Room for an answer with a nonce, to be kept.
    kept: Octets,
    /// Room for any answer.
    given: Octets,
    ghost kept_fits: { IsEmptyFor NONCE_ANSWER kept },
    ghost given_fits: { IsEmptyFor LONGEST_ANSWER given },
}

/// What is kept and given of a request whose ticket is taken.
pub(crate) struct Copies {
    pub(crate) request: Octets,
    pub(crate) response: Octets,
    pub(crate) given: Octets,
}

impl Room {
    /// Room for the answer to a request of these octets. An error is want of memory.
    pub(crate) fn new(alloc: Global, bytes: &[u8]) -> Result<Room, Memory>
        ensures { IfOk result (λ room. room.request.octets ≡ bytes.now) }
    {
        Ok(Room {
            request: copy_of(alloc, bytes)?,
            kept: Octets::with_room(alloc, NONCE_ANSWER)?,
            given: Octets::with_room(alloc, LONGEST_ANSWER)?,
        })
    }

    /// The answer that does not take the ticket.
    pub(crate) fn nack(self, spii: u64) -> Octets
        ensures { result.octets ≡ nack_answer spii }
    {
        let Room { mut given, .. } = self;
        put_nack_answer(&mut given, spii);
        given
    }

    /// The answer that sends the peer to a gateway.
    pub(crate) fn redirect(self, spii: u64, gateway: &GatewayId, ni: &[u8; NONCE_OCTETS]) -> Octets
        ensures { result.octets ≡ redirect_answer spii gateway.now ni.now }
    {
        let Room { mut given, .. } = self;
        put_redirect_answer(&mut given, spii, gateway, ni);
        given
    }

    /// The answer that holds a nonce, once to be kept and once to be given.
    pub(crate) fn nonce(self, spii: u64, spir: u64, nr: &[u8; NONCE_OCTETS]) -> Copies
        ensures request { result.request.octets ≡ self.request.octets }
        ensures response { result.response.octets ≡ nonce_answer spii spir nr.now }
        ensures given { result.given.octets ≡ nonce_answer spii spir nr.now }
    {
        let Room {
            request,
            kept: mut response,
            mut given,
        } = self;
        put_nonce_answer(&mut response, spii, spir, nr);
        put_nonce_answer(&mut given, spii, spir, nr);
        Copies {
            request,
            response,
            given,
        }
    }
}
