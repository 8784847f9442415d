ghost use Rattle.std.specs.Prelude.{◌≡◌, IfOk};
ghost use Rattle.ike_values.specs.Headers.{IsMessage};
ghost use Rattle.resume_settling.specs.Opening.{IsAuthOpened, is_auth_request};

use ha_base::{End, Memory};
use ike_sas::IKE_AUTH;
use ike_values::{Header, Message, Payloads};
use resume_exchange::{HalfOpen, ResumeDrop, sealing_key};
use sk_payload::{OpenFault, open_decoded};
use std::alloc::Global;

/// Whether the header is that of the peer's IKE_AUTH.
fn is_auth_request(header: &Header) -> bool
    ensures { result ≡ is_auth_request header.now }
{
    header.exchange == IKE_AUTH && header.id == 1 && !header.response
}

/// The inner payloads of an IKE_AUTH for the half-open association, or why the message is dropped.
/// An error is want of memory.
pub(crate) fn open_auth(
    alloc: Global,
    half_open: &HalfOpen,
    message: &Message,
    bytes: &[u8],
) -> Result<Result<Payloads, ResumeDrop>, Memory>
    requires { IsMessage message.now bytes.now }
    ensures { IfOk result (IsAuthOpened half_open.now message.now.header bytes.now) }
{
    if !is_auth_request(&message.header) {
        return Ok(Err(ResumeDrop::Exchange(message.header.exchange)));
    }
    let content = &half_open.content;
    let key = sealing_key(
        &content.sk_d,
        content.size,
        &half_open.derivation,
        End::Peer,
    );
    match open_decoded(alloc, &key, bytes, message) {
        Ok(opened) => Ok(match opened.inner {
            Ok(payloads) => Ok(payloads),
            Err(bad) => Err(ResumeDrop::Bad(bad)),
        }),
        Err(OpenFault::NotOpened) => Ok(Err(ResumeDrop::NotOpened)),
        Err(OpenFault::Memory) => Err(Memory),
    }
}
