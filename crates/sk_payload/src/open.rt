ghost use Rattle.std.specs.Prelude.{◌≡◌, ◌≢◌, ◌<◌, ◌≤◌, ◌∷◌, [], length, IfOk, IfErr, IfSome, IfNone};
ghost use Rattle.ike_values.specs.Values.{SkValue, sk};
ghost use Rattle.ike_values.specs.PayloadView.{sk_value};
ghost use Rattle.ike_values.specs.Headers.{IsMessage};
ghost use Rattle.sk_payload.specs.Message.{only_sk, IsInner};
ghost use Rattle.sk_payload.specs.Answers.{IsAnswer, IsMessageFault, IsOpening, IsTextOpened, IsSealedTextFault};
ghost use Rattle.sk_payload.specs.declared.not_read.OpenFault.TheVariants as fault;

use crate::front::ASSOCIATED;
use crate::not_read::{NotRead, OpenFault};
use aes_gcm::{Key, MAX_LEN, open_in_place};
use ike_grammar::{Bad, Reason, Unread, decode_chain, decode_message, one_message};
use ike_values::{Header, Message, Payload, Payloads, SkBody};
use std::alloc::Global;

/// A message that was opened.
#[derive(Debug, Drop)]
pub struct Opened {
    pub header: Header,
    /// The inner payloads, or the first fault of the plaintext, its place counted from the first
    /// octet of the plaintext.
    pub inner: Result<Payloads, Bad>,
}

/// Opens a message whose only payload is SK (RFC 7296, section 3.14; RFC 5282).
///
/// `Bad` is the first fault of the message as a whole. `NotOpened` comes where SK is not the only
/// payload, or its integrity check value does not hold; nothing of the plaintext is read then.
/// `Memory` is want of memory.
pub fn open_message(alloc: Global, key: &Key, bytes: &[u8]) -> Result<Opened, NotRead>
    ensures { IsAnswer key.now.octets bytes.now result }
{
    let message = decoded(alloc, bytes)?;
    match open_decoded(alloc, key, bytes, &message) {
        Ok(opened) => Ok(opened),
        Err(OpenFault::NotOpened) => Err(NotRead::NotOpened),
        Err(OpenFault::Memory) => Err(NotRead::Memory),
    }
}

fn decoded(alloc: Global, bytes: &[u8]) -> Result<Message, NotRead>
    ensures found { IfOk result (λ message. IsMessage message bytes.now) }
    ensures refused { IfErr result (IsMessageFault bytes.now) }
{
    match decode_message(alloc, bytes) {
        Ok(message) => Ok(message),
        Err(Unread::Bad(bad)) => Err(NotRead::Bad(bad)),
        Err(Unread::Memory(_)) => Err(NotRead::Memory),
    }
}

/// Opens a message whose only payload is SK, and which these octets were decoded to before. The
/// ciphertext is not decoded again.
///
/// `NotOpened` comes where SK is not the only payload, or its integrity check value does not hold;
/// nothing of the plaintext is read then. `Memory` is want of memory.
pub fn open_decoded(
    alloc: Global,
    key: &Key,
    bytes: &[u8],
    message: &Message,
) -> Result<Opened, OpenFault>
    requires { IsMessage message.now bytes.now }
    ensures { IsOpening key.now.octets bytes.now result }
{
    one_message();
    match body_of(&message.payloads) {
        Some(body) => open_body(alloc, key, bytes, message.header, body),
        None => Err(OpenFault::NotOpened),
    }
}

/// The body of SK, where it is the only payload.
fn body_of(payloads: &Payloads) -> Option<&SkBody>
    ensures some { IfSome result (λ body. payloads.now ≡ sk (sk_value body.now) ∷ []) }
    ensures none { IfNone result ((body : SkValue) → payloads.now ≢ sk body ∷ []) }
{
    match payloads.as_slice() {
        [Payload::Sk(body)] => Some(body),
        _ => None,
    }
}

fn open_body(
    alloc: Global,
    key: &Key,
    bytes: &[u8],
    header: Header,
    body: &SkBody,
) -> Result<Opened, OpenFault>
    requires { IsMessage (only_sk header (sk_value body.now)) bytes.now }
    ensures { IsOpening key.now.octets bytes.now result }
{
    one_message();
    let plain = open_text(alloc, key, bytes, body)?;
    let inner = inner_of(alloc, body.first, &plain)?;
    Ok(Opened { header, inner })
}

/// The plaintext that is sealed in the body of SK in a message of these octets.
fn open_text(alloc: Global, key: &Key, bytes: &[u8], body: &SkBody) -> Result<Vec<u8>, OpenFault>
    requires long { 32 ≤ length bytes.now }
    requires size { length body.now.ciphertext.octets ≤ MAX_LEN }
    ensures opened { IfOk result
        (λ plain. IsTextOpened key.now.octets (sk_value body.now) bytes.now plain.items) }
    ensures length { IfOk result
        (λ plain. length plain.items ≡ length body.now.ciphertext.octets) }
    ensures refused { IfErr result (IsSealedTextFault key.now.octets
        (sk_value body.now) bytes.now) }
{
    let mut plain = Vec::new(alloc);
    if plain.extend_from_slice(body.ciphertext.as_slice()).is_err() {
        return Err(OpenFault::Memory);
    }
    if !open_in_place(key, body.iv, &bytes[..ASSOCIATED], &mut plain, &body.icv) {
        return Err(OpenFault::NotOpened);
    }
    Ok(plain)
}

/// The inner payloads of a plaintext, or its first fault.
fn inner_of(alloc: Global, first: u8, plain: &[u8]) -> Result<Result<Payloads, Bad>, OpenFault>
    requires { 0 < length plain.now }
    ensures inner { IfOk result (IsInner first plain.now) }
    ensures memory { IfErr result (λ why. why ≡ fault.Memory) }
{
    let last = plain.len() - 1;
    let padding = usize::from(plain[last]);
    if last < padding {
        return Ok(Err(Bad {
            place: last,
            reason: Reason::Length,
        }));
    }
    match decode_chain(alloc, first, &plain[..last - padding], true) {
        Ok(payloads) => Ok(Ok(payloads)),
        Err(Unread::Bad(bad)) => Ok(Err(bad)),
        Err(Unread::Memory(_)) => Err(OpenFault::Memory),
    }
}
