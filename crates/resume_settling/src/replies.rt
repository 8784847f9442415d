ghost use Rattle.std.specs.Prelude.{◌≡◌, [], ◌∷◌, IfOk};
ghost use Rattle.ike_values.specs.Notifications.{notify_of};
ghost use Rattle.resume_settling.specs.Replies.{Replies, own_code};

use ha_base::{End, Identity, Memory};
use ike_sas::SentMessage;
use key_schedule::auth_code;
use resume_exchange::{HalfOpen, Ready, auth_header, id_body, sa_keys, sealing_key};
use sk_payload::Frame;
use std::alloc::Global;

/// A message of one notification without data, made ready to be sealed. An error is want of memory.
pub(crate) fn refusal(alloc: Global, kind: u16) -> Result<Ready, Memory>
    ensures { IfOk result (λ ready. ready ≡ notify_of kind [] ∷ []) }
{
    let mut frame = Frame::new(alloc)?;
    frame.put_notify(kind, &[]);
    Ready::new(alloc, frame)
}

/// Seals the member's answer to the IKE_AUTH. It takes no memory.
pub(crate) fn reply(half_open: &HalfOpen, ready: Ready) -> SentMessage
    ensures { Replies half_open.now ready result }
{
    let content = &half_open.content;
    let from = &half_open.derivation;
    let key = sealing_key(&content.sk_d, content.size, from, End::Cluster);
    ready.seal(&key, &auth_header(End::Cluster, from))
}

/// The AUTH code of a member of this identity.
pub(crate) fn own_code(identity: &Identity, half_open: &HalfOpen) -> [u8; 32]
    ensures { result ≡ own_code identity.now half_open.now }
{
    let from = &half_open.derivation;
    let keys = sa_keys(&half_open.content.sk_d, half_open.content.size, from);
    let body = id_body(identity);
    auth_code(
        &keys.sk_pr,
        half_open.response.as_slice(),
        &from.ni,
        body.as_slice(),
    )
}
