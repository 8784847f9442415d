//! Bodies without an inner list.

ghost use Rattle.std.specs.Prelude.{◌≡◌, ◌+◌, ◌≤◌, length};
ghost use Rattle.ike_values.specs.PayloadView.{id_value, auth_value, notify_value, delete_value, sk_value};
ghost use Rattle.ike_grammar.specs.Faults.{Gives};
ghost use Rattle.ike_grammar.specs.Bodies.{id_at, auth_at, nonce_at, notify_at, delete_at, sk_at};

use crate::fault::{Unread, bad_at};
use crate::octets::{octets_of, place, two};
use ha_base::{Octets, read_u64};
use ike_values::{AuthBody, DeleteBody, IdBody, NotifyBody, Reason, SkBody};
use std::alloc::Global;

#[tactic(auto, unfolding(crate::specs::Bodies::id_at))]
pub(crate) fn id_of(alloc: Global, end: usize, body: &[u8]) -> Result<IdBody, Unread>
    requires { length body.now ≤ end }
    ensures { Gives id_value result (id_at end body.now) }
{
    if body.len() < 4 {
        return Err(bad_at(place(end, body), Reason::Short));
    }
    let (_, content) = body.split_at(4);
    Ok(IdBody {
        kind: body[0],
        content: octets_of(alloc, content)?,
    })
}

#[tactic(auto, unfolding(crate::specs::Bodies::auth_at))]
pub(crate) fn auth_of(alloc: Global, end: usize, body: &[u8]) -> Result<AuthBody, Unread>
    requires { length body.now ≤ end }
    ensures { Gives auth_value result (auth_at end body.now) }
{
    if body.len() < 4 {
        return Err(bad_at(place(end, body), Reason::Short));
    }
    let (_, content) = body.split_at(4);
    Ok(AuthBody {
        method: body[0],
        content: octets_of(alloc, content)?,
    })
}

#[tactic(auto, unfolding(crate::specs::Bodies::nonce_at))]
pub(crate) fn nonce_of(alloc: Global, end: usize, body: &[u8]) -> Result<Octets, Unread>
    requires { length body.now + 4 ≤ end }
    ensures { Gives (λ o. o.octets) result (nonce_at end body.now) }
{
    if body.len() < 16 || body.len() > 256 {
        return Err(bad_at(place(end, body) - 2, Reason::Length));
    }
    Ok(octets_of(alloc, body)?)
}

#[tactic(auto, unfolding(crate::specs::Bodies::notify_at))]
pub(crate) fn notify_of(alloc: Global, end: usize, body: &[u8]) -> Result<NotifyBody, Unread>
    requires { length body.now ≤ end }
    ensures { Gives notify_value result (notify_at end body.now) }
{
    if body.len() < 4 {
        return Err(bad_at(place(end, body), Reason::Short));
    }
    let size = body[1] as usize;
    let (_, rest) = body.split_at(4);
    if rest.len() < size {
        return Err(bad_at(place(end, body) + 1, Reason::Length));
    }
    let (spi, content) = rest.split_at(size);
    Ok(NotifyBody {
        protocol: body[0],
        spi: octets_of(alloc, spi)?,
        kind: two(body, 2),
        content: octets_of(alloc, content)?,
    })
}

#[tactic(auto, unfolding(crate::specs::Bodies::delete_at))]
pub(crate) fn delete_of(alloc: Global, end: usize, body: &[u8]) -> Result<DeleteBody, Unread>
    requires { length body.now ≤ end }
    ensures { Gives delete_value result (delete_at end body.now) }
{
    if body.len() < 4 {
        return Err(bad_at(place(end, body), Reason::Short));
    }
    let number = two(body, 2);
    let (_, spis) = body.split_at(4);
    if spis.len() != body[1] as usize * number as usize {
        return Err(bad_at(place(end, body) + 2, Reason::Length));
    }
    Ok(DeleteBody {
        protocol: body[0],
        size: body[1],
        number,
        spis: octets_of(alloc, spis)?,
    })
}

#[tactic(auto, unfolding(crate::specs::Bodies::sk_at))]
pub(crate) fn sk_of(alloc: Global, end: usize, first: u8, body: &[u8]) -> Result<SkBody, Unread>
    requires { length body.now ≤ end }
    ensures { Gives sk_value result (sk_at end first body.now) }
{
    if body.len() < 25 {
        return Err(bad_at(place(end, body), Reason::Short));
    }
    let (iv, sealed) = body.split_at(8);
    let (ciphertext, code) = sealed.split_at(sealed.len() - 16);
    let mut icv = [0; 16];
    icv.copy_from_slice(code);
    Ok(SkBody {
        first,
        iv: read_u64(iv),
        ciphertext: octets_of(alloc, ciphertext)?,
        icv,
    })
}
