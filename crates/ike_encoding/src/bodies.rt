//! Bodies of payloads.

ghost use Rattle.std.specs.Prelude.{◌≡◌, ◌+◌, ◌++◌, ◌∷◌, ◌<◌, ◌≤◌, length, IsOk, OnOk};
ghost use Rattle.std.specs.Int.{w64, to_be_bytes};
ghost use Rattle.ike_values.specs.PayloadView.{payload_value};
ghost use Rattle.ike_values.specs.Spelling.{two};
ghost use Rattle.ike_values.specs.Writing.{numbered_written, body_written};
ghost use Rattle.ike_values.specs.Validity.{FitsBody};

use crate::octets::put_two;
use crate::proposals::put_proposals;
use crate::selectors::put_traffic;
use ha_base::{Memory, Octets};
use ike_values::{DeleteBody, NotifyBody, Payload, SkBody};

/// Appends the spelling of a payload's body with reserved bits 0. The body has a spelling. An error
/// is want of memory, and never comes where there is room for the spelling; a part of it may then
/// stand in `out`.
pub fn encode_body(payload: &Payload, out: &mut Octets) -> Result<(), Memory>
    requires { FitsBody (payload_value payload.now) }
    ensures written { OnOk result (out.new.octets ≡ out.old.octets
        ++ body_written (payload_value payload.now)) }
    ensures spare { OnOk result (out.old.spare ≤ out.new.spare
        + length (body_written (payload_value payload.now))) }
    ensures room { length (body_written (payload_value payload.now)) ≤ out.old.spare → IsOk result }
{
    match payload {
        Payload::Sa(proposals) => put_proposals(out, proposals.as_slice()),
        Payload::Ke(octets)
        | Payload::Cert(octets)
        | Payload::CertReq(octets)
        | Payload::Nonce(octets)
        | Payload::Vendor(octets)
        | Payload::Cp(octets)
        | Payload::Eap(octets) => out.extend(octets.as_slice()),
        Payload::IdI(id) | Payload::IdR(id) => put_numbered(out, id.kind, id.content.as_slice()),
        Payload::Auth(auth) => put_numbered(out, auth.method, auth.content.as_slice()),
        Payload::Notify(notify) => put_notify(out, notify),
        Payload::Delete(delete) => put_delete(out, delete),
        Payload::TsI(selectors) | Payload::TsR(selectors) => put_traffic(out, selectors.as_slice()),
        Payload::Sk(sk) => put_sk(out, sk),
        Payload::Other(other) => out.extend(other.body.as_slice()),
    }
}

fn put_numbered(out: &mut Octets, number: u8, content: &[u8]) -> Result<(), Memory>
    ensures written { OnOk result (out.new.octets ≡ out.old.octets
        ++ numbered_written number content.now) }
    ensures spare { OnOk result (out.old.spare ≤ out.new.spare
        + length (numbered_written number content.now)) }
    ensures room { length (numbered_written number content.now) ≤ out.old.spare → IsOk result }
{
    out.extend(&[number, 0, 0, 0])?;
    out.extend(content)
}

fn put_notify(out: &mut Octets, notify: &NotifyBody) -> Result<(), Memory>
    requires { length notify.now.spi.octets < 256 }
    ensures written { OnOk result (out.new.octets ≡ out.old.octets
        ++ (notify.now.protocol ∷ length notify.now.spi.octets ∷ two notify.now.kind
        ++ notify.now.spi.octets ++ notify.now.content.octets)) }
    ensures spare { OnOk result (out.old.spare ≤ out.new.spare + length (notify.now.protocol
        ∷ length notify.now.spi.octets ∷ two notify.now.kind ++ notify.now.spi.octets
        ++ notify.now.content.octets)) }
    ensures room { length (notify.now.protocol ∷ length notify.now.spi.octets ∷ two notify.now.kind
        ++ notify.now.spi.octets ++ notify.now.content.octets) ≤ out.old.spare → IsOk result }
{
    let spi = notify.spi.as_slice();
    out.extend(&[notify.protocol, spi.len() as u8])?;
    put_two(out, notify.kind)?;
    out.extend(spi)?;
    out.extend(notify.content.as_slice())
}

fn put_delete(out: &mut Octets, delete: &DeleteBody) -> Result<(), Memory>
    ensures written { OnOk result (out.new.octets ≡ out.old.octets
        ++ (delete.now.protocol ∷ delete.now.size ∷ two delete.now.number
        ++ delete.now.spis.octets)) }
    ensures spare { OnOk result (out.old.spare ≤ out.new.spare + length (delete.now.protocol
        ∷ delete.now.size ∷ two delete.now.number ++ delete.now.spis.octets)) }
    ensures room { length (delete.now.protocol ∷ delete.now.size ∷ two delete.now.number
        ++ delete.now.spis.octets) ≤ out.old.spare → IsOk result }
{
    out.extend(&[delete.protocol, delete.size])?;
    put_two(out, delete.number)?;
    out.extend(delete.spis.as_slice())
}

fn put_sk(out: &mut Octets, sk: &SkBody) -> Result<(), Memory>
    ensures written { OnOk result (out.new.octets ≡ out.old.octets
        ++ (to_be_bytes w64 sk.now.iv ++ sk.now.ciphertext.octets ++ sk.now.icv)) }
    ensures spare { OnOk result (out.old.spare ≤ out.new.spare + length (to_be_bytes w64 sk.now.iv
        ++ sk.now.ciphertext.octets ++ sk.now.icv)) }
    ensures room { length (to_be_bytes w64 sk.now.iv ++ sk.now.ciphertext.octets
        ++ sk.now.icv) ≤ out.old.spare → IsOk result }
{
    out.extend(&sk.iv.to_be_bytes())?;
    out.extend(sk.ciphertext.as_slice())?;
    out.extend(&sk.icv)
}
