ghost use Rattle.std.specs.Prelude.{◌≡◌};
ghost use Rattle.ike_grammar.specs.Kinds.{payload_kind, is_sk, is_other};

use ike_values::payload_types;

/// The payload types of RFC 7296, section 3.2.
#[derive(Clone, Copy)]
pub(crate) enum Kind {
    Sa,
    Ke,
    IdI,
    IdR,
    Cert,
    CertReq,
    Auth,
    Nonce,
    Notify,
    Delete,
    Vendor,
    TsI,
    TsR,
    Sk,
    Cp,
    Eap,
    Other,
}

pub(crate) fn kind_of(number: u8) -> Kind
    ensures { result ≡ payload_kind number }
{
    match number {
        payload_types::SA => Kind::Sa,
        payload_types::KE => Kind::Ke,
        payload_types::IDI => Kind::IdI,
        payload_types::IDR => Kind::IdR,
        payload_types::CERT => Kind::Cert,
        payload_types::CERTREQ => Kind::CertReq,
        payload_types::AUTH => Kind::Auth,
        payload_types::NONCE => Kind::Nonce,
        payload_types::NOTIFY => Kind::Notify,
        payload_types::DELETE => Kind::Delete,
        payload_types::VENDOR => Kind::Vendor,
        payload_types::TSI => Kind::TsI,
        payload_types::TSR => Kind::TsR,
        payload_types::SK => Kind::Sk,
        payload_types::CP => Kind::Cp,
        payload_types::EAP => Kind::Eap,
        _ => Kind::Other,
    }
}

pub(crate) fn is_sk(kind: Kind) -> bool
    ensures { result ≡ is_sk kind }
{
    match kind {
        Kind::Sk => true,
        _ => false,
    }
}

pub(crate) fn is_other(kind: Kind) -> bool
    ensures { result ≡ is_other kind }
{
    match kind {
        Kind::Other => true,
        _ => false,
    }
}
