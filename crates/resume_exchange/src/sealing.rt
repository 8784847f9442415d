ghost use Rattle.std.specs.Prelude.{◌≡◌, ◌+◌, length, IfOk};
ghost use Rattle.ha_base.specs.KeySizes.{HasKeySize, sealing_octets};
ghost use Rattle.ike_sas.specs.Drafts.{IsEmptyFor};
ghost use Rattle.ike_sas.specs.Sending.{SendsIke};
ghost use Rattle.resume_exchange.specs.ResumedKeys.{iv_counter, resumed_sa_keys, sealing_key};
ghost use Rattle.sk_payload.specs.Message.{plain_of};
ghost use Rattle.sk_payload.specs.declared.front.TheConstants.{MESSAGE_OVERHEAD};

use aes_gcm::Key;
use events::{Datagram, Medium, Seal};
use ha_base::{CounterName, Derivation, End, KeySize, Kind, Memory, Octets, Origin, SaKeys};
use ike_sas::SentMessage;
use ike_values::Header;
use key_schedule::resumed_keys;
use sk_payload::{Frame, MESSAGE_OVERHEAD, seal_message};
use spend_once::{Lot, Number};
use std::alloc::Global;
use std::marker::Model;

/// The initialization vector of an end's first message, which is its IKE_AUTH.
pub const FIRST_IV: u64 = 1;

/// The keys of the resumed association.
pub fn sa_keys(sk_d: &[u8; 32], size: KeySize, from: &Derivation) -> SaKeys
    ensures keys { result ≡ resumed_sa_keys sk_d.now size from.now }
    ensures peer_key { HasKeySize result.sk_ei }
    ensures member_key { HasKeySize result.sk_er }
    ensures peer_size { length result.sk_ei ≡ sealing_octets size }
    ensures member_size { length result.sk_er ≡ sealing_octets size }
{
    resumed_keys(sk_d, size, &from.ni, &from.nr, from.spii, from.spir)
}

/// The counter whose numbers are the IVs of what an end seals.
fn iv_counter(from: &Derivation, end: End) -> CounterName
    ensures { result ≡ iv_counter from.now end }
{
    CounterName {
        origin: Origin::Resumed(*from),
        kind: Kind::Iv,
        child: 0,
        end,
    }
}

/// The key with which an end seals.
pub fn sealing_key(sk_d: &[u8; 32], size: KeySize, from: &Derivation, end: End) -> Key
    ensures { result ≡ sealing_key (resumed_sa_keys sk_d.now size from.now) from.now end }
{
    let keys = sa_keys(sk_d, size, from);
    let name = iv_counter(from, end);
    let key = match end {
        End::Peer => Key::new(name, keys.sk_ei.as_slice()),
        End::Cluster => Key::new(name, keys.sk_er.as_slice()),
    };
    key.unwrap()
}

/// A message that is ready to be sealed, and room for what is noted and given of it.
///
/// Contracts see its inner payloads.
#[derive(Drop)]
pub struct Ready {
    frame: Frame,
    plain: Octets,
    sealed: Octets,
    given: Octets,
}

impl Model for Ready {
    ghost use Rattle.std.specs.Prelude.{List};
    ghost use Rattle.ike_values.specs.Values.{PayloadValue};
    ghost use Rattle.resume_exchange.specs.Ready.{HasRoomFor};

    ghost Value = { List PayloadValue };

    ghost view = { λ ready. ready.frame.payloads };

    ghost invariant = { λ ready.
        HasRoomFor ready.frame.payloads ready.plain ready.sealed ready.given };
}

impl Ready {
    /// Makes room for the message of a frame. An error is want of memory.
    pub fn new(alloc: Global, frame: Frame) -> Result<Ready, Memory>
        ensures { IfOk result (λ ready. ready ≡ frame.payloads) }
    {
        let octets = frame.message_octets();
        Ok(Ready {
            plain: Octets::with_room(alloc, octets - MESSAGE_OVERHEAD)?,
            sealed: Octets::with_room(alloc, octets)?,
            given: Octets::with_room(alloc, octets)?,
            frame,
        })
    }

    /// Seals the message with this header, as the first of its end. No memory is taken.
    pub fn seal(self, key: &Key, header: &Header) -> SentMessage
        ensures { SendsIke key.now FIRST_IV header.now self result }
    {
        let Ready {
            frame,
            mut plain,
            mut sealed,
            mut given,
        } = self;
        plain.extend(frame.plain()).unwrap();
        let number = first_number(key.name());
        let message = seal_message(frame, key, number, header);
        sealed.extend(message.as_slice()).unwrap();
        given.extend(message.as_slice()).unwrap();
        let seal = Seal {
            name: key.name(),
            iv: FIRST_IV,
            plain,
            sealed,
        };
        let datagram = Datagram {
            medium: Medium::Ike,
            octets: given,
        };
        SentMessage { seal, datagram }
    }
}

/// The first number of a counter.
fn first_number(name: CounterName) -> Number
    ensures { result ≡ record { name = name; value = FIRST_IV } }
{
    let mut lot = Lot::new(name, FIRST_IV, FIRST_IV + 1);
    lot.draw().unwrap()
}
