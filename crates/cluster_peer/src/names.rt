ghost use Rattle.std.specs.Prelude.{◌≡◌};
ghost use Rattle.turn_rules.specs.Draws.{child_of, counter_kind};
ghost use Rattle.turn_rules.specs.PeerMessages.{peer_keys};

use aes_gcm::Key;
use ha_base::{CounterName, End, Kind};
use ike_sas::IkeKeys;
use keeper_book::{Counter, Record};

fn kind_of(counter: Counter) -> Kind
    ensures { result ≡ counter_kind counter }
{
    match counter {
        Counter::EspOut => Kind::EspOut,
        Counter::EspIn => Kind::EspIn,
        Counter::Iv => Kind::Iv,
        Counter::Ask => Kind::Ask,
        Counter::Answer => Kind::Answer,
    }
}

fn child_of(counter: Counter) -> u32
    ensures { result ≡ child_of counter }
{
    match counter {
        Counter::EspOut | Counter::EspIn => 1,
        Counter::Iv | Counter::Ask | Counter::Answer => 0,
    }
}

/// The name of a counter of an association, at one of its ends.
pub fn name_at(end: End, sa: &Record, counter: Counter) -> CounterName
    ensures { result ≡ record {
      origin = sa.now.origin;
      kind = counter_kind counter;
      child = child_of counter;
      end = end;
    } }
{
    CounterName {
        origin: sa.origin,
        kind: kind_of(counter),
        child: child_of(counter),
        end,
    }
}

/// What the IKE messages of an association are sealed and opened with at the peer.
#[tactic(auto, using(crate::proofs::KeySizes::sized_sk_ei, crate::proofs::KeySizes::sized_sk_er))]
pub fn ike_keys(sa: &Record) -> IkeKeys
    ensures { result ≡ peer_keys sa.now }
{
    let sending = Key::new(
        name_at(End::Peer, sa, Counter::Iv),
        sa.keys.sk_ei.as_slice(),
    );
    let receiving = Key::new(
        name_at(End::Cluster, sa, Counter::Iv),
        sa.keys.sk_er.as_slice(),
    );
    match (sending, receiving) {
        (Some(sending), Some(receiving)) => IkeKeys {
            end: End::Peer,
            spii: sa.spii,
            spir: sa.spir,
            sending,
            receiving,
        },
        _ => unreachable!(),
    }
}
