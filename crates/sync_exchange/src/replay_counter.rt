ghost use Rattle.std.specs.Prelude.{◌≡◌};
ghost use Rattle.std.specs.Int.{w64, to_be_bytes};
ghost use Rattle.sync_exchange.specs.Notifications.{delta_in, replay_in, size_in};

use ha_base::read_u64;
use ike_values::Payloads;
use ike_values::notify_types::IPSEC_REPLAY_COUNTER_SYNC;

/// How many octets a delta of extended sequence numbers has (RFC 6311, section 6.4).
pub const DELTA_OCTETS: usize = 8;

/// The data of a replay counter synchronisation with this delta.
pub fn delta_octets(delta: u64) -> [u8; DELTA_OCTETS]
    ensures { result ≡ to_be_bytes w64 delta }
{
    delta.to_be_bytes()
}

/// The data of the first replay counter synchronisation, or no octets where there is none.
pub(crate) fn replay_counter(payloads: &Payloads) -> &[u8]
    ensures { result.now ≡ replay_in payloads.now }
{
    payloads
        .first_notify(IPSEC_REPLAY_COUNTER_SYNC)
        .unwrap_or(&[])
}

/// How many octets there are, 2^32 - 1 at most.
pub(crate) fn replay_size(octets: &[u8]) -> u32
    ensures { result ≡ size_in octets.now }
{
    u32::try_from(octets.len()).unwrap_or(u32::MAX)
}

/// The number in eight octets, and 0 in any others.
pub(crate) fn replay_delta(octets: &[u8]) -> u64
    ensures { result ≡ delta_in octets.now }
{
    if octets.len() == DELTA_OCTETS {
        read_u64(octets)
    } else {
        0
    }
}
