//! Where a text is parted.

ghost use Rattle.std.specs.Prelude.{◌≡◌, ◌≢◌, ◌≤◌, ◌<◌, ℕ, length, slice_index};

use memchr::memchr;

/// How many octets stand before the first `stop`, or the number of all where there is none.
pub fn octets_before(octets: &[u8], stop: u8) -> usize
    ensures within { result ≤ length octets.now }
    ensures before { (k : ℕ) → k < result → slice_index octets.now k ≢ stop }
    ensures found { result < length octets.now → slice_index octets.now result ≡ stop }
{
    match memchr(stop, octets) {
        Some(place) => place,
        None => octets.len(),
    }
}
