ghost use Rattle.std.specs.Prelude.{◌≡◌, false, MatchOption};
ghost use Rattle.std.specs.List.{list_any};
ghost use Rattle.resume_settling.specs.Finding.{IsLastMeant, is_meant};

use ha_base::Moment;
use ike_values::Header;
use resume_exchange::HalfOpen;

/// Whether the half-open association is live, and the header has its SPIs.
fn is_meant(half_open: &HalfOpen, now: Moment, header: &Header) -> bool
    ensures { result ≡ is_meant now.0 header.now half_open.now }
{
    half_open.is_live(now)
        && half_open.derivation.spii == header.spii
        && half_open.derivation.spir == header.spir
}

/// The place of the half-open association that a message with this header is for: of several, of
/// the one that was begun last.
pub(crate) fn last_meant(half_opens: &[HalfOpen], now: Moment, header: &Header) -> Option<usize>
    ensures { MatchOption result
        (list_any (is_meant now.0 header.now) half_opens.now ≡ false)
        (IsLastMeant now.0 header.now half_opens.now) }
{
    let mut end = half_opens.len();
    while end > 0 {
        end -= 1;
        if is_meant(&half_opens[end], now, header) {
            return Some(end);
        }
    }
    None
}
