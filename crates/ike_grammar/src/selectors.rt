//! Traffic selectors.

ghost use Rattle.std.specs.Prelude.{◌≡◌, ◌+◌, ◌-◌, ◌≤◌, length, IfOk};
ghost use Rattle.ike_values.specs.SelectorView.{selector_value};
ghost use Rattle.ike_values.specs.Spelling.{address_len};
ghost use Rattle.ike_grammar.specs.Faults.{Gives, so_many};
ghost use Rattle.ike_grammar.specs.Selectors.{selector_at, traffic_at};

use crate::fault::{Unread, bad_at};
use crate::octets::{place, two};
use ha_base::OctetList;
use ike_values::{IPV4_RANGE, IPV6_RANGE, Reason, Selector, Selectors};
use std::alloc::Global;

#[tactic(auto, unfolding(crate::specs::Selectors::traffic_at))]
pub(crate) fn traffic_of(alloc: Global, end: usize, body: &[u8]) -> Result<Selectors, Unread>
    requires { length body.now ≤ end }
    ensures { Gives (λ x. x) result (traffic_at end body.now) }
{
    if body.len() < 4 {
        return Err(bad_at(place(end, body), Reason::Short));
    }
    let count = body[0];
    if count == 0 {
        return Err(bad_at(place(end, body), Reason::Field));
    }
    let (_, rest) = body.split_at(4);
    let (selectors, left) = selectors_of(alloc, end, count, rest)?;
    if !left.is_empty() {
        return Err(bad_at(place(end, left), Reason::Trailing));
    }
    Ok(selectors)
}

fn selectors_of(
    alloc: Global,
    end: usize,
    count: u8,
    bytes: &[u8],
) -> Result<(Selectors, &[u8]), Unread>
    requires { length bytes.now ≤ end }
    ensures given { Gives (λ x. (x.0, x.1.now)) result (so_many (selector_at end) count bytes.now) }
    ensures within { IfOk result (λ x. length x.1.now ≤ length bytes.now) }
{
    let mut selectors = Selectors::new(alloc);
    let mut rest = bytes;
    for _ in 0..count {
        let (selector, behind) = selector_of(end, rest)?;
        selectors.push(selector)?;
        rest = behind;
    }
    Ok((selectors, rest))
}

#[tactic(auto, unfolding(crate::specs::Selectors::selector_at))]
fn selector_of(end: usize, bytes: &[u8]) -> Result<(Selector, &[u8]), Unread>
    requires { length bytes.now ≤ end }
    ensures { Gives (λ x. (selector_value x.0, x.1.now)) result (selector_at end bytes.now) }
{
    if bytes.len() < 8 {
        return Err(bad_at(place(end, bytes), Reason::Short));
    }
    if bytes[0] != IPV4_RANGE && bytes[0] != IPV6_RANGE {
        return Err(bad_at(place(end, bytes), Reason::Field));
    }
    let address = address_len(bytes[0]);
    let len = two(bytes, 2) as usize;
    if len != 8 + 2 * address {
        return Err(bad_at(place(end, bytes) + 2, Reason::Length));
    }
    if bytes.len() < len {
        return Err(bad_at(place(end, bytes), Reason::Short));
    }
    let (_, rest) = bytes.split_at(8);
    let (start_address, rest) = rest.split_at(address);
    let (end_address, behind) = rest.split_at(address);
    let selector = Selector {
        kind: bytes[0],
        protocol: bytes[1],
        start_port: two(bytes, 4),
        end_port: two(bytes, 6),
        start: OctetList::from_slice(start_address),
        end: OctetList::from_slice(end_address),
    };
    Ok((selector, behind))
}

fn address_len(kind: u8) -> usize
    ensures known { result ≡ address_len kind }
    ensures within { result ≤ 16 }
{
    if kind == IPV4_RANGE { 4 } else { 16 }
}
