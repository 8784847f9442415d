//! Traffic selectors.

ghost use Rattle.std.specs.Prelude.{◌≡◌, ◌+◌, ◌++◌, ◌≤◌, length, map, IsOk, OnOk};
ghost use Rattle.std.specs.List.{AllByRecursion};
ghost use Rattle.ike_values.specs.SelectorView.{selector_value};
ghost use Rattle.ike_values.specs.Spelling.{selector_spelling, selectors_spelling};
ghost use Rattle.ike_values.specs.Writing.{numbered_written};
ghost use Rattle.ike_values.specs.Validity.{FitsSelector, FitsSelectors};

use crate::octets::put_two;
use ha_base::{Memory, Octets};
use ike_values::Selector;

pub(crate) fn put_traffic(out: &mut Octets, selectors: &[Selector]) -> Result<(), Memory>
    requires { FitsSelectors (map selector_value selectors.now) }
    ensures written { OnOk result (out.new.octets ≡ out.old.octets
        ++ numbered_written (length (map selector_value selectors.now))
        (selectors_spelling (map selector_value selectors.now))) }
    ensures spare { OnOk result (out.old.spare ≤ out.new.spare
        + length (numbered_written (length (map selector_value selectors.now))
        (selectors_spelling (map selector_value selectors.now)))) }
    ensures room { length (numbered_written (length (map selector_value selectors.now))
        (selectors_spelling (map selector_value selectors.now))) ≤ out.old.spare → IsOk result }
{
    out.extend(&[selectors.len() as u8, 0, 0, 0])?;
    put_selectors(out, selectors)
}

fn put_selectors(out: &mut Octets, selectors: &[Selector]) -> Result<(), Memory>
    requires { AllByRecursion FitsSelector (map selector_value selectors.now) }
    ensures written { OnOk result (out.new.octets ≡ out.old.octets
        ++ selectors_spelling (map selector_value selectors.now)) }
    ensures spare { OnOk result (out.old.spare ≤ out.new.spare
        + length (selectors_spelling (map selector_value selectors.now))) }
    ensures room { length (selectors_spelling (map selector_value selectors.now)) ≤ out.old.spare →
        IsOk result }
{
    let mut rest = selectors;
    while let [first, others @ ..] = rest {
        put_selector(out, first)?;
        rest = others;
    }
    Ok(())
}

fn put_selector(out: &mut Octets, selector: &Selector) -> Result<(), Memory>
    requires { FitsSelector (selector_value selector.now) }
    ensures written { OnOk result (out.new.octets ≡ out.old.octets
        ++ selector_spelling (selector_value selector.now)) }
    ensures spare { OnOk result (out.old.spare ≤ out.new.spare
        + length (selector_spelling (selector_value selector.now))) }
    ensures room { length (selector_spelling (selector_value selector.now)) ≤ out.old.spare →
        IsOk result }
{
    let start = selector.start.as_slice();
    out.extend(&[selector.kind, selector.protocol])?;
    put_two(out, 8 + 2 * start.len() as u16)?;
    put_two(out, selector.start_port)?;
    put_two(out, selector.end_port)?;
    out.extend(start)?;
    out.extend(selector.end.as_slice())
}
