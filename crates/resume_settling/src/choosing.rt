ghost use Rattle.std.specs.Prelude.{◌≡◌, [], MatchOption, Some, slice_get};
ghost use Rattle.ike_values.specs.ProposalView.{proposal_value};
ghost use Rattle.ike_values.specs.SelectorView.{selector_value};
ghost use Rattle.ike_values.specs.Values.{ProposalValue, SelectorValue};
ghost use Rattle.resume_settling.specs.Choosing.{Chooses};

use ha_base::KeySize;
use ike_values::{Payloads, Proposal, Selector, Selectors};
use resume_exchange::{
    first_fit, first_initiator_selectors, first_proposals, first_responder_selectors,
};

/// What a member takes of the peer's IKE_AUTH, where keys have this size: the first proposal that
/// fits, and the first selector of each end.
pub(crate) fn chosen(
    payloads: &Payloads,
    size: KeySize,
) -> Option<(&Proposal, &Selector, &Selector)>
    ensures { MatchOption result
        ((proposal : ProposalValue) (initiator responder : SelectorValue) →
        ¬ Chooses size payloads.now proposal initiator responder)
        (λ parts. Chooses size payloads.now (proposal_value parts.0.now)
        (selector_value parts.1.now) (selector_value parts.2.now)) }
{
    let items = payloads.as_slice();
    let proposal = first_fit(first_proposals(items)?, size)?;
    let initiator = first_selector(first_initiator_selectors(items)?)?;
    let responder = first_selector(first_responder_selectors(items)?)?;
    Some((proposal, initiator, responder))
}

/// The first of some selectors.
fn first_selector(selectors: &Selectors) -> Option<&Selector>
    ensures { MatchOption result
        (selectors.now ≡ [])
        (λ selector. slice_get selectors.now 0 ≡ Some (selector_value selector.now)) }
{
    match selectors.as_slice() {
        [selector, ..] => Some(selector),
        [] => None,
    }
}
