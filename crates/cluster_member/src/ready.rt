ghost use Rattle.std.specs.Prelude.{◌≡◌, ◌<◌, ◌≤◌, IfOk};
ghost use Rattle.horizons.specs.Reaches.{IsSameCounter};
ghost use Rattle.horizons.specs.Ready.{next_number};
ghost use Rattle.keeper_book.specs.Asks.{AsksFor};
ghost use Rattle.cluster_member.specs.Numbers.{CoversBoth, ReadiesBoth};

use horizons::{Horizon, Stop};
use keeper_book::Keeper;
use spend_once::Number;

/// Makes a number of a counter ready, from its base on, and then gives the next IV, once that is
/// ready too. What was covered first stays so where the IV is refused.
pub(crate) fn ready_with_iv<K: Keeper>(
    keeper: &mut K,
    horizon: &mut Horizon,
    at: u64,
    iv: &mut Horizon,
) -> Result<Number, Stop>
    requires { horizon.old.base ≤ at }
    ensures calls { AsksFor K.Keeper keeper.old keeper.new
        (λ calls. ReadiesBoth horizon.old at iv.old calls result horizon.new iv.new) }
    ensures number { IfOk result (λ number. number ≡ next_number iv.old) }
    ensures same { IsSameCounter horizon.old horizon.new }
    ensures same_iv { IsSameCounter iv.old iv.new }
{
    horizon.admit(keeper, at)?;
    iv.send_number(keeper)
}

/// Makes a number of a counter ready, from its base on, and then the next IV, which is not given.
/// What was covered first stays so where the IV is refused.
pub(crate) fn ready_both<K: Keeper>(
    keeper: &mut K,
    horizon: &mut Horizon,
    at: u64,
    iv: &mut Horizon,
) -> Result<(), Stop>
    requires { horizon.old.base ≤ at }
    ensures calls { AsksFor K.Keeper keeper.old keeper.new
        (λ calls. CoversBoth horizon.old at iv.old calls result horizon.new iv.new) }
    ensures ready { IfOk result (λ _. iv.new.next < iv.new.high) }
    ensures same { IsSameCounter horizon.old horizon.new }
    ensures same_iv { IsSameCounter iv.old iv.new }
{
    horizon.admit(keeper, at)?;
    let next = iv.next();
    iv.ready(keeper, next)
}
