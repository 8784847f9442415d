ghost use Rattle.std.specs.Prelude.{IfOk};
ghost use Rattle.keeper_book.specs.Asks.{AsksFor};
ghost use Rattle.pool_lots.specs.Lots.{AreNumbersOf, DrawsPooled, IsNumberOf};

use keeper_book::{Keeper, KeeperFault, Pool};
use spend_once::{Lot, Number};

/// How many numbers of a pool a member leases at once.
pub const LEASED_NUMBERS: u64 = 16;

/// Draws the next number of a lot of a pool, and leases 16 more where none is left.
///
/// An error is what the keeper answered: `Failed`, or `Full` where the pool has fewer than 16 left.
/// The lot is then as it was. Where the lot holds numbers of the pool, so it does afterwards, and
/// the number is one of them. It takes no memory.
pub fn draw_pooled<K: Keeper>(
    keeper: &mut K,
    pool: Pool,
    lot: &mut Lot,
) -> Result<Number, KeeperFault>
    ensures draws { AsksFor K.Keeper keeper.old keeper.new
        (λ calls. DrawsPooled pool lot.old calls result lot.new) }
    ensures number { AreNumbersOf pool lot.old →
        IfOk result (λ number. IsNumberOf pool number.value) }
    ensures left { AreNumbersOf pool lot.old → AreNumbersOf pool lot.new }
{
    if let Some(number) = lot.draw() {
        return Ok(number);
    }
    let first = keeper.lease(pool, LEASED_NUMBERS)?;
    let mut leased = Lot::new(lot.name(), first, first + LEASED_NUMBERS);
    let number = leased.draw().unwrap();
    *lot = leased;
    Ok(number)
}
