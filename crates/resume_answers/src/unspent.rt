ghost use Rattle.std.specs.Prelude.{IfOk, IfSome};
ghost use Rattle.keeper_book.specs.Asks.{AsksFor};
ghost use Rattle.keeper_book.specs.declared.pools.Pool.TheVariants as pool;
ghost use Rattle.pool_lots.specs.Lots.{AreNumbersOf, IsNumberOf};
ghost use Rattle.resume_answers.specs.Unspent.{DrawsUnlessSpent};

use keeper_book::{Keeper, KeeperFault, Pool};
use pool_lots::draw_pooled;
use spend_once::{Lot, Number};

/// A number of the nonces' pool for what is resumed with a ticket, or none where the ticket was
/// spent (RFC 5723, section 4.3.2).
///
/// The keeper is asked first whether it knows the ticket as spent. A number is drawn only where it
/// does not, from what is left of the lot, with a lease of sixteen more exactly where none is. An
/// error is what the keeper answered: `Failed`, or `Full` where the pool has fewer than sixteen
/// left. The lot is then as it was. It takes no memory.
pub fn draw_unless_spent<K: Keeper>(
    keeper: &mut K,
    ticket: u64,
    nonces: &mut Lot,
) -> Result<Option<Number>, KeeperFault>
    ensures draws { AsksFor K.Keeper keeper.old keeper.new
        (λ calls. DrawsUnlessSpent ticket nonces.old calls result nonces.new) }
    ensures number { AreNumbersOf pool.Nonce nonces.old → IfOk result (λ found.
        IfSome found (λ number. IsNumberOf pool.Nonce number.value)) }
    ensures left { AreNumbersOf pool.Nonce nonces.old → AreNumbersOf pool.Nonce nonces.new }
{
    if keeper.look(ticket)? {
        return Ok(None);
    }
    let number = draw_pooled(keeper, Pool::Nonce, nonces)?;
    Ok(Some(number))
}
