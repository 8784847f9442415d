ghost use Rattle.std.specs.Prelude.{◌≡◌, ℕ, List, [], ◌∷◌, Option, IfOk, IfErr};
ghost use Rattle.std.specs.Borrow.{GName};
ghost use Rattle.keeper_book.specs.declared.calls.Call.{Call};
ghost use Rattle.keeper_book.specs.declared.calls.KeeperAsk.TheVariants as ask;
ghost use Rattle.keeper_book.specs.Counters.{AreWithinEnds};
ghost use Rattle.keeper_book.specs.Book.{Book};
ghost use Rattle.keeper_book.specs.Spoken.{Spoken};
ghost use Rattle.keeper_book.specs.Pools.{IsRangeOf};
ghost use Rattle.keeper_book.specs.Told.{IsCallOf, IsRefusalOf, done, first_answer, look_answer, taken_answer};

use crate::faults::KeeperFault;
use crate::pools::Pool;
use crate::records::{Record, Taken};
use ha_base::Kind;

/// Keeps the book of a cluster: what a member may use is recorded here first.
pub trait Keeper {
    // its book, where it tells it
    ghost book: { Self → Option Book };

    // its calls since they were last taken, where it tells them
    ghost calls: { Self → Option (List Call) };

    // how often a call has failed
    ghost faults: { Self → ℕ };

    // the references through which it is reached, the outermost first
    ghost held: { Self → List GName };

    // what else it says of a call that leads from one state to the next
    ghost call_gives: { Self → Call → Self → Type 0 };

    /// Adds an association, in epoch 0 and with no owner. `SpiInUse` where an association has its
    /// SPIr or its `spi_in`, `Full(1024)` at 1,024 associations, `Memory`, and `Failed`, after
    /// which it was added or not. After every other error nothing has changed.
    fn enter(&mut self, sa: &Record) -> Result<(), KeeperFault>
        ensures call { (call : Call) × IsCallOf (ask.Enter sa.now) (done result) call
            × Spoken book calls faults call_gives self.old (call ∷ []) self.new }
        ensures refusals { IfErr result (IsRefusalOf (ask.Enter sa.now)) }
        ensures held { held self.new ≡ held self.old };

    /// Begins an epoch of an association for a member: the highs become its bases. `Unknown` where
    /// there is no such association, `Closed` where it was closed, `Full(4096)` at epoch 4,096,
    /// `Memory`, and `Failed`, after which the epoch began or not. After every other error nothing
    /// has changed.
    fn take_over(&mut self, spir: u64, member: u32) -> Result<Taken, KeeperFault>
        ensures call { (call : Call) × IsCallOf (ask.TakeOver spir member)
            (taken_answer result) call
            × Spoken book calls faults call_gives self.old (call ∷ []) self.new }
        ensures refusals { IfErr result (IsRefusalOf (ask.TakeOver spir member)) }
        ensures record_asked { IfOk result (λ t. t.sa.spir ≡ spir) }
        ensures bases_within { IfOk result (λ t. AreWithinEnds t.bases) }
        ensures held { held self.new ≡ held self.old };

    /// Raises the high of a counter in an epoch to `upto`, or to the counter's end where that is
    /// less; a high never falls. `Unknown` where there is no such association or counter, `Closed`
    /// where it was closed, `Replaced(epoch)` where the book is at another epoch, and `Failed`,
    /// after which the high was raised or not. After every other error nothing has changed.
    fn cover(
        &mut self,
        spir: u64,
        kind: Kind,
        child: u32,
        epoch: u64,
        upto: u64,
    ) -> Result<(), KeeperFault>
        ensures call { (call : Call) × IsCallOf (ask.Cover spir kind child epoch upto)
            (done result) call
            × Spoken book calls faults call_gives self.old (call ∷ []) self.new }
        ensures refusals { IfErr result (IsRefusalOf (ask.Cover spir kind child epoch upto)) }
        ensures held { held self.new ≡ held self.old };

    /// Leases so many numbers of a pool, and answers the first of them. `Full` with the pool's end
    /// where they would pass it, and `Failed`, after which they are leased or not. After every other
    /// error nothing has changed.
    fn lease(&mut self, pool: Pool, count: u64) -> Result<u64, KeeperFault>
        ensures call { (call : Call) × IsCallOf (ask.Lease pool count) (first_answer result) call
            × Spoken book calls faults call_gives self.old (call ∷ []) self.new }
        ensures refusals { IfErr result (IsRefusalOf (ask.Lease pool count)) }
        ensures range { IfOk result (λ first. IsRangeOf pool count first) }
        ensures held { held self.new ≡ held self.old };

    /// Spends a ticket: closes the association that it was issued in, where there is one, and adds
    /// the one that was resumed, in its first epoch, which the member owns. `Spent` where the ticket
    /// was spent before, `SpiInUse` where an association has the SPIr or the `spi_in` of the new
    /// one, `Full(65536)` at 65,536 spent tickets, `Full(1024)` at 1,024 associations, `Memory`, and
    /// `Failed`, after which the ticket was spent or not. After every other error nothing has
    /// changed.
    fn settle(
        &mut self,
        ticket: u64,
        old_spir: u64,
        sa: &Record,
        member: u32,
    ) -> Result<(), KeeperFault>
        ensures call { (call : Call) × IsCallOf (ask.Settle ticket old_spir sa.now member)
            (done result) call
            × Spoken book calls faults call_gives self.old (call ∷ []) self.new }
        ensures refusals { IfErr result (IsRefusalOf (ask.Settle ticket old_spir sa.now member)) }
        ensures held { held self.new ≡ held self.old };

    /// Whether a ticket is spent. It may fail, and changes nothing.
    fn look(&mut self, ticket: u64) -> Result<bool, KeeperFault>
        ensures call { (call : Call) × IsCallOf (ask.Look ticket) (look_answer result) call
            × Spoken book calls faults call_gives self.old (call ∷ []) self.new }
        ensures refusals { IfErr result (IsRefusalOf (ask.Look ticket)) }
        ensures held { held self.new ≡ held self.old };
}

impl<K: Keeper> Keeper for &mut K {
    ghost book = { λ r. K.book r.now };

    ghost calls = { λ r. K.calls r.now };

    ghost faults = { λ r. K.faults r.now };

    ghost held = { λ r. r.ghost_name ∷ K.held r.now };

    ghost call_gives = { λ r call s. K.call_gives r.now call s.now };

    fn enter(&mut self, sa: &Record) -> Result<(), KeeperFault> {
        Keeper::enter(&mut **self, sa)
    }

    fn take_over(&mut self, spir: u64, member: u32) -> Result<Taken, KeeperFault> {
        Keeper::take_over(&mut **self, spir, member)
    }

    fn cover(
        &mut self,
        spir: u64,
        kind: Kind,
        child: u32,
        epoch: u64,
        upto: u64,
    ) -> Result<(), KeeperFault> {
        Keeper::cover(&mut **self, spir, kind, child, epoch, upto)
    }

    fn lease(&mut self, pool: Pool, count: u64) -> Result<u64, KeeperFault> {
        Keeper::lease(&mut **self, pool, count)
    }

    fn settle(
        &mut self,
        ticket: u64,
        old_spir: u64,
        sa: &Record,
        member: u32,
    ) -> Result<(), KeeperFault> {
        Keeper::settle(&mut **self, ticket, old_spir, sa, member)
    }

    fn look(&mut self, ticket: u64) -> Result<bool, KeeperFault> {
        Keeper::look(&mut **self, ticket)
    }
}
