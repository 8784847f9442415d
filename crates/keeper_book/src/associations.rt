ghost use Rattle.std.specs.Prelude.{◌≡◌, ◌||◌, ◌==◌, Some, None, IfOk, IfErr, MatchOption};
ghost use Rattle.std.specs.List.{list_any};
ghost use Rattle.keeper_book.specs.declared.calls.KeeperAsk.TheVariants as ask;
ghost use Rattle.keeper_book.specs.Book.{RefusedAs, closed, cover_refusal, edit_at, entry_of, fresh, raised_at, settled, shares_spi, take_over_refusal, takeover_answer, taken_over};
ghost use Rattle.keeper_book.specs.Counters.{AreWithinEnds, counter_named};
ghost use Rattle.keeper_book.specs.Entries.{IsPlaceOf};
ghost use Rattle.keeper_book.specs.Told.{IsRefusalOf, taken_answer};

use crate::counters::{Counter, Five};
use crate::faults::KeeperFault;
use crate::records::{Record, Taken};
use crate::{MAX_EPOCHS, SETTLED_ANSWER_HIGH, SETTLED_IV_HIGH};
use ha_base::Kind;
use std::alloc::{AllocError, Global};
use std::marker::Model;

/// An association in the book.
#[derive(Drop)]
pub struct Association {
    sa: Record,
    closed: bool,
    owner: Option<u32>,
    // of each epoch
    bases: Vec<Five>,
    highs: Five,
}

impl Model for Association {
    ghost use Rattle.keeper_book.specs.Book.{Entry};
    ghost use Rattle.keeper_book.specs.Counters.{AreWithinEnds};

    ghost Value = { Entry };

    ghost view = { λ a. record {
      sa = a.sa;
      closed = a.closed;
      owner = a.owner;
      bases = a.bases.items;
      highs = a.highs;
    } };

    ghost invariant = { λ a. AreWithinEnds a.highs };
}

impl Association {
    /// An association that nobody took over yet.
    pub fn fresh(alloc: Global, sa: &Record) -> Association
        ensures { result ≡ fresh sa.now }
    {
        Association {
            sa: sa.copied(),
            closed: false,
            owner: None,
            bases: Vec::new(alloc),
            highs: sa.starts,
        }
    }

    /// An association that was resumed, in its first epoch, which the member owns. An error is
    /// want of memory.
    pub fn settled(alloc: Global, sa: &Record, member: u32) -> Result<Association, AllocError>
        ensures { IfOk result (λ a. a ≡ settled sa.now member) }
    {
        let mut bases = Vec::new(alloc);
        bases.push(sa.starts)?;
        let mut highs = sa.starts;
        highs.answer = highs.answer.max(SETTLED_ANSWER_HIGH);
        highs.iv = highs.iv.max(SETTLED_IV_HIGH);
        Ok(Association {
            sa: sa.copied(),
            closed: false,
            owner: Some(member),
            bases,
            highs,
        })
    }

    /// Nobody may use it any more.
    pub fn close(&mut self)
        ensures { self.new ≡ closed self.old }
    {
        self.closed = true;
    }

    /// The responder's SPI.
    pub fn spir(&self) -> u64
        ensures { result ≡ self.now.sa.spir }
    {
        self.sa.spir
    }

    /// One of the two SPIs by which an association is found is the same in this record.
    pub fn shares_spi(&self, sa: &Record) -> bool
        ensures { result ≡ shares_spi sa.now self.now }
    {
        self.sa.spir == sa.spir || self.sa.spi_in == sa.spi_in
    }

    /// Begins an epoch for a member. Want of memory comes last.
    pub fn take_over(&mut self, member: u32) -> Result<Taken, KeeperFault>
        ensures ok { IfOk result
            (λ t. (take_over_refusal (Some self.old) ≡ None)
            × (taken_answer result ≡ takeover_answer (Some self.old))
            × (self.new ≡ taken_over member self.old)) }
        ensures err { IfErr result
            (λ why. RefusedAs why (take_over_refusal (Some self.old)) × (self.new ≡ self.old)) }
        ensures refusals { IfErr result (IsRefusalOf (ask.TakeOver self.old.sa.spir member)) }
        ensures record { IfOk result (λ t. t.sa.spir ≡ self.old.sa.spir) }
        ensures bases_within { IfOk result (λ t. AreWithinEnds t.bases) }
    {
        if self.closed {
            return Err(KeeperFault::Closed);
        }
        let epochs = self.bases.len() as u64;
        if epochs >= MAX_EPOCHS {
            return Err(KeeperFault::Full(MAX_EPOCHS));
        }
        if self.bases.push(self.highs).is_err() {
            return Err(KeeperFault::Memory);
        }
        self.owner = Some(member);
        Ok(Taken {
            epoch: epochs + 1,
            bases: self.highs,
            sa: self.sa.copied(),
        })
    }

    /// Raises the high of a counter in an epoch. It takes no memory.
    pub fn cover(
        &mut self,
        kind: Kind,
        child: u32,
        epoch: u64,
        upto: u64,
    ) -> Result<(), KeeperFault>
        ensures ok { IfOk result
            (λ _. (cover_refusal (Some self.old) (counter_named kind child) epoch ≡ None)
            × (self.new ≡ raised_at (counter_named kind child) upto self.old)) }
        ensures err { IfErr result
            (λ why. (cover_refusal (Some self.old) (counter_named kind child) epoch ≡ Some why)
            × (self.new ≡ self.old)) }
        ensures refusals { IfErr result (IsRefusalOf
            (ask.Cover self.old.sa.spir kind child epoch upto)) }
    {
        let Some(counter) = Counter::named(kind, child) else {
            return Err(KeeperFault::Unknown);
        };
        if self.closed {
            return Err(KeeperFault::Closed);
        }
        let epochs = self.bases.len() as u64;
        if epoch != epochs {
            return Err(KeeperFault::Replaced(epochs));
        }
        let high = self.highs.at(counter).max(upto.min(self.sa.end(counter)));
        self.highs.set(counter, high);
        Ok(())
    }
}

/// An association shares an SPI with this record.
pub fn any_shares_spi(associations: &[Association], sa: &Record) -> bool
    ensures { result ≡ list_any (shares_spi sa.now) associations.now }
{
    associations
        .iter()
        .any(|association| association.shares_spi(sa))
}

/// Where the association of a responder's SPI stands.
pub fn place_of(associations: &[Association], spir: u64) -> Option<usize>
    ensures { MatchOption result (entry_of spir associations.now ≡ None)
        (λ place. IsPlaceOf spir place associations.now) }
{
    for (place, association) in associations.iter().enumerate() {
        if association.spir() == spir {
            return Some(place);
        }
    }
    None
}
