ghost use Rattle.std.specs.Prelude.{◌≡◌, ℕ, Some, None, [], IfOk, IfErr};
ghost use Rattle.keeper_book.specs.declared.calls.KeeperAsk.TheVariants as ask;
ghost use Rattle.keeper_book.specs.Book.{book_entered, closed, edit_at, empty, is_spent, settle_refusal};

use crate::associations::{Association, any_shares_spi, place_of};
use crate::faults::KeeperFault;
use crate::keepers::Keeper;
use crate::pools::{FIRST_POOL_NUMBER, Pool, PoolNumbers};
use crate::records::{Record, Taken};
use crate::{MAX_ASSOCIATIONS, MAX_SPENT_TICKETS};
use ha_base::Kind;
use std::alloc::{AllocError, Global};
use std::marker::Model;

/// A keeper that keeps its book in memory. It never fails. It finds an association by a walk over
/// all, of which there are at most 1,024, and a spent ticket by one over at most 65,536.
#[derive(Drop)]
pub struct MemoryKeeper {
    alloc: Global,
    associations: Vec<Association>,
    next: PoolNumbers,
    spent: Vec<u64>,
}

impl Model for MemoryKeeper {
    ghost use Rattle.keeper_book.specs.Book.{Book};
    ghost use Rattle.keeper_book.specs.Pools.{ArePoolNumbers};

    ghost Value = { Book };

    ghost view = { λ keeper. record {
      entries = keeper.associations.items;
      next = keeper.next;
      spent = keeper.spent.items;
    } };

    ghost invariant = { λ keeper. ArePoolNumbers keeper.next };
}

// This ticket is among those that were spent.
fn is_spent(spent: &[u64], ticket: u64) -> bool
    ensures { result ≡ is_spent ticket spent.now }
{
    spent.iter().any(|other| *other == ticket)
}

// Closes the association of a responder's SPI, where there is one.
fn close_at(associations: &mut [Association], spir: u64)
    ensures { associations.new ≡ edit_at spir closed associations.old }
{
    match place_of(associations, spir) {
        Some(place) => associations[place].close(),
        None => {}
    }
}

impl MemoryKeeper {
    /// A keeper of an empty book. It takes no memory.
    pub fn new(alloc: Global) -> MemoryKeeper
        ensures { result ≡ empty }
    {
        MemoryKeeper {
            alloc,
            associations: Vec::new(alloc),
            next: PoolNumbers {
                ticket: FIRST_POOL_NUMBER,
                nonce: FIRST_POOL_NUMBER,
            },
            spent: Vec::new(alloc),
        }
    }

    fn settle_refusal(&self, ticket: u64, sa: &Record) -> Option<KeeperFault>
        ensures { result ≡ settle_refusal ticket sa.now self.now.spent self.now.entries }
    {
        if is_spent(&self.spent, ticket) {
            return Some(KeeperFault::Spent);
        }
        if any_shares_spi(&self.associations, sa) {
            return Some(KeeperFault::SpiInUse);
        }
        if self.spent.len() as u64 >= MAX_SPENT_TICKETS {
            return Some(KeeperFault::Full(MAX_SPENT_TICKETS));
        }
        if self.associations.len() as u64 >= MAX_ASSOCIATIONS {
            return Some(KeeperFault::Full(MAX_ASSOCIATIONS));
        }
        None
    }

    // Spends a ticket where nothing is refused. An error is want of memory, which changes nothing.
    fn spend(
        &mut self,
        ticket: u64,
        old_spir: u64,
        sa: &Record,
        member: u32,
    ) -> Result<(), AllocError>
        ensures ok { IfOk result
            (λ _. self.new ≡ book_entered self.old (ask.Settle ticket old_spir sa.now member)) }
        ensures err { IfErr result (λ _. self.new ≡ self.old) }
    {
        let association = Association::settled(self.alloc, sa, member)?;
        self.associations.reserve(1)?;
        self.spent.reserve(1)?;
        close_at(&mut self.associations, old_spir);
        self.associations.push_reserved(association);
        self.spent.push_reserved(ticket);
        Ok(())
    }
}

impl Keeper for MemoryKeeper {
    ghost book = { λ keeper. Some keeper };

    ghost calls = { λ _. None };

    ghost faults = { λ _. 0 };

    ghost held = { λ _. [] };

    ghost call_gives = { λ _ _ _. Unit {0} };

    fn enter(&mut self, sa: &Record) -> Result<(), KeeperFault> {
        if any_shares_spi(&self.associations, sa) {
            return Err(KeeperFault::SpiInUse);
        }
        if self.associations.len() as u64 >= MAX_ASSOCIATIONS {
            return Err(KeeperFault::Full(MAX_ASSOCIATIONS));
        }
        let association = Association::fresh(self.alloc, sa);
        if self.associations.push(association).is_err() {
            return Err(KeeperFault::Memory);
        }
        Ok(())
    }

    fn take_over(&mut self, spir: u64, member: u32) -> Result<Taken, KeeperFault> {
        match place_of(&self.associations, spir) {
            Some(place) => {
                let association = &mut self.associations[place];
                association.take_over(member)
            }
            None => Err(KeeperFault::Unknown),
        }
    }

    fn cover(
        &mut self,
        spir: u64,
        kind: Kind,
        child: u32,
        epoch: u64,
        upto: u64,
    ) -> Result<(), KeeperFault> {
        match place_of(&self.associations, spir) {
            Some(place) => {
                let association = &mut self.associations[place];
                association.cover(kind, child, epoch, upto)
            }
            None => Err(KeeperFault::Unknown),
        }
    }

    fn lease(&mut self, pool: Pool, count: u64) -> Result<u64, KeeperFault> {
        let first = self.next.at(pool);
        let end = pool.end();
        if count > end - first {
            return Err(KeeperFault::Full(end));
        }
        self.next.set(pool, first + count);
        Ok(first)
    }

    fn settle(
        &mut self,
        ticket: u64,
        old_spir: u64,
        sa: &Record,
        member: u32,
    ) -> Result<(), KeeperFault> {
        match self.settle_refusal(ticket, sa) {
            Some(why) => Err(why),
            None => match self.spend(ticket, old_spir, sa, member) {
                Ok(()) => Ok(()),
                Err(_) => Err(KeeperFault::Memory),
            },
        }
    }

    fn look(&mut self, ticket: u64) -> Result<bool, KeeperFault> {
        Ok(is_spent(&self.spent, ticket))
    }
}
