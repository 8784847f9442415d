ghost use Rattle.std.specs.Prelude.{◌≡◌, Some, false, []};
ghost use Rattle.keeper_book.specs.Gates.{PassedOn, kept, missed_one, told_calls};

use crate::call_lists::Calls;
use crate::calls::{Call, KeeperAnswer, KeeperAsk};
use crate::faults::KeeperFault;
use crate::keepers::Keeper;
use crate::pools::Pool;
use crate::records::{Record, Taken};
use ha_base::Kind;
use std::marker::Model;

/// Passes calls on to a keeper, and records the first eight.
#[derive(Drop)]
pub struct Gate<K: Keeper> {
    keeper: K,
    calls: Calls,
    // there was a ninth call
    missed: bool,
}

impl<K: Keeper> Model for Gate<K> {
    ghost use Rattle.keeper_book.specs.Gates.{Gated};

    ghost Value = { Gated K };

    ghost view = { λ g. record { keeper = g.keeper; first = g.calls; missed = g.missed } };
}

impl<K: Keeper> Gate<K> {
    /// A gate that has recorded no call.
    pub fn new(inner: K) -> Gate<K>
        ensures { result ≡ record { keeper = inner; first = []; missed = false } }
    {
        Gate {
            keeper: inner,
            calls: Calls::none(),
            missed: false,
        }
    }

    /// The calls since they were last taken, the first eight of them.
    pub fn take_calls(&mut self) -> Calls
        ensures calls { result ≡ self.old.first }
        ensures none { told_calls self.new ≡ Some [] }
        ensures keeper { self.new.keeper ≡ self.old.keeper }
    {
        self.missed = false;
        std::mem::replace(&mut self.calls, Calls::none())
    }

    /// The keeper behind it.
    pub fn into_inner(self) -> K
        ensures { result ≡ self.keeper }
    {
        self.keeper
    }

    fn record(&mut self, call: Call)
        ensures calls { self.new.first ≡ kept self.old.first call }
        ensures missed { self.new.missed ≡ missed_one self.old.first self.old.missed }
        ensures keeper { self.new.keeper ≡ self.old.keeper }
    {
        if self.calls.len() < 8 {
            self.calls.push(call);
        } else {
            self.missed = true;
        }
    }
}

impl<K: Keeper> Keeper for Gate<K> {
    ghost book = { λ g. K.book g.keeper };

    ghost calls = { λ g. told_calls g };

    ghost faults = { λ g. K.faults g.keeper };

    ghost held = { λ g. K.held g.keeper };

    ghost call_gives = { λ g call h. PassedOn K.book K.calls K.faults K.call_gives g call h };

    fn enter(&mut self, sa: &Record) -> Result<(), KeeperFault> {
        let result = self.keeper.enter(sa);
        self.record(Call {
            asked: KeeperAsk::Enter { sa: sa.copied() },
            answer: KeeperAnswer::of_done(&result),
            hidden: false,
        });
        result
    }

    fn take_over(&mut self, spir: u64, member: u32) -> Result<Taken, KeeperFault> {
        let result = self.keeper.take_over(spir, member);
        self.record(Call {
            asked: KeeperAsk::TakeOver { spir, member },
            answer: KeeperAnswer::of_taken(&result),
            hidden: false,
        });
        result
    }

    fn cover(
        &mut self,
        spir: u64,
        kind: Kind,
        child: u32,
        epoch: u64,
        upto: u64,
    ) -> Result<(), KeeperFault> {
        let result = self.keeper.cover(spir, kind, child, epoch, upto);
        self.record(Call {
            asked: KeeperAsk::Cover {
                spir,
                kind,
                child,
                epoch,
                upto,
            },
            answer: KeeperAnswer::of_done(&result),
            hidden: false,
        });
        result
    }

    fn lease(&mut self, pool: Pool, count: u64) -> Result<u64, KeeperFault> {
        let result = self.keeper.lease(pool, count);
        self.record(Call {
            asked: KeeperAsk::Lease { pool, count },
            answer: KeeperAnswer::of_first(&result),
            hidden: false,
        });
        result
    }

    fn settle(
        &mut self,
        ticket: u64,
        old_spir: u64,
        sa: &Record,
        member: u32,
    ) -> Result<(), KeeperFault> {
        let result = self.keeper.settle(ticket, old_spir, sa, member);
        self.record(Call {
            asked: KeeperAsk::Settle {
                ticket,
                old_spir,
                sa: sa.copied(),
                member,
            },
            answer: KeeperAnswer::of_done(&result),
            hidden: false,
        });
        result
    }

    fn look(&mut self, ticket: u64) -> Result<bool, KeeperFault> {
        let result = self.keeper.look(ticket);
        self.record(Call {
            asked: KeeperAsk::Look { ticket },
            answer: KeeperAnswer::of_look(&result),
            hidden: false,
        });
        result
    }
}
