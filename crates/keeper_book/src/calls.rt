ghost use Rattle.std.specs.Prelude.{◌≡◌};
ghost use Rattle.keeper_book.specs.Told.{done, first_answer, look_answer, taken_answer};

use crate::faults::KeeperFault;
use crate::pools::Pool;
use crate::records::{Record, Taken};
use ha_base::Kind;

/// What a keeper is asked.
#[derive(Debug, PartialEq, Eq, Drop)]
pub enum KeeperAsk {
    /// To add an association.
    Enter {
        sa: Record,
    },
    /// To begin an epoch of the association with this responder's SPI, for a member; members are
    /// counted from 1.
    TakeOver {
        spir: u64,
        member: u32,
    },
    /// To raise the high of a counter in an epoch, so that all numbers below `upto` may be used.
    Cover {
        spir: u64,
        kind: Kind,
        child: u32,
        epoch: u64,
        upto: u64,
    },
    /// For so many numbers of a pool.
    Lease {
        pool: Pool,
        count: u64,
    },
    /// To spend a ticket, and to put the association that was resumed with it in place of the old
    /// one, in an epoch of this member.
    Settle {
        ticket: u64,
        old_spir: u64,
        sa: Record,
        member: u32,
    },
    /// Whether a ticket is spent.
    Look {
        ticket: u64,
    },
}

/// What a keeper answers.
#[derive(Debug, PartialEq, Eq, Drop)]
pub enum KeeperAnswer {
    /// An association was added, a high raised, or a ticket spent.
    Done,
    /// An epoch began.
    Taken(Taken),
    /// The first number of a range that was leased.
    First(u64),
    /// The ticket is spent.
    Look(bool),
    /// The call failed, or was refused.
    Refused(KeeperFault),
}

/// One call of a keeper.
#[derive(Debug, PartialEq, Eq, Drop)]
pub struct Call {
    pub asked: KeeperAsk,
    /// What was answered; where the answer was hidden from the caller, what the keeper answered
    /// below.
    pub answer: KeeperAnswer,
    /// The caller saw a failed call in place of the answer.
    pub hidden: bool,
}

impl KeeperAsk {
    /// The same once more. It takes no memory.
    pub fn copied(&self) -> KeeperAsk
        ensures { result ≡ self.now }
    {
        match self {
            KeeperAsk::Enter { sa } => KeeperAsk::Enter { sa: sa.copied() },
            KeeperAsk::TakeOver { spir, member } => KeeperAsk::TakeOver {
                spir: *spir,
                member: *member,
            },
            KeeperAsk::Cover {
                spir,
                kind,
                child,
                epoch,
                upto,
            } => KeeperAsk::Cover {
                spir: *spir,
                kind: *kind,
                child: *child,
                epoch: *epoch,
                upto: *upto,
            },
            KeeperAsk::Lease { pool, count } => KeeperAsk::Lease {
                pool: *pool,
                count: *count,
            },
            KeeperAsk::Settle {
                ticket,
                old_spir,
                sa,
                member,
            } => KeeperAsk::Settle {
                ticket: *ticket,
                old_spir: *old_spir,
                sa: sa.copied(),
                member: *member,
            },
            KeeperAsk::Look { ticket } => KeeperAsk::Look { ticket: *ticket },
        }
    }
}

impl KeeperAnswer {
    /// The same once more. It takes no memory.
    pub fn copied(&self) -> KeeperAnswer
        ensures { result ≡ self.now }
    {
        match self {
            KeeperAnswer::Done => KeeperAnswer::Done,
            KeeperAnswer::Taken(taken) => KeeperAnswer::Taken(taken.copied()),
            KeeperAnswer::First(first) => KeeperAnswer::First(*first),
            KeeperAnswer::Look(spent) => KeeperAnswer::Look(*spent),
            KeeperAnswer::Refused(fault) => KeeperAnswer::Refused(*fault),
        }
    }

    /// What a call is answered that gives nothing.
    pub fn of_done(answered: &Result<(), KeeperFault>) -> KeeperAnswer
        ensures { result ≡ done answered.now }
    {
        match answered {
            Ok(()) => KeeperAnswer::Done,
            Err(fault) => KeeperAnswer::Refused(*fault),
        }
    }

    /// What a takeover is answered. It takes no memory.
    pub fn of_taken(answered: &Result<Taken, KeeperFault>) -> KeeperAnswer
        ensures { result ≡ taken_answer answered.now }
    {
        match answered {
            Ok(taken) => KeeperAnswer::Taken(taken.copied()),
            Err(fault) => KeeperAnswer::Refused(*fault),
        }
    }

    /// What a lease is answered.
    pub fn of_first(answered: &Result<u64, KeeperFault>) -> KeeperAnswer
        ensures { result ≡ first_answer answered.now }
    {
        match answered {
            Ok(first) => KeeperAnswer::First(*first),
            Err(fault) => KeeperAnswer::Refused(*fault),
        }
    }

    /// What is answered to whether a ticket is spent.
    pub fn of_look(answered: &Result<bool, KeeperFault>) -> KeeperAnswer
        ensures { result ≡ look_answer answered.now }
    {
        match answered {
            Ok(spent) => KeeperAnswer::Look(*spent),
            Err(fault) => KeeperAnswer::Refused(*fault),
        }
    }
}

impl Call {
    /// The same once more. It takes no memory.
    pub fn copied(&self) -> Call
        ensures { result ≡ self.now }
    {
        Call {
            asked: self.asked.copied(),
            answer: self.answer.copied(),
            hidden: self.hidden,
        }
    }
}
