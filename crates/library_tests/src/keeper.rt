ghost use Rattle.std.specs.Prelude.{◌≡◌, length};
ghost use Rattle.keeper_book.specs.Counters.{AreWithinEnds};

use ha_base::{ChildKeys, Identity, KeySize, OctetArray, OctetList, Origin, SaKeys};
use keeper_book::{
    Call, Five, Gate, Keeper, KeeperAnswer, KeeperAsk, KeeperFault, MemoryKeeper, Pool, Record,
};
use std::test::Fail;

const SPIR: u64 = 0x0001_0000_0000_0002;

fn starts() -> Five
    ensures { AreWithinEnds result }
{
    Five {
        esp_out: 1,
        esp_in: 1,
        iv: 1,
        ask: 0,
        answer: 0,
    }
}

fn sealing_key(octet: u8) -> OctetList<36>
    ensures { length result ≡ 20 }
{
    OctetList::from_slice(&[octet; 20])
}

/// The association that a resumption makes.
fn record() -> Record {
    Record {
        origin: Origin::Imported(1),
        spii: 1,
        spir: 1,
        size: KeySize::Bits128,
        identity: Identity {
            kind: 2,
            octets: OctetArray::from_slice(b"peer"),
        },
        keys: SaKeys {
            sk_d: [0x11; 32],
            sk_ei: sealing_key(0x22),
            sk_er: sealing_key(0x33),
            sk_pi: [0x44; 32],
            sk_pr: [0x55; 32],
        },
        spi_in: 257,
        spi_out: 0x0001_0002,
        child: ChildKeys {
            to_cluster: sealing_key(0x66),
            to_peer: sealing_key(0x77),
        },
        starts: starts(),
    }
}

fn leased<K: Keeper>(keeper: &mut K) -> Result<u64, KeeperFault> {
    keeper.lease(Pool::Nonce, 16)
}

fn settled<K: Keeper>(keeper: &mut K) -> Result<(), KeeperFault> {
    keeper.settle(5, SPIR, &record(), 2)
}

fn looked<K: Keeper>(keeper: &mut K) -> Result<bool, KeeperFault> {
    keeper.look(5)
}

#[test]
fn a_ticket_is_spent_once(rt: HostRuntime) {
    let mut keeper = MemoryKeeper::new(rt.alloc());
    assert_eq!(rt; looked(&mut keeper), Ok(false));
    assert_eq!(rt; settled(&mut keeper), Ok(()));
    assert_eq!(rt; looked(&mut keeper), Ok(true));
    assert_eq!(rt; settled(&mut keeper), Err(KeeperFault::Spent));
}

fn call(asked: KeeperAsk, answer: KeeperAnswer) -> Call {
    Call {
        asked,
        answer,
        hidden: false,
    }
}

/// The calls that a resumption makes of the keeper, and their answers.
fn calls_of_a_resumption() -> [Call; 3] {
    let lease = KeeperAsk::Lease {
        pool: Pool::Nonce,
        count: 16,
    };
    let settle = KeeperAsk::Settle {
        ticket: 5,
        old_spir: SPIR,
        sa: record(),
        member: 2,
    };
    [
        call(lease, KeeperAnswer::First(1)),
        call(settle, KeeperAnswer::Done),
        call(KeeperAsk::Look { ticket: 5 }, KeeperAnswer::Look(true)),
    ]
}

#[test]
fn a_gate_records_what_is_leased_spent_and_looked_at(rt: HostRuntime) -> Result<(), Fail> {
    let mut keeper = MemoryKeeper::new(rt.alloc());
    let mut gate = Gate::new(&mut keeper);
    assert_eq!(rt; leased(&mut gate), Ok(1));
    assert_eq!(rt; settled(&mut gate), Ok(()));
    assert_eq!(rt; looked(&mut gate), Ok(true));
    let calls = gate.take_calls();
    assert_eq!(rt; calls.len(), 3);
    for (at, call) in calls_of_a_resumption().iter().enumerate() {
        assert_eq!(rt; calls.get(at).ok_or("a call")?, call, "{at}");
    }
    Ok(())
}
