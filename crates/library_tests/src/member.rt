use aes_gcm::Key;
use ha_base::{CounterName, End, GatewayId, Identity, Kind, Moment, OctetArray, Octets, Origin};
use ike_grammar::decode_message;
use keeper_book::MemoryKeeper;
use resume_answers::{MemberAnswer, OwnParts, Resumptions};
use resume_exchange::HalfOpens;
use spend_once::Lot;
use std::alloc::Global;
use std::process::Abort;
use std::test::*;

// Requests to resume and their answers as another program plays them. The ticket of the first opens
// under the key, and so does that of the third, whose peer is sent away; that of the second does not.
const REQUESTS: [(&str, bool, &str, &str); 3] = [
    (
        "000000000000000100000000000000002820260800000000000000bb290000247c881e460981b5449226410d12569a80c0a54ec72babc3b00000000000000001290000730000401d0100000000000000026cefe97b13946d7e997c322422fbc133b7651b98ef68109d1bddf26253c92f65278b7d5a08948c48335118a57b3817ca699a2ae9a7a48b4343e58ccd15a0b6ea199df0e16291af5db14c783f0684a1c22f564173f4d557196c886a3dff15af523d5c0000000800004016",
        false,
        "half-open",
        "0000000000000001000000000000000128202620000000000000004000000024bd9755938602b683dee1a0901e750ace12ef4422fc04b1270000000000000001",
    ),
    (
        "0000000000000001000000000000000028202608000000000000009829000024b6531c7e487b6f1841fac0221251d589a6a3b2a526fd18d3ffea4c05a24ee467290000500000401d010000000000000001780c43d777dc279eddea0efd89a5570889838c394eb0f9da7ee5128ac7e74bdb9bc5aad020c659b3f59c30a18b1713bb1817d35bc0f1628e5b37a0c4ee76fa0000000800004016",
        false,
        "nack",
        "00000000000000010000000000000000292026200000000000000024000000080000401c",
    ),
    (
        "000000000000000400000000000000002820260800000000000000af2900002412a9545eef2129f746043ea0cad8bbbaebe7151a1ddfc34a0000000000000004290000670000401d01000000000000000556d6f019e6c1cbd4e24712b3b5bd85a3d137690d81f58f91ef3385c970b22433014e453ac558bf525638ee7f8f499a0dfd435c31f51d05c97954599d09fbf1c8fd522a79390995039a61d0fd0383d0ee5785e02cab980000000800004016",
        true,
        "redirecting",
        "0000000000000004000000000000000029202620000000000000004a0000002e0000401701044ffd08f212a9545eef2129f746043ea0cad8bbbaebe7151a1ddfc34a0000000000000004",
    ),
];

/// The counter of what a member draws.
fn counter(kind: Kind) -> CounterName {
    CounterName {
        origin: Origin::TicketKey(1),
        kind,
        child: 0,
        end: End::Cluster,
    }
}

/// What the member was told.
fn own(rt: &impl Abort, steered: bool) -> OwnParts {
    let key = [
        0xab, 0x0c, 0x21, 0x95, 0xed, 0x37, 0x1e, 0x6e, 0x84, 0xd3, 0x48, 0x94, 0x4a, 0xcb, 0x28,
        0xd3, 0x53, 0x88, 0xc2, 0x7a,
    ];
    let gateway = GatewayId {
        kind: 1,
        octets: OctetArray::from_slice(&[0x4f, 0xfd, 0x08, 0xf2]),
    };
    OwnParts {
        member: 1,
        fresh: [
            0xbd, 0x97, 0x55, 0x93, 0x86, 0x02, 0xb6, 0x83, 0xde, 0xe1, 0xa0, 0x90, 0x1e, 0x75,
            0x0a, 0xce, 0x12, 0xef, 0x44, 0x22, 0xfc, 0x04, 0xb1, 0x27,
        ],
        identity: Identity {
            kind: 2,
            octets: OctetArray::from_slice(&[0x5d, 0xd1, 0x01, 0xaf, 0x32, 0x76]),
        },
        ticket_key: Some(Key::new(counter(Kind::TicketIv), &key).expect(rt, "a key with its salt")),
        steered: if steered { Some(gateway) } else { None },
    }
}

/// The word of an answer, and its octets.
fn told(answer: MemberAnswer) -> (&'static str, Option<Octets>) {
    match answer {
        MemberAnswer::HalfOpen(_, octets) => ("half-open", Some(octets)),
        MemberAnswer::Nack(octets) => ("nack", Some(octets)),
        MemberAnswer::Redirecting(_, octets) => ("redirecting", Some(octets)),
        MemberAnswer::Dropped(_) => ("dropped", None),
        MemberAnswer::Refused(_) => ("refused", None),
    }
}

#[test]
fn requests_are_answered_as_another_program_does(rt: HostRuntime) -> Result<(), Fail> {
    for (request, steered, wanted, octets) in REQUESTS {
        let mut held = Resumptions {
            half_opens: HalfOpens::new(rt.alloc())?,
            nonces: Lot::new(counter(Kind::Nonce), 1, 1),
        };
        let mut keeper = MemoryKeeper::new(rt.alloc());
        let request = hex::decode(rt.alloc(), request)?;
        let message = decode_message(rt.alloc(), &request)?;
        let own = own(&rt, steered);
        let answer = held.on_resume(
            rt.alloc(),
            &mut keeper,
            &own,
            Moment(11),
            &message,
            &request,
        )?;
        let (word, given) = told(answer);
        assert_eq!(rt; word, wanted);
        assert_eq!(rt;
            held.half_opens.count(),
            if word == "half-open" { 1 } else { 0 }
        );
        if let Some(given) = given {
            let octets = hex::decode(rt.alloc(), octets)?;
            assert_eq!(rt; given.as_slice(), octets.as_slice());
        }
    }
    Ok(())
}
