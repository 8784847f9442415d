use ha_base::{GatewayId, Identity, KeySize, OctetArray, Octets};
use ike_grammar::decode_message;
use ike_sas::SentMessage;
use resume_exchange::{Attempt, LONGEST_KEPT_TICKET, OldKeys, PeerAnswer, PeerAuth, ResumeDrop};
use std::alloc::Global;
use std::test::*;

// One resumption as another program plays it: the request, the answer, the peer's IKE_AUTH and its
// plaintext, and the response.
const REQUEST: &str =
    "000000000000000300000000000000002820260800000000000000ac29000024b4c2c025b3fdb7ba34e418ab312130faad48f64b0c8830110000000000000003290000640000401d01000000000000001184bc6cbc25e0c07fd4fba161caa120faa4ab1fd94d8d3ec3c707b3f64eb2c4983be95e5018711d4dd9350cd703d2f252ce72c76f33520cb7df19315874a5b9778f1909c0946168949e62e14107e85e007385920000000800004016";

const ANSWER: &str =
    "000000000000000300000000000000022820262000000000000000400000002405380606aeddb32202df5a4d148f3b2543de8a5125dd67710000000000000002";

const AUTH: &str =
    "000000000000000300000000000000022e20230800000001000000ca230000ae000000000000000121344c674f81536f3808a06df37fb9dd5f0639392de38863bd9062ac3015e6f603ce8c7690c4928074f9e2ee55c4055cf430694e8fe48a5cda98d2bf29a4b53c5e0a271222020dbba2fbe0e45b38a030a5bc9f56a9162cc6c2136169f5eb4ac1259fd22a40de4b22eeb7242ecfb585fcad232f5c6980f3e300079bd64fb2b13e5e0e51025ef0b550aee42c14472b6f5b9006c31b88d1bb242585d7e7d0f0ee435b23";

const AUTH_PLAIN: &str =
    "270000090b000000882100002802000000c3d298293afa326ed7b8535ef9270d139924182f060d8cc2ce710ec4700f9b972c0000240000002001030402000001030300000c01000014800e008000000008050000012d00001801000000070000100000ffff00000000ffffffff2900001801000000070000100000ffff00000000ffffffff0000000c000040010000000800";

const RESPONSE: &str =
    "000000000000000300000000000000022e20232000000001000000cb240000af0000000000000001aa92734a331cfdd6b38e32a67c1cfcd39e67d71bf998f9b77b1968903950cb7c3e902d0bdb87acf5d27838f3062a0a11eac4fbe694ff502306d8a35b19cdcb3da9ece4bbbc2092aee705a3749c543ea8bbe0e96ee06437e091a55b4cc24ae5c25846441d5637fac9890d5faae8e3339dc619ab065b48a0a6eddd16c26a1b2670398361d81246793232cc393fbe99184e72de5c2f79f45ef2a75b7cb5dbf94fb194e01a";

/// The peer's ticket.
const TICKET: &str =
    "01000000000000001184bc6cbc25e0c07fd4fba161caa120faa4ab1fd94d8d3ec3c707b3f64eb2c4983be95e5018711d4dd9350cd703d2f252ce72c76f33520cb7df19315874a5b9778f1909c0946168949e62e14107e85e00738592";

/// The peer's 24 fresh octets.
const FRESH: [u8; 24] = [
    0xb4, 0xc2, 0xc0, 0x25, 0xb3, 0xfd, 0xb7, 0xba, 0x34, 0xe4, 0x18, 0xab, 0x31, 0x21, 0x30, 0xfa,
    0xad, 0x48, 0xf6, 0x4b, 0x0c, 0x88, 0x30, 0x11,
];

/// The number of the attempt.
const NUMBER: u64 = 3;

/// What the association was that the ticket was issued in.
fn old_keys() -> OldKeys {
    OldKeys {
        spir: 0xd1c1_2b57_3757_7a79,
        sk_d: [
            0x4e, 0x47, 0x55, 0xac, 0x2c, 0xc7, 0x27, 0x42, 0xc7, 0x72, 0xf7, 0xc9, 0x72, 0x0a,
            0xf8, 0xdf, 0x8d, 0x06, 0xae, 0xa4, 0x22, 0x82, 0x67, 0x26, 0xa9, 0x6c, 0x0e, 0x24,
            0xae, 0xa5, 0xee, 0xc2,
        ],
        size: KeySize::Bits128,
        identity: Identity {
            kind: 11,
            octets: OctetArray::from_slice(&[0x88]),
        },
    }
}

/// A gateway that a peer left.
fn gateway() -> GatewayId {
    GatewayId {
        kind: 3,
        octets: OctetArray::from_slice(b";\xae"),
    }
}

/// The attempt, and the octets of its request.
fn begun(alloc: Global, left: Option<GatewayId>) -> Result<(Attempt, Octets), Fail> {
    let ticket = hex::decode(alloc, TICKET)?;
    let ticket = ticket.as_slice();
    let kept = &ticket[..ticket.len().min(LONGEST_KEPT_TICKET)];
    Ok(Attempt::begin(alloc, NUMBER, &FRESH, kept, &old_keys(), &left)?)
}

/// What the answer is, and the octets that are sent.
fn told(answer: PeerAnswer) -> (&'static str, Option<SentMessage>) {
    match answer {
        PeerAnswer::Nr(_, sent) => ("nonce", Some(sent)),
        PeerAnswer::Nacked => ("nacked", None),
        PeerAnswer::Redirect(_, _) => ("redirect", None),
        PeerAnswer::Dropped(ResumeDrop::Form) => ("form", None),
        PeerAnswer::Dropped(ResumeDrop::SpiInUse) => ("spi in use", None),
        PeerAnswer::Dropped(ResumeDrop::NotAsked) => ("not asked", None),
        PeerAnswer::Dropped(_) => ("another drop", None),
    }
}

/// What is made of the answer in hexadecimal.
fn answered(
    alloc: Global,
    attempt: &mut Attempt,
    answer: &str,
    in_use: bool,
) -> Result<(&'static str, Option<SentMessage>), Fail> {
    let octets = hex::decode(alloc, answer)?;
    let message = decode_message(alloc, &octets)?;
    Ok(told(attempt.on_answer(alloc, &message, &octets, in_use)?))
}

/// What is made of the response in hexadecimal, and the SPIs of the Child SA.
fn authenticated(
    alloc: Global,
    attempt: &Attempt,
    response: &str,
    in_use: bool,
) -> Result<(&'static str, u32, u32), Fail> {
    let octets = hex::decode(alloc, response)?;
    let message = decode_message(alloc, &octets)?;
    Ok(match attempt.on_auth(alloc, &message, &octets, in_use)? {
        PeerAuth::Resumed(sa) => ("resumed", sa.spi_in, sa.spi_out),
        PeerAuth::Refused(_) => ("refused", 0, 0),
        PeerAuth::Dropped(ResumeDrop::NotAsked) => ("not asked", 0, 0),
        PeerAuth::Dropped(ResumeDrop::NotOpened) => ("not opened", 0, 0),
        PeerAuth::Dropped(ResumeDrop::SpiInUse) => ("spi in use", 0, 0),
        PeerAuth::Dropped(_) => ("another drop", 0, 0),
    })
}

#[test]
fn an_association_is_resumed(rt: HostRuntime) -> Result<(), Fail> {
    let (mut attempt, request) = begun(rt.alloc(), None)?;
    let wanted = hex::decode(rt.alloc(), REQUEST)?;
    assert_eq!(rt; request.as_slice(), wanted.as_slice());
    let (word, sent) = answered(rt.alloc(), &mut attempt, ANSWER, false)?;
    assert_eq!(rt; word, "nonce");
    if let Some(sent) = sent {
        let plain = hex::decode(rt.alloc(), AUTH_PLAIN)?;
        assert_eq!(rt; sent.seal.plain.as_slice(), plain.as_slice());
        let sealed = hex::decode(rt.alloc(), AUTH)?;
        assert_eq!(rt; sent.datagram.octets.as_slice(), sealed.as_slice());
    }
    let rows = [
        (RESPONSE, false, ("resumed", 258, 259)),
        (RESPONSE, true, ("spi in use", 0, 0)),
        (AUTH, false, ("not opened", 0, 0)),
    ];
    for (response, in_use, wanted) in rows {
        assert_eq!(rt;
            authenticated(rt.alloc(), &attempt, response, in_use)?,
            wanted
        );
    }
    Ok(())
}

#[test]
fn the_gateway_that_was_left_is_named(rt: HostRuntime) -> Result<(), Fail> {
    let (attempt, request) = begun(rt.alloc(), Some(gateway()))?;
    let last = hex::decode(rt.alloc(), "0000000c0000401803023bae")?;
    assert!(rt; request.as_slice().ends_with(&last));
    assert_eq!(rt;
        authenticated(rt.alloc(), &attempt, RESPONSE, false)?,
        ("not asked", 0, 0)
    );
    Ok(())
}

/// Answers, and what a peer makes of each: the first two as another program writes them.
const ANSWERS: [(&str, &str); 8] = [
    (
        "00000000000000070000000000000000292026200000000000000024000000080000401c",
        "nacked",
    ),
    (
        "0000000000000004000000000000000029202620000000000000004a0000002e0000401701044ffd08f212a9545eef2129f746043ea0cad8bbbaebe7151a1ddfc34a0000000000000004",
        "redirect",
    ),
    (
        "000000000000000300000000000000022820262000000001000000400000002405380606aeddb32202df5a4d148f3b2543de8a5125dd67710000000000000002",
        "form",
    ),
    (
        "000000000000000300000000000000002820262000000000000000400000002405380606aeddb32202df5a4d148f3b2543de8a5125dd67710000000000000002",
        "form",
    ),
    (
        "000000000000000700000000000000002920262000000000000000250000000900004006aa",
        "form",
    ),
    (
        "000000000000000700000000000000002920262000000000000000260000000a000040170305",
        "form",
    ),
    (
        "0000000000000007000000000000000000202620000000000000001c",
        "form",
    ),
    (ANSWER, "nonce"),
];

#[test]
fn the_first_that_is_there_counts(rt: HostRuntime) -> Result<(), Fail> {
    for (answer, wanted) in ANSWERS {
        let (mut attempt, _) = begun(rt.alloc(), None)?;
        let (word, _) = answered(rt.alloc(), &mut attempt, answer, false)?;
        assert_eq!(rt; word, wanted);
    }
    let (mut attempt, _) = begun(rt.alloc(), None)?;
    for (in_use, wanted) in [(true, "spi in use"), (false, "nonce"), (false, "not asked")] {
        let (word, _) = answered(rt.alloc(), &mut attempt, ANSWER, in_use)?;
        assert_eq!(rt; word, wanted);
    }
    Ok(())
}
