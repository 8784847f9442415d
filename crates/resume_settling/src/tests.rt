ghost use Rattle.keeper_book.specs.declared.pools.Pool.TheVariants as pool;
ghost use Rattle.pool_lots.specs.Lots.{AreNumbersOf};

use super::*;
use aes_gcm::Key;
use ha_base::{CounterName, End, Identity, Kind, Moment, OctetArray, Origin};
use ike_grammar::decode_message;
use ike_sas::SentMessage;
use keeper_book::{Keeper, MemoryKeeper, Record};
use resume_answers::{MemberAnswer, OwnParts, Resumptions};
use resume_exchange::{FRESH_OCTETS, HalfOpens, ResumeDrop};
use spend_once::Lot;
use std::alloc::Global;
use std::process::Abort;
use std::test::*;

/// A resumption at a member as another program plays it. Octets are in hexadecimal.
struct Case {
    /// What comes of the IKE_AUTH.
    word: &'static str,
    /// The key of the tickets, and the cluster's identity, a name.
    ticket_key: &'static str,
    identity: &'static str,
    /// The number that the member draws for it.
    number: u64,
    /// When the request to resume comes, the request and the answer to it.
    begun: u64,
    request: &'static str,
    answer: &'static str,
    /// When the IKE_AUTH comes, and the response to it.
    now: u64,
    auth: &'static str,
    response: &'static str,
}

// In the second the ticket is that of the first, which was spent meanwhile.
const CASES: [Case; 7] = [
    Case {
        word: "resumed",
        ticket_key: "58f1cd32ea1dbad265fbef63dd4e943712bc710c",
        identity: "7f2b",
        number: 1,
        begun: 9223372036854775807,
        request: "000000000000000200000000000000002820260800000000000000ac2900002427c6655be0af5de2fe8b4dd08647b91c5a4e6931a99c5e000000000000000002290000640000401d0100000000000000018224cb0c0b5539d2d9d2138dd80804c3a6ee135e1daa4b4029baceaa5cd7d323e9b31718f7143f8d2797f7f4d7487b164f019e48a2dda3441ec2934b11d493fbf3189acf71d5d11091eb309fb3eedc65443ff30000000800004016",
        answer: "00000000000000020000000000000001282026200000000000000040000000240202020202020202020202020202020202020202020202020000000000000001",
        now: 9223372036854775807,
        auth: "000000000000000200000000000000012e20230800000001000000ca230000ae00000000000000017c7e08233330ec1c7985f071f36feece88687d71c8128ef276ea21420a50d8a20275798af193da9afcd43a544ff8b6f8df0917b420b0a6e8472d78ed46e99616d0b0c7cbb4d00aa284fdf2cd36f3e324aa6cf17db12a209055be1d8b6bf0acbfc5882839542bb020aa10371067f65bfc107ae7248fe1b37cc04b7bd54cb36e333ca7fe70ca9f074ca135a72dc89720786339405161772559d13b8c33c87e67394547",
        response: "000000000000000200000000000000012e20232000000001000000cb240000af000000000000000103c13e70438f56b7c1cf3dc0af704a39406ee81fd48219a659eda6c8bb84f6c6cf787ba28deca655629c8d115002452ac083d4fb698f219a90bc0c566f861181ef462f43e74a3a9557499f560a2254b5f40457997a8abf32a3cb539d3073571c49cf835f0347fb113c1f2027ecf0f6c37e5db40cde4f88d63c1d5ab29e6b85a7b55a076537697bf0b1041f8bdd2e7c348bbd7334c06a91c9f14c861b697f5ba7675192",
    },
    Case {
        word: "spent",
        ticket_key: "58f1cd32ea1dbad265fbef63dd4e943712bc710c",
        identity: "7f2b",
        number: 2,
        begun: 9223372036854775807,
        request: "000000000000000300000000000000002820260800000000000000ac29000024cc6c14fbcfd7d8fec0fd19a317021c1d64be641b1e8c919c0000000000000003290000640000401d0100000000000000018224cb0c0b5539d2d9d2138dd80804c3a6ee135e1daa4b4029baceaa5cd7d323e9b31718f7143f8d2797f7f4d7487b164f019e48a2dda3441ec2934b11d493fbf3189acf71d5d11091eb309fb3eedc65443ff30000000800004016",
        answer: "00000000000000030000000000000002282026200000000000000040000000240202020202020202020202020202020202020202020202020000000000000002",
        now: 9223372036854775807,
        auth: "000000000000000300000000000000022e20230800000001000000ca230000ae00000000000000012c7dd8f4e282d17b05d2c5400d199e6a10adb0723a58c8666cb613af33d5e32eb60577f389afbb29544d83da3ca8a0bbe47198964cb2882ecade35666d2bea77e418d49267f03c22ed7e76692b7fbb2c86b00c92935808b14a75fc014102959ae251195f9f42587f0b82ef236292bfda6ba54da10718e71c589f14d718db485ed82171edabf38a23bbad66d085a25243f441a4bbc0f6f0ff4e8f424ef57700a907af",
        response: "000000000000000300000000000000022e202320000000010000004129000025000000000000000167d7fe507e85d32e53445f0f14fc22bc79a791cca0cf80b137",
    },
    Case {
        word: "payload",
        ticket_key: "85e686186d36875a821d8207a1546b88ba24be90418c324d3955ddbef46d8814b71f73d2",
        identity: "dff5094c9d58",
        number: 17,
        begun: 0,
        request: "000100000000000000000000000000002820260800000000000000a729000024b06b5ae45ae645e6e65d3e94aa06e67fa0d89f6e766a5e4937dfabc30edfaae2000000670000401d0100000001000000001e5bf2c39511d9b4cd2a02ab7d38ac8d27bf00d9efb21b3c89c18ec3d947ec6c7ccd20a4df02c09b22060c5e8e12b6141862e6886085740989edf088d668de05c16f6fc4cc348ed9f4a3c25f5c59c666ec5744fa0195",
        answer: "00010000000000000000000000000011282026200000000000000040000000243f3967261d7bc2d13cfb30ed74ee7f3026e94596b39928b20000000000000011",
        now: 0,
        auth: "000100000000000000000000000000112e20230800000001000000e9230000cd00000000000000010b67c73989abed1e2b82bcc3d7304fc4a2a88ddce6ca63b9c12361a6ebc9c5f2d46c9f17738c12e4188623440a6a545120ac1e6ce2eb81ea07dc2a4487d5cf3eae98994bed99bb1a8af46f1aa9a9964d5ccbb3c9ca1e608a52111944a507392ff02e4d3ae71695e8317047261c290a897013c8165e42b9275c7608f0c0a6b6727f56aa79df32286a168c22dfdda90307c7a12a1621b54eaf2facaced47cc20b1ef8650df96bd989dbd0f7d910910ef08fa289f17acca9895a9b0f1e88a02720147",
        response: "000100000000000000000000000000112e2023200000000100000041290000250000000000000001e2b88bd75fa153bfeaee4ba45699accae21af28a510a9df3ab",
    },
    Case {
        word: "identity",
        ticket_key: "4b6bf7dbf3c4f8002c887d1a48189b942c4a28ac2a486d1967fe84a6c17353ea32dd194d",
        identity: "e5a9887395b986c3d07ec8",
        number: 2,
        begun: 1,
        request: "000100000000000000000000000000002820260800000000000000aac800002428c3ae568249c8f7345f2a9ac64315d8d7f9c2aa7e6b7c6a94ac81890afcbb4d290000067879000000640000401d0100000001000000004552ee05942efda2fd503f2ec8460963e6fbfa96007ac68078a4db1030274a80673e353aac194bf41edc8d3741f5b2091f28c797d1c82a061e015e1804ac6882f75e88638831f5a07504edd685032613a278e9",
        answer: "0001000000000000000000000000000228202620000000000000004000000024167ff56e48ffa478dc73cbc84e72f300aeb0552bd6a4b97e0000000000000002",
        now: 1,
        auth: "000100000000000000000000000000022e20230800000001000000e6230000ca000000000000000162ae7abede22c51223aebb11f1f8f73b7c97776fafbc5867ae53195c8911af35afe50b59ecf27589345cd43d0a0319a8ca14f63bb6f566f3a8decd690d19c32c351c65e968ae78b5188a916b8cfe428e8e343a78228ca813d6a6ee4ceab916e7a54b37596595dda97024a818e76f4e52214c503fbeed8dffda18855e7a9b2eee8e3984fab23308c44d52ef95abf25ff6c09e80d755951a13ac8577ced0297694f2d4358bf2090766dd45bd5b9d12f2eb9770e0a77bb2efecb3123c3d47ac",
        response: "000100000000000000000000000000022e2023200000000100000041290000250000000000000001288720bf62fca58e1e91c21c115562819dea233723d6aa914f",
    },
    Case {
        word: "code",
        ticket_key: "d142b73bd7aba435715fb08b63101a6decb6227f612229cb6caa0af057ece660f15a4bdd",
        identity: "d4c82ff29121c8",
        number: 2,
        begun: 0,
        request: "000000000000000200000000000000002820260800000000000000bf29000024123ea994f3a9198cc857862f45c28d7b4b1bd4fdee28fba60000000000000002290000770000401d0100000000000000021656e579b5223973ba77247bf11796aa4bd698e0d3938e494dad865afa400bf75f4c46bb35e4cfe0b846c9c704cba058dc83ae06d5d37139f8366dc8dd1cc7658214512ded0e36c36b55e2ca0bac55bf252e0c738aa26c80978610ca842779af574ac356b7c50000000800004016",
        answer: "00000000000000020000000000000002282026200000000000000040000000242fd0df31865a7bc3d7306c8f8e7ae8184050783cca3386a40000000000000002",
        now: 20,
        auth: "000000000000000200000000000000022e20230800000001000000f9230000dd00000000000000014516ef43931ea6ddee250410a6aa06453ec54aad0eae4947eeb9bb3b3dede72a0b6e211d3a46bb16f165756f3b728e76399763cb07c2689ef044e49c143c8ec96e4b4da6d2ef4f47132bcbdab2131e0501977f38e5ea597d44599511d7f37e00029516b38cdae5eb21ca5fdfc6e78925c9f7bcef4ea899a5c441427dae292f2c9a0cd840f011400249c0529bf70f3317a54ce2b4740f7baec8feb8d7beb5bdcf012783dd5cf10cf292ef78c959684b1279a1c6049b969bc1b10bf7802204154b3484b55a543d303120cc8acfe821718ecb",
        response: "000000000000000200000000000000022e20232000000001000000412900002500000000000000019d3db6f326d1a36c3a0161ea79b9e8b8433af24e612c6a3670",
    },
    Case {
        word: "no proposal",
        ticket_key: "e09ee13065c362a57cae231fc22b61a084aa35cb",
        identity: "7b",
        number: 1,
        begun: 38,
        request: "000000000000000700000000000000002920260800000000000000b4290000640000401d01ffffffffffffffffd2df6b7f3d3351fcdef7bb88e2a8a0b46b0aba2bd0420fef923358bdd006896dfa8480610001c4155b609b1d64a3a350a1e58600839ff9bc2d20afd51e2e3618f57e7b3afc8aec4018e9a7873eb3ea10be845e280000100000401800020eb760734df60000002421645a62563400285d16b10f7c858f9950be7a9f3e89d59440039de98429fd59",
        answer: "00000000000000070000000000000001282026200000000000000040000000240101010101010101010101010101010101010101010101010000000000000001",
        now: 38,
        auth: "000000000000000700000000000000012e20230800000001000001782300015c00000000000000016d78c399261850c850b40f23c547202214daeb4828def242f07dc474cbc23e85dde0e322c62b014188fd71eb038aebed5a611882dae4e53d74c476c1be10ef29fe7f7f179b93761cbaaaf4d70156c54afb87ed2cb34c1e05246d5cf4a09ed8381025afa97ac425b06efb6ef5330669b74ae18c690606d8a86311fe24a4f27570af9d289fd934ad8f9ebf8031ce17a33fabf7eb36569e00ea5542b443ddf4fc716d37ab2ffb4077b0cac6c886af509f52bd823f5465be3425ff3ebeda04d539f731f797c688d18b934c6569d99efb75539d17de7f5b366455d5dedf795e1a3c9d1579d535032d7504ffd2ee9e81e39b6ce3f2cae74485b52f265d96f1b001f0dbd44ea025074ce32d2c9bba3917f8c0503b6d96dc45dd720acda53b2c0402105094df5b666bfeb5acc53de5e382eaf45fb71748a3b3b9b4c67c7015f84d6eac9fe1316cde66badca668bd7438bc8838b2",
        response: "000000000000000700000000000000012e20232000000001000000412900002500000000000000011d2494b99b070d6bb2a0439ab9e448549c91d6cfa0d2308966",
    },
    Case {
        word: "expired",
        ticket_key: "8107e2e911d2531afee88e8fa669a99fa59b5a9222bdadd00f9ca595a88ee1b557446c14",
        identity: "675f",
        number: 2,
        begun: 9,
        request: "000000000000000300000000000000002820260800000000000000b32900002434f22ddf7fc33097b35ed0bb4ecf36a9074ec2880044a1fa0000000000000003290000670000401d010000000000000003fb99a96414ce3d15f890de9ed7563caf9ca4d77d9163218433228b7db002f5144a31edde4c6edcaae96a95a4e4df7b152252093426a80bdb833a6527f777c88f20aafe5f6aa27a9dbcd5d1a3a075dd58cea25c3fdd5f0000000c000040180302675f",
        answer: "00000000000000030000000000000002282026200000000000000040000000248a103a0b762d280cebb4d65fe0530045071c03de1510973c0000000000000002",
        now: 39,
        auth: "000000000000000300000000000000022e20230800000001000000cd230000b10000000000000001a7088c4d4320e9dbc17cc56cf16b253003243b3ee2b260a64709ac1da0869af5112225604caf7d55acc2e33fd3b52ad1b5d7e4c87c5d2913936d2c22ecb7d6d7d8e8695b44798bf2c0e632740ca1fbc8c263c83065bdf4d9dcc3541c2489d08a5cc5ee9ae5a3bba356943d960c5682c0e0d395031c7f2ad9f75f3e595b7b75c83a1b51187e27ab66cdf8c633b7ab3d6c384af3ce985e31a810a06cca9d1c488a36fbd21554",
        response: "000000000000000300000000000000022e2023200000000100000041290000250000000000000001583d96479161b9920f03f3d462f8861c510cdbb850ff365c75",
    },
];

/// The counter of what a member draws.
fn counter(kind: Kind) -> CounterName {
    CounterName {
        origin: Origin::TicketKey(1),
        kind,
        child: 0,
        end: End::Cluster,
    }
}

/// What is left of a range, the next number of which is the case's.
fn lot(number: u64) -> Lot
    ensures { AreNumbersOf pool.Nonce result }
{
    let name = counter(Kind::Nonce);
    match number {
        1 => Lot::new(name, 1, 17),
        2 => Lot::new(name, 2, 17),
        _ => Lot::new(name, 17, 33),
    }
}

/// What the member was told.
fn own(rt: &impl Abort, alloc: Global, case: &Case) -> Result<OwnParts, Fail> {
    let key = hex::decode(alloc, case.ticket_key)?;
    let identity = hex::decode(alloc, case.identity)?;
    let identity = identity.as_slice();
    let answer = hex::decode(alloc, case.answer)?;
    let mut fresh = [0; FRESH_OCTETS];
    for (to, from) in fresh.iter_mut().zip(answer.iter().skip(32)) {
        *to = *from;
    }
    Ok(OwnParts {
        member: 1,
        fresh,
        identity: Identity {
            kind: 2,
            octets: OctetArray::from_slice(&identity[..identity.len().min(64)]),
        },
        ticket_key: Some(Key::new(counter(Kind::TicketIv), &key).expect(rt, "a key with its salt")),
        steered: None,
    })
}

/// What a member holds once it answered the request to resume as the other program does.
fn half_open(rt: &impl Abort, alloc: Global, case: &Case) -> Result<Resumptions, Fail> {
    let mut held = Resumptions {
        half_opens: HalfOpens::new(alloc)?,
        nonces: lot(case.number),
    };
    let request = hex::decode(alloc, case.request)?;
    let message = decode_message(alloc, &request)?;
    let own = own(rt, alloc, case)?;
    let mut keeper = MemoryKeeper::new(alloc);
    let now = Moment(case.begun);
    let answer = held.on_resume(alloc, &mut keeper, &own, now, &message, &request)?;
    let wanted = hex::decode(alloc, case.answer)?;
    if let MemberAnswer::HalfOpen(_, given) = answer {
        assert_eq!(rt; given.as_slice(), wanted.as_slice());
    }
    Ok(held)
}

/// The word of an answer, the record of what is resumed, and what is sent.
fn told(answer: MemberAuth) -> (&'static str, Option<Record>, Option<SentMessage>) {
    match answer {
        MemberAuth::Resumed(sa, sent) => ("resumed", Some(sa), Some(sent)),
        MemberAuth::AuthFailed(Why::Payload, sent) => ("payload", None, Some(sent)),
        MemberAuth::AuthFailed(Why::Identity, sent) => ("identity", None, Some(sent)),
        MemberAuth::AuthFailed(Why::Code, sent) => ("code", None, Some(sent)),
        MemberAuth::AuthFailed(Why::Expired, sent) => ("expired", None, Some(sent)),
        MemberAuth::AuthFailed(Why::Spent, sent) => ("spent", None, Some(sent)),
        MemberAuth::NoProposal(sent) => ("no proposal", None, Some(sent)),
        MemberAuth::Dropped(ResumeDrop::UnknownSpi) => ("unknown SPI", None, None),
        MemberAuth::Dropped(ResumeDrop::Exchange(_)) => ("exchange", None, None),
        MemberAuth::Dropped(ResumeDrop::NotOpened) => ("not opened", None, None),
        MemberAuth::Dropped(_) => ("another drop", None, None),
        MemberAuth::Refused(_) => ("refused", None, None),
    }
}

/// What comes of these octets at this moment, with what is half open.
fn answered<K: Keeper>(
    rt: &impl Abort,
    alloc: Global,
    keeper: &mut K,
    case: &Case,
    held: &mut Resumptions,
    now: u64,
    octets: &[u8],
) -> Result<(&'static str, Option<Record>, Option<SentMessage>), Fail> {
    let own = own(rt, alloc, case)?;
    let message = decode_message(alloc, octets)?;
    let half_opens = &mut held.half_opens;
    let answer = on_auth(
        alloc,
        keeper,
        &own,
        half_opens,
        Moment(now),
        &message,
        octets,
    )?;
    Ok(told(answer))
}

#[test]
fn resumptions_are_answered_as_another_program_does(rt: HostRuntime) -> Result<(), Fail> {
    let mut keeper = MemoryKeeper::new(rt.alloc());
    for case in &CASES {
        let mut held = half_open(&rt, rt.alloc(), case)?;
        assert_eq!(rt; held.half_opens.count(), 1);
        let auth = hex::decode(rt.alloc(), case.auth)?;
        let (word, _, sent) = answered(
            &rt,
            rt.alloc(),
            &mut keeper,
            case,
            &mut held,
            case.now,
            &auth,
        )?;
        assert_eq!(rt; word, case.word);
        assert_eq!(rt; held.half_opens.count(), 0);
        let wanted = hex::decode(rt.alloc(), case.response)?;
        if let Some(sent) = sent {
            assert_eq!(rt; sent.datagram.octets.as_slice(), wanted.as_slice());
        }
    }
    Ok(())
}

#[test]
fn what_is_refused_may_come_again(rt: HostRuntime) -> Result<(), Fail> {
    let case = &CASES[0];
    let auth = hex::decode(rt.alloc(), case.auth)?;
    let response = hex::decode(rt.alloc(), case.response)?;
    let mut altered = hex::decode(rt.alloc(), case.auth)?;
    if let Some(last) = altered.last_mut() {
        *last ^= 1;
    }
    let mut held = half_open(&rt, rt.alloc(), case)?;
    let mut other = half_open(&rt, rt.alloc(), case)?;
    let mut keeper = MemoryKeeper::new(rt.alloc());
    let mut taken = MemoryKeeper::new(rt.alloc());
    let (_, sa, _) = answered(
        &rt,
        rt.alloc(),
        &mut taken,
        case,
        &mut other,
        case.now,
        &auth,
    )?;
    let mut in_use = MemoryKeeper::new(rt.alloc());
    if let Some(sa) = sa {
        let _ = in_use.settle(99, 0, &sa, 2);
    }
    let rows = [
        (60, &auth, "unknown SPI", 1),
        (59, &response, "exchange", 1),
        (59, &altered, "not opened", 1),
    ];
    for (age, octets, wanted, left) in rows {
        let now = case.begun.saturating_add(age);
        let (word, _, _) = answered(&rt, rt.alloc(), &mut keeper, case, &mut held, now, octets)?;
        assert_eq!(rt; word, wanted);
        assert_eq!(rt; held.half_opens.count(), left);
    }
    let (word, _, _) = answered(
        &rt,
        rt.alloc(),
        &mut in_use,
        case,
        &mut held,
        case.now,
        &auth,
    )?;
    assert_eq!(rt; word, "refused");
    assert_eq!(rt; held.half_opens.count(), 1);
    let (word, _, _) = answered(
        &rt,
        rt.alloc(),
        &mut keeper,
        case,
        &mut held,
        case.now,
        &auth,
    )?;
    assert_eq!(rt; word, "resumed");
    let (word, _, _) = answered(
        &rt,
        rt.alloc(),
        &mut keeper,
        case,
        &mut held,
        case.now,
        &auth,
    )?;
    assert_eq!(rt; word, "unknown SPI");
    Ok(())
}
