use ha_base::{GatewayId, Moment, OctetArray};
use redirects::{Asked, Decision, Follows, follow, redirect_octets, redirect_of};
use std::alloc::Global;

/// The nonce of a request to resume.
const NI: [u8; 32] = [1; 32];

/// Data of a notify, and the kind of gateway, its name and the nonce that they spell.
type Row<'a> = (&'a [u8], Option<(u8, &'a [u8], &'a [u8])>);

/// Whether the data are read as these parts.
fn is_read_as(alloc: Global, row: &Row) -> bool {
    match (redirect_of(alloc, row.0), row.1) {
        (Ok(None), None) => true,
        (Ok(Some((gateway, nonce))), Some((kind, name, rest))) => {
            gateway.kind == kind && gateway.octets.as_slice() == name && nonce.as_slice() == rest
        }
        _ => false,
    }
}

#[test]
fn gateways_are_read(rt: HostRuntime) {
    let rows: [Row; 6] = [
        (b"\x03\x01bnonce", Some((3, b"b", b"nonce"))),
        (b"\x01\x04abcd", Some((1, b"abcd", b""))),
        (
            b"\x02\x10abcdefghijklmnop-",
            Some((2, b"abcdefghijklmnop", b"-")),
        ),
        (b"\x03\x02b", None),
        (b"\x03\x00b", None),
        (b"\x04\x01b", None),
    ];
    for row in &rows {
        assert!(rt; is_read_as(rt.alloc(), row), "{:?}", row.0);
    }
}

#[test]
fn redirects_are_written(rt: HostRuntime) {
    let gateway = GatewayId {
        kind: 3,
        octets: OctetArray::from_slice(b"gw"),
    };
    assert_eq!(rt;
        redirect_octets(&gateway, b"nonce").as_slice(),
        b"\x03\x02gwnonce".as_slice()
    );
    assert_eq!(rt;
        redirect_octets(&gateway, &[]).as_slice(),
        b"\x03\x02gw".as_slice()
    );
}

#[test]
fn a_sixth_redirect_waits(rt: HostRuntime) {
    let moments = [
        (0, Decision::Follow),
        (0, Decision::Follow),
        (0, Decision::Follow),
        (0, Decision::Follow),
        (0, Decision::Follow),
        (299, Decision::Loop(5)),
        (300, Decision::Follow),
    ];
    let mut history = Follows::new();
    let mut last = 0;
    for (now, decision) in moments {
        if now < last {
            return;
        }
        let decided = follow(&mut history, Moment(now), Asked::Session, &[]);
        assert_eq!(rt; decided, decision, "{now}");
        last = now;
    }
}

#[test]
fn a_resumption_wants_its_nonce(rt: HostRuntime) {
    let rows = [
        (Asked::Resumption(NI), [2; 32], Decision::Nonce),
        (Asked::Resumption(NI), NI, Decision::Follow),
        (Asked::Session, [2; 32], Decision::Follow),
        (Asked::No, NI, Decision::Unasked),
    ];
    for (asked, nonce, decision) in rows {
        let mut history = Follows::new();
        let decided = follow(&mut history, Moment(0), asked, &nonce);
        assert_eq!(rt; decided, decision);
    }
}
