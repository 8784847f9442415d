use crate::short_lists::OctetArray;

/// The data of an ID payload (RFC 7296, section 3.5): IPv4 is 1, FQDN 2, RFC822 3, IPv6 5 and
/// KEY_ID 11.
#[derive(Clone, Copy, Debug, PartialEq, Eq)]
pub struct Identity {
    pub kind: u8,
    pub octets: OctetArray<64>,
}

/// A gateway as REDIRECT names it (RFC 5685, section 9.2): IPv4 is 1, IPv6 2 and FQDN 3.
#[derive(Clone, Copy, Debug, PartialEq, Eq)]
pub struct GatewayId {
    pub kind: u8,
    pub octets: OctetArray<255>,
}
