use ike_grammar::Bad;

/// Why a message was not opened.
#[derive(Debug, Drop)]
pub enum NotRead {
    /// The octets spell no message: where, counted in octets from 0, and why.
    Bad(Bad),
    /// SK is not the only payload, or its integrity check value is not that of its ciphertext.
    NotOpened,
    /// Memory was wanting.
    Memory,
}

/// Why a message that was decoded before was not opened.
#[derive(Clone, Copy, Debug, PartialEq, Eq)]
pub enum OpenFault {
    /// SK is not the only payload, or its integrity check value is not that of its ciphertext.
    NotOpened,
    /// Memory was wanting.
    Memory,
}
