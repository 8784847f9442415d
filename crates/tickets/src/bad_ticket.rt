/// Why a ticket does not open, in the order of the checks.
#[derive(Clone, Copy, Debug, PartialEq)]
pub enum BadTicket {
    /// It has fewer octets than any ticket.
    Short,
    /// Its first octet is another version.
    Version,
    /// Its integrity check value is not that of its ciphertext under the key.
    NotOpened,
    /// What was sealed is no content: the size of the keys or the type of the identity is none that there is, or the
    /// identity has more than 64 octets.
    Content,
    /// Memory was wanting.
    Memory,
}
