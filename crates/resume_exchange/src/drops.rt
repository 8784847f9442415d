use ike_grammar::Bad;

/// Why a message of a resumption is dropped, in the order of the checks. Nothing has changed then,
/// but that half-open associations past their age may be gone.
#[derive(Clone, Copy, Debug, PartialEq, Eq)]
pub enum ResumeDrop {
    /// No attempt waits for it.
    NotAsked,
    /// With a half-open association, a message of this exchange type is none that it waits for.
    Exchange(u8),
    /// No half-open association has its SPIs.
    UnknownSpi,
    /// Its integrity check value does not hold.
    NotOpened,
    /// Its inner payloads are faulty: where, counted in octets of the plaintext from 0, and why.
    Bad(Bad),
    /// The other end's AUTH code is missing, or is not that of the resumed keys.
    AuthWrong,
    /// It lacks what such a message has to have.
    Form,
    /// There are 64 half-open associations.
    HalfOpenFull,
    /// An association of this end has the responder's SPI already.
    SpiInUse,
}
