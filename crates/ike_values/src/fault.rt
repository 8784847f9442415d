//! Why octets spell no value, and where.

/// Why octets spell no value.
#[derive(Clone, Copy, Debug, PartialEq, Eq)]
pub enum Reason {
    /// Fewer octets are left than stand here at least.
    Short,
    /// A length field, a size or a count that does not fit what it counts.
    Length,
    /// A major version other than 2.
    Version,
    /// A field with a value that it cannot have.
    Field,
    /// Octets after the last item.
    Trailing,
    /// A critical payload of this unknown type.
    UnknownCritical(u8),
    /// Octets after an SK payload.
    SkNotLast,
}

/// The first fault of octets: the place, counted in octets from 0, and the reason.
#[derive(Clone, Copy, Debug, PartialEq, Eq)]
pub struct Bad {
    pub place: usize,
    pub reason: Reason,
}
