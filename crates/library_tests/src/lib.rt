//! Tests over the libraries, in a crate of their own: a crate with tests is proved twice, once with
//! them and once without.
//!
//! Here stands what no case and no program says yet: the calls of the keeper that no run makes, each
//! with ample memory, redirects, the exchange that synchronises Message IDs, and resumptions as
//! another program plays them, at the peer and at a member.
#![tactic(auto)]

#[cfg(test)]
mod keeper;
#[cfg(test)]
mod member;
#[cfg(test)]
mod peer;
#[cfg(test)]
mod redirecting;
#[cfg(test)]
mod sizes;
#[cfg(test)]
mod synchronising;
