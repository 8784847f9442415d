//! Redirects of IKEv2 (RFC 5685): what a REDIRECT notification says, and whether it is followed.
//!
//! [`redirect_octets`] writes the data of a notification, and [`redirect_of`] reads them.
//! [`follow`] decides by the nonce that came and by the moments at which redirects were followed,
//! of which [`Follows`] keeps the last five.
#![tactic(auto)]

mod asked;
mod decision;
mod follows;
mod laws;
mod limits;
mod reading;
mod writing;

pub use asked::Asked;
pub use decision::Decision;
pub use follows::{Follows, follow};
pub use laws::{
    decision_is_unique, following_adds_the_moment, following_keeps_the_order, kept_follows_decide,
    reading_is_unique,
};
pub use limits::{LOOP_DETECT_PERIOD, MAX_NONCE, MAX_REDIRECT, MAX_REDIRECTS};
pub use reading::redirect_of;
pub use writing::{is_gateway, redirect_octets};
