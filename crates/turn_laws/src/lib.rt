//! Who may use which number: the epochs of the book, what a turn does to them, and the laws that
//! keep them apart. Nothing here runs: each law is the contract of a function that does nothing.
#![tactic(auto)]

mod laws;
mod traces;

pub use laws::{
    beginnings_keep_owned, calls_keep_owned, ends_keep_owned, half_opens_are_apart,
    half_opens_keep_owned, jumps_keep_owned, leases_keep_owned, lots_are_apart, moves_keep_owned,
    next_may_be_used, others_change_nothing, passes_keep_owned, rises_keep_owned,
    settles_keep_owned, starts_keep_owned, uses_keep_owned,
};
pub use traces::{
    all_is_owned, all_synchronisations_catch_up, answered_are_taken, covers_are_caught_up,
    executed_for_the_named, genuine_are_accepted, greater_counters_are_left, holdings_are_apart,
    lots_left_are_apart, no_nonce_reuse, no_number_past_its_end, no_number_twice,
    none_below_is_taken, one_receives_at_an_spi, own_turns_tell_holdings, own_turns_tell_states,
    packets_once, replaced_by_later_epochs, requests_once, runs_are_safe,
    synchronisations_leave_the_greater, synchronised_numbers_catch_up, turns_are_moves,
    uses_are_told,
};
