//! The claims of workers on strata, as a machine over events.
//!
//! Seats draw tickets, look at words, win words and join what they won. A seat is a worker's number,
//! 1 to `seats`; a stratum is a share of the work, 1 to `strata`; the word of a stratum is 0, or the
//! number of the seat that won it.
#![tactic(auto)]

mod event;
mod laws;
mod machine;
mod parts;

pub use event::Event;
pub use laws::{
    allowed_lists_are_not_refused, draws_are_accounted, each_ticket_is_drawn_by_one_seat,
    joined_strata_were_won, no_stratum_is_joined_twice, reached_states_are_sound,
    sound_states_account, soundness_is_kept, start_is_sound, tickets_name_strata,
};
pub use machine::{Core, MAX_SEATS, MAX_STRATA, replay, start, step};

#[cfg(test)]
mod tests;
