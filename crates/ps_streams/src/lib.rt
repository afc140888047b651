//! Streams and the clients that take their lines: what a session reads from, its turns, and what no stream does wrong, whatever the
//! store is made to do between its turns.
#![tactic(auto)]

mod driving;
mod outcomes;
mod readings;
mod stream_laws;

pub use driving::{take_turn, take_turn_of};
pub use outcomes::TurnOutcome;
pub use readings::Readings;
pub use stream_laws::{
    calls_make_turns, clients_answer_right, clients_are_led, lives_are_fine, runs_go_on,
    runs_lead_on, sessions_keep_clients_right, takes_rise, voids_are_taken_again,
};
