//! Clients of doors, and what is proved of the connections that they close.
#![tactic(auto)]

mod echoes;
mod returns;

pub use echoes::{echo_all, echo_two_backwards};
pub use returns::give_back_once;
