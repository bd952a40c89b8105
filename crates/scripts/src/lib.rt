// The words of a script: which call a row names, a row printed, and what came of a call said. The calls that leave the state are run here.
#![tactic(auto)]

pub mod apart;
pub mod naming;
mod pieces;
mod printing;
pub mod telling;

pub use printing::print_call;
