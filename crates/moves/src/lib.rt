// Changes of the live table, in place on its columns: an entry issued, joined and ended, the reads closed that a request spoils, a client struck out.
#![tactic(auto)]

pub mod changing;
pub mod closing;
pub mod ending;
pub mod striking;
