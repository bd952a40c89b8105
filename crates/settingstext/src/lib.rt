// The settings text: its reader and its writer.
#![tactic(auto)]

pub mod reading;
pub mod writing;
