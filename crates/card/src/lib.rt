// The card: the medium's file, what a session at it knows, and what is brought to it.
#![tactic(auto)]

pub mod desk;
pub mod file;
pub mod storing;
