// The options of the actions that are known by their kind: what they are, and how they are written.
#![tactic(auto)]

pub mod mirror;
pub mod nat;
pub mod option;
pub mod parms;
pub mod tunnel_key;
