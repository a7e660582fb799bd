// The options of an action as text for people, by the action's kind.
#![tactic(auto)]

pub mod mirror;
pub mod nat;
pub mod option;
pub mod parms;
pub mod tunnel_key;
