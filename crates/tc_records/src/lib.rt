// The records of traffic control: fixed layouts of numbers, their names, and the selector.
#![tactic(auto)]

pub mod action;
pub mod cls_u32;
pub mod header;
mod joined;
pub mod mirror;
pub mod mirror_action;
pub mod names;
pub mod nat;
pub mod nat_flag;
pub mod outcome;
pub mod parameters;
pub mod record;
pub mod selector;
pub mod tunnel_key;
pub mod u32_flags;
