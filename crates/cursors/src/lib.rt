// Going through a filter part by part: cursors over options, actions, an action's attributes and its options.
#![tactic(auto)]

pub mod action_options;
pub mod actions;
pub mod attributes;
pub mod laws;
pub mod options;
pub mod parts;
