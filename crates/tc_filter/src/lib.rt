// The parts of a filter, each by itself: a filter's options, actions, and an action's attributes, as they are read and as they are written.
#![tactic(auto)]

pub mod action;
pub mod action_attribute;
pub mod cls_u32;
pub mod content;
pub mod leaf;
