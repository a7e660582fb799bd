// What stands in the payload of an attribute: numbers, addresses and text.
#![tactic(auto)]

pub mod error;
pub mod ip;
pub mod number;
pub mod parsers;
pub mod text;
