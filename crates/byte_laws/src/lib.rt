// Laws of numbers in bytes, and of bytes written over others, that stand by themselves.
#![tactic(auto)]

pub mod laws;
