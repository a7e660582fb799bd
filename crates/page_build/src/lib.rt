// A filter put together on a page as it is written, by the page's calls.
#![tactic(auto)]

pub mod build;
mod filler;
mod fillers;
