// Scripts: a page's calls as lines of text, from lines to calls and from a written form to lines.
#![tactic(auto)]

pub mod calls;
pub mod keyword;
pub mod line;
mod lister;
mod listers;
pub mod number;
pub mod sheet;
#[cfg(test)]
mod tests;
pub mod words;
pub mod wrong;
