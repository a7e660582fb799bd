// The sample entry of the little programs: a filter that picks out a heat meter's packets and mirrors them to a recorder.
#![tactic(auto)]

pub mod entry;
#[cfg(test)]
mod tests;
