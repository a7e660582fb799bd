// Refusals in words and in numbers.
#![tactic(auto)]

pub mod fault;
#[cfg(test)]
mod tests;
