// The page, on which a filter is put together call by call, and runs of its calls.
#![tactic(auto)]

pub mod call;
pub mod level;
pub mod page;
pub mod replay;
pub mod turn;
