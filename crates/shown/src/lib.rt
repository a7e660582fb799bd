// What stands in a filter as text for people: bytes, kind texts, named values, addresses, records, and attributes that are kept as they stand.
#![tactic(auto)]

pub mod address;
pub mod attribute;
pub mod bytes;
pub mod named;
pub mod record;
