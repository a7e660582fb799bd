// Hexadecimal text: from text to bytes, and from bytes to text.
#![tactic(auto)]

pub mod decoding;
pub mod digits;
pub mod encoding;
pub mod plain_text;
