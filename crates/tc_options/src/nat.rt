// The options of an address translation.
use crate::parms::{KnownAction, TcActionParmsOption};
use tc_records::nat::TcNat;

/// The kind of an address translation.
pub const KIND: &[u8] = b"nat";

impl KnownAction for TcNat {
    const TM: u16 = 2;

    ghost TM = { 2 };

    const PARMS: u16 = 1;

    ghost PARMS = { 1 };
}

/// An option of an address translation.
pub type TcActionNatOption<'a> = TcActionParmsOption<'a, TcNat>;
