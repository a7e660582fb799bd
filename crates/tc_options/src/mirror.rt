// The options of a mirror action.
use crate::parms::{KnownAction, TcActionParmsOption};
use tc_records::mirror::TcMirror;

/// The kind of a mirror action.
pub const KIND: &[u8] = b"mirred";

impl KnownAction for TcMirror {
    const TM: u16 = 1;

    ghost TM = { 1 };

    const PARMS: u16 = 2;

    ghost PARMS = { 2 };
}

/// An option of a mirror action.
pub type TcActionMirrorOption<'a> = TcActionParmsOption<'a, TcMirror>;
