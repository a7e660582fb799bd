// The handle of a class: a number in two halves.
ghost use Rattle.std.specs.Prelude.{◌≡◌, ◌+◌, ◌*◌, ◌/◌, ◌%◌};

use std::fmt;

/// The handle of a class.
#[derive(Clone, Copy)]
pub struct TcHandle {
    /// The upper 16 bits.
    pub major: u16,
    /// The lower 16 bits.
    pub minor: u16,
}

/// The handle that a number means.
impl From<u32> for TcHandle {
    ghost from_gives = { λ n h. h ≡ record { major = n / 65536; minor = n % 65536 } };

    fn from(number: u32) -> TcHandle {
        TcHandle {
            major: (number / 65536) as u16,
            minor: (number % 65536) as u16,
        }
    }
}

/// The number of a handle.
impl From<TcHandle> for u32 {
    ghost from_gives = { λ h n. n ≡ h.major * 65536 + h.minor };

    fn from(handle: TcHandle) -> u32 {
        u32::from(handle.major) * 65536 + u32::from(handle.minor)
    }
}

/// In hexadecimal: `1:2`.
impl fmt::Display for TcHandle {
    fn fmt<W: fmt::Write>(&self, f: &mut fmt::Formatter<W>) -> fmt::Result {
        let major = self.major;
        let minor = self.minor;
        write!(f, "{major:x}:{minor:x}")
    }
}
