// Numbers that stand in bytes.
ghost use Rattle.std.specs.Prelude.{◌≡◌, ℕ, ◌+◌, ◌≤◌, List, length, Some, None, if◌then◌else◌, nat_le};
ghost use Rattle.model.specs.Numbers.{part};

// An impl stands for each type: `from_le_bytes` and its like are methods of each type, and of no trait.
/// A number that stands in `N` bytes.
pub trait Number<const N: usize>: Sized {
    /// What the `N` bytes from a place mean.
    ghost at: { ℕ → List ℕ → Self };

    /// The bytes that mean the number.
    ghost written: { Self → List ℕ };

    /// The number that the bytes mean.
    fn from_bytes(bytes: [u8; N]) -> Self
        ensures { result ≡ at 0 bytes.entry };

    /// The bytes that mean the number.
    fn to_bytes(self) -> [u8; N]
        ensures { result ≡ written self };

    /// What stands at a place means the same where it is cut out.
    ghost shift: { (i : ℕ) (bs : List ℕ) → at 0 (part i N bs) ≡ at i bs };

    /// So many bytes are written.
    ghost width: { (x : Self) → length (written x) ≡ N };

    /// An array of so many bytes has room in memory.
    ghost few: { N ≤ 8 };
}

/// A number that stands with its highest byte first.
#[derive(Clone, Copy)]
pub struct BigEndian<T>(pub T);

/// The number in the `N` bytes from `at` on, where the bytes go so far.
pub fn number_at<T: Number<N>, const N: usize>(bytes: &[u8], at: usize) -> Option<T>
    ensures { result ≡ (if nat_le (at + N) (length bytes.now) then Some (T.at at bytes.now) else None) }
{
    let end = at.checked_add(N)?;
    let field = bytes.get(at..end)?.as_array::<N>()?;
    Some(T::from_bytes(*field))
}

mod big_endian;
mod signed;
mod unsigned;
