// Writing over a buffer: a part of it, or the whole.
ghost use Rattle.std.specs.Prelude.{◌≡◌, ◌+◌, length, if◌then◌else◌, ◌==◌, nat_eq, nat_le};
ghost use Rattle.netlink.specs.Emission.{over_if_it_fits};

// A `bool` here and below: there is one refusal, and an error type of one value would say no more. Whoever knows that the part goes in lets the answer go.
/// Writes `part` over the buffer from `at` on. Where it does not go in, the answer is `false` and the buffer stays as it was.
pub fn overwrite(buffer: &mut [u8], at: usize, part: &[u8]) -> bool
    ensures value { result ≡ nat_le (at + length part.now) (length buffer.old) }
    ensures after { buffer.new ≡ over_if_it_fits buffer.old at part.now }
{
    if at > buffer.len() || part.len() > buffer.len() - at {
        return false;
    }
    buffer[at..at + part.len()].copy_from_slice(part);
    true
}

/// Writes the bytes into a buffer of just their length. A buffer of another length gets a `false`, and stays as it was.
pub fn fill(buffer: &mut [u8], bytes: &[u8]) -> bool
    ensures value { result ≡ (length bytes.now == length buffer.old) }
    ensures after { buffer.new ≡ (if nat_eq (length bytes.now) (length buffer.old) then bytes.now else buffer.old) }
{
    let whole = bytes.len() == buffer.len();
    if whole {
        buffer.copy_from_slice(bytes);
    }
    whole
}
