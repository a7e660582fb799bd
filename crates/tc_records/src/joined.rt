// Parts one after another, as an array that they fill.
ghost use Rattle.std.specs.Prelude.{◌≡◌, ◌+◌, length};
ghost use Rattle.std.specs.List.{flat_map};

use netlink::overwrite::overwrite;

/// The parts one after another.
pub(crate) fn joined<const N: usize>(parts: &[&[u8]]) -> [u8; N]
    requires { length (flat_map (λ p. p.now) parts.now) ≡ N }
    ensures { result ≡ flat_map (λ p. p.now) parts.now }
{
    let mut bytes = [0; N];
    let mut at = 0;
    for part in parts {
        overwrite(&mut bytes, at, part);
        at += part.len();
    }
    bytes
}
