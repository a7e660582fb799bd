// Unsigned numbers, the highest byte first.
ghost use Rattle.std.specs.Prelude.{◌≡◌, ℕ, refl};
ghost use Rattle.std.proofs.Common.{ap, rules};
ghost use Rattle.model.specs.Numbers.{be, be_bytes};
ghost use Rattle.model.proofs.Fields.{be_cut};

use super::{BigEndian, Number};

impl Number<2> for BigEndian<u16> {
    ghost at = { λ i bs. record { 0 = be i 2 bs } };

    ghost written = { λ x. be_bytes 2 x.0 };

    fn from_bytes(bytes: [u8; 2]) -> BigEndian<u16>
        ensures { result ≡ record { 0 = be 0 2 bytes } }
    {
        BigEndian(u16::from_be_bytes(bytes))
    }

    fn to_bytes(self) -> [u8; 2] {
        u16::to_be_bytes(self.0)
    }

    ghost shift = { λ i bs. ap (λ (v : ℕ). record { 0 = v }) (be_cut 2 i bs) };

    ghost width = { λ x. refl };

    ghost few = { Prim.search rules };
}

impl Number<4> for BigEndian<u32> {
    ghost at = { λ i bs. record { 0 = be i 4 bs } };

    ghost written = { λ x. be_bytes 4 x.0 };

    fn from_bytes(bytes: [u8; 4]) -> BigEndian<u32>
        ensures { result ≡ record { 0 = be 0 4 bytes } }
    {
        BigEndian(u32::from_be_bytes(bytes))
    }

    fn to_bytes(self) -> [u8; 4] {
        u32::to_be_bytes(self.0)
    }

    ghost shift = { λ i bs. ap (λ (v : ℕ). record { 0 = v }) (be_cut 4 i bs) };

    ghost width = { λ x. refl };

    ghost few = { Prim.search rules };
}

impl Number<8> for BigEndian<u64> {
    ghost at = { λ i bs. record { 0 = be i 8 bs } };

    ghost written = { λ x. be_bytes 8 x.0 };

    fn from_bytes(bytes: [u8; 8]) -> BigEndian<u64>
        ensures { result ≡ record { 0 = be 0 8 bytes } }
    {
        BigEndian(u64::from_be_bytes(bytes))
    }

    fn to_bytes(self) -> [u8; 8] {
        u64::to_be_bytes(self.0)
    }

    ghost shift = { λ i bs. ap (λ (v : ℕ). record { 0 = v }) (be_cut 8 i bs) };

    ghost width = { λ x. refl };

    ghost few = { Prim.search rules };
}
