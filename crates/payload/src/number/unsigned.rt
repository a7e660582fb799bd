// Unsigned numbers, the lowest byte first.
ghost use Rattle.std.specs.Prelude.{◌≡◌, refl};
ghost use Rattle.std.proofs.Common.{rules};
ghost use Rattle.model.specs.Numbers.{le, le_bytes};
ghost use Rattle.model.proofs.Fields.{le_cut};

use super::Number;

impl Number<1> for u8 {
    ghost at = { λ i bs. le i 1 bs };

    ghost written = { le_bytes 1 };

    fn from_bytes(bytes: [u8; 1]) -> u8
        ensures { result ≡ le 0 1 bytes }
    {
        u8::from_le_bytes(bytes)
    }

    fn to_bytes(self) -> [u8; 1] {
        u8::to_le_bytes(self)
    }

    ghost shift = { le_cut 1 };

    ghost width = { λ x. refl };

    ghost few = { Prim.search rules };
}

impl Number<2> for u16 {
    ghost at = { λ i bs. le i 2 bs };

    ghost written = { le_bytes 2 };

    fn from_bytes(bytes: [u8; 2]) -> u16
        ensures { result ≡ le 0 2 bytes }
    {
        u16::from_le_bytes(bytes)
    }

    fn to_bytes(self) -> [u8; 2] {
        u16::to_le_bytes(self)
    }

    ghost shift = { le_cut 2 };

    ghost width = { λ x. refl };

    ghost few = { Prim.search rules };
}

impl Number<4> for u32 {
    ghost at = { λ i bs. le i 4 bs };

    ghost written = { le_bytes 4 };

    fn from_bytes(bytes: [u8; 4]) -> u32
        ensures { result ≡ le 0 4 bytes }
    {
        u32::from_le_bytes(bytes)
    }

    fn to_bytes(self) -> [u8; 4] {
        u32::to_le_bytes(self)
    }

    ghost shift = { le_cut 4 };

    ghost width = { λ x. refl };

    ghost few = { Prim.search rules };
}

impl Number<8> for u64 {
    ghost at = { λ i bs. le i 8 bs };

    ghost written = { le_bytes 8 };

    fn from_bytes(bytes: [u8; 8]) -> u64
        ensures { result ≡ le 0 8 bytes }
    {
        u64::from_le_bytes(bytes)
    }

    fn to_bytes(self) -> [u8; 8] {
        u64::to_le_bytes(self)
    }

    ghost shift = { le_cut 8 };

    ghost width = { λ x. refl };

    ghost few = { Prim.search rules };
}
