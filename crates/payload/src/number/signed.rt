// Signed numbers in two's complement, the lowest byte first.
ghost use Rattle.std.specs.Prelude.{◌≡◌, refl};
ghost use Rattle.std.proofs.Common.{rules};
ghost use Rattle.model.specs.Numbers.{signed, signed_bytes};
ghost use Rattle.model.proofs.Fields.{signed_cut};

use super::Number;

impl Number<1> for i8 {
    ghost at = { λ i bs. signed i 1 bs };

    ghost written = { signed_bytes 1 };

    fn from_bytes(bytes: [u8; 1]) -> i8
        ensures { result ≡ signed 0 1 bytes }
    {
        i8::from_le_bytes(bytes)
    }

    fn to_bytes(self) -> [u8; 1] {
        i8::to_le_bytes(self)
    }

    ghost shift = { signed_cut 1 };

    ghost width = { λ x. refl };

    ghost few = { Prim.search rules };
}

impl Number<2> for i16 {
    ghost at = { λ i bs. signed i 2 bs };

    ghost written = { signed_bytes 2 };

    fn from_bytes(bytes: [u8; 2]) -> i16
        ensures { result ≡ signed 0 2 bytes }
    {
        i16::from_le_bytes(bytes)
    }

    fn to_bytes(self) -> [u8; 2] {
        i16::to_le_bytes(self)
    }

    ghost shift = { signed_cut 2 };

    ghost width = { λ x. refl };

    ghost few = { Prim.search rules };
}

impl Number<4> for i32 {
    ghost at = { λ i bs. signed i 4 bs };

    ghost written = { signed_bytes 4 };

    fn from_bytes(bytes: [u8; 4]) -> i32
        ensures { result ≡ signed 0 4 bytes }
    {
        i32::from_le_bytes(bytes)
    }

    fn to_bytes(self) -> [u8; 4] {
        i32::to_le_bytes(self)
    }

    ghost shift = { signed_cut 4 };

    ghost width = { λ x. refl };

    ghost few = { Prim.search rules };
}

impl Number<8> for i64 {
    ghost at = { λ i bs. signed i 8 bs };

    ghost written = { signed_bytes 8 };

    fn from_bytes(bytes: [u8; 8]) -> i64
        ensures { result ≡ signed 0 8 bytes }
    {
        i64::from_le_bytes(bytes)
    }

    fn to_bytes(self) -> [u8; 8] {
        i64::to_le_bytes(self)
    }

    ghost shift = { signed_cut 8 };

    ghost width = { λ x. refl };

    ghost few = { Prim.search rules };
}
