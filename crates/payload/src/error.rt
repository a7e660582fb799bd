// What is wrong with a payload, before it is known where the payload stands.
ghost use Rattle.std.specs.Prelude.{◌≡◌, ℕ, Result};
ghost use Rattle.model.specs.declared.fault.Layer.{Layer};
ghost use Rattle.model.specs.declared.fault.Fault.{Fault};
ghost use Rattle.payload.specs.Errors.{placed};

use model::fault::{Cause, Fault, Layer};

/// What is wrong with a payload.
#[derive(Clone, Copy)]
pub struct DecodeError {
    pub cause: Cause,
    /// The payload length wanted, or 0.
    pub need: usize,
}

impl DecodeError {
    /// What is wrong, and the payload length wanted, or 0.
    pub fn new(cause: Cause, need: usize) -> DecodeError
        ensures { result ≡ record { cause = cause; need = need } }
    {
        DecodeError { cause, need }
    }
}

/// Tells an error where it stands, so that `?` can carry it on as a fault.
pub trait ErrorContext<T>: Sized {
    ghost outcome: { Self → ℕ → Layer → Result T Fault };

    fn context(self, place: usize, layer: Layer) -> Result<T, Fault>
        ensures { result ≡ outcome self place layer };
}

impl<T> ErrorContext<T> for Result<T, DecodeError> {
    ghost outcome = { placed };

    fn context(self, place: usize, layer: Layer) -> Result<T, Fault> {
        self.map_err(|error| Fault {
            cause: error.cause,
            place,
            layer,
            need: error.need,
            number: 0,
        })
    }
}
