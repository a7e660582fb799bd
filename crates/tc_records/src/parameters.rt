// Records that are an action's parameters: they begin with the common head, and tell the outcome.
ghost use Rattle.std.specs.Prelude.{◌≡◌, ℕ, List};
ghost use Rattle.model.specs.Records.{generic};
ghost use Rattle.tc_records.specs.Layouts.{of_generic};
ghost use Rattle.tc_records.specs.declared.action.TcActionGeneric.{TcActionGeneric};

use crate::action::TcActionGeneric;
use crate::outcome::TcActionType;
use crate::record::Record;

/// A record that also answers its common head, the generic record in its first 20 bytes.
pub trait ParameterRecord: Record {
    ghost head: { Self → TcActionGeneric };

    fn generic(&self) -> TcActionGeneric
        ensures { result ≡ head self.now };

    ghost common: { (bs : List ℕ) → head (Self.Record.decode bs) ≡ of_generic (generic.decode bs) };
}

/// What becomes of a packet after an action with these parameters.
pub fn outcome_of<P: ParameterRecord>(parameters: &P) -> TcActionType
    ensures { result ≡ (P.ParameterRecord.head parameters.now).action }
{
    parameters.generic().action
}
