// What becomes of a packet after an action, by name.
ghost use Rattle.std.specs.Prelude.{◌≡◌};
ghost use Rattle.model.specs.Outcomes.{outcome, outcome_number};
ghost use Rattle.tc_records.specs.Names.{as_outcome, of_outcome};

/// What becomes of a packet after an action.
#[derive(Clone, Copy, PartialEq, Eq, Debug)]
pub enum TcActionType {
    /// As the classifier says.
    Unspec,
    /// Accept the packet.
    Ok,
    /// Classify it again.
    Reclassify,
    /// Drop it.
    Shot,
    /// Go on with the next action.
    Pipe,
    /// It is taken: neither accepted nor dropped.
    Stolen,
    /// It is queued.
    Queued,
    /// Do the action again.
    Repeat,
    /// Redirect it.
    Redirect,
    /// Trap it to the host.
    Trap,
    /// Any other number.
    Other(i32),
}

// Two tables and no discriminants: a number without a name is a case that carries it.
/// The name of a number.
impl From<i32> for TcActionType {
    ghost from_gives = { λ z o. o ≡ of_outcome (outcome z) };

    fn from(number: i32) -> TcActionType {
        match number {
            -1 => TcActionType::Unspec,
            0 => TcActionType::Ok,
            1 => TcActionType::Reclassify,
            2 => TcActionType::Shot,
            3 => TcActionType::Pipe,
            4 => TcActionType::Stolen,
            5 => TcActionType::Queued,
            6 => TcActionType::Repeat,
            7 => TcActionType::Redirect,
            8 => TcActionType::Trap,
            other => TcActionType::Other(other),
        }
    }
}

/// The number of a name.
impl From<TcActionType> for i32 {
    ghost from_gives = { λ o z. z ≡ outcome_number (as_outcome o) };

    fn from(outcome: TcActionType) -> i32 {
        match outcome {
            TcActionType::Unspec => -1,
            TcActionType::Ok => 0,
            TcActionType::Reclassify => 1,
            TcActionType::Shot => 2,
            TcActionType::Pipe => 3,
            TcActionType::Stolen => 4,
            TcActionType::Queued => 5,
            TcActionType::Repeat => 6,
            TcActionType::Redirect => 7,
            TcActionType::Trap => 8,
            TcActionType::Other(number) => number,
        }
    }
}
