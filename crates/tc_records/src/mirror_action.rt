// What a mirror action does, by name.
ghost use Rattle.std.specs.Prelude.{◌≡◌};
ghost use Rattle.model.specs.Outcomes.{mirror_action, mirror_action_number};
ghost use Rattle.tc_records.specs.Names.{as_mirror_action, of_mirror_action};

/// What a mirror action does with a packet.
#[derive(Clone, Copy, PartialEq, Eq, Debug)]
pub enum TcMirrorActionType {
    /// Redirect to the egress of an interface.
    EgressRedir,
    /// Mirror to the egress of an interface.
    EgressMirror,
    /// Redirect to the ingress of an interface.
    IngressRedir,
    /// Mirror to the ingress of an interface.
    IngressMirror,
    /// Any other number.
    Other(i32),
}

// Two tables and no discriminants: a number without a name is a case that carries it.
/// The name of a number.
impl From<i32> for TcMirrorActionType {
    ghost from_gives = { λ z a. a ≡ of_mirror_action (mirror_action z) };

    fn from(number: i32) -> TcMirrorActionType {
        match number {
            1 => TcMirrorActionType::EgressRedir,
            2 => TcMirrorActionType::EgressMirror,
            3 => TcMirrorActionType::IngressRedir,
            4 => TcMirrorActionType::IngressMirror,
            other => TcMirrorActionType::Other(other),
        }
    }
}

/// The number of a name.
impl From<TcMirrorActionType> for i32 {
    ghost from_gives = { λ a z. z ≡ mirror_action_number (as_mirror_action a) };

    fn from(action: TcMirrorActionType) -> i32 {
        match action {
            TcMirrorActionType::EgressRedir => 1,
            TcMirrorActionType::EgressMirror => 2,
            TcMirrorActionType::IngressRedir => 3,
            TcMirrorActionType::IngressMirror => 4,
            TcMirrorActionType::Other(number) => number,
        }
    }
}
