// Sentences of faults, written out by hand.
use crate::fault::Sentence;
use model::fault::{Cause, Fault, Layer};
use std::test::Fail;

/// A fault, and what is said of it.
#[derive(Clone, Copy)]
struct Case {
    fault: Fault,
    said: &'static str,
}

const CASES: [Case; 4] = [
    Case {
        fault: Fault {
            cause: Cause::WrongLength,
            place: 52,
            layer: Layer::ActionAttribute,
            need: 4,
            number: 0,
        },
        said: "byte 52, action attribute: the payload has not the length wanted; 4 bytes are wanted (fault 12 52 3 4 0)",
    },
    Case {
        fault: Fault {
            cause: Cause::RefusedByBook,
            place: 24,
            layer: Layer::ActionOption,
            need: 1,
            number: 12,
        },
        said: "byte 24, action option: the book refuses the action option; its number is 12, and 1 byte is wanted (fault 14 24 4 1 12)",
    },
    Case {
        fault: Fault {
            cause: Cause::RefusedByBook,
            place: 24,
            layer: Layer::ActionOption,
            need: 0,
            number: 7,
        },
        said: "byte 24, action option: the book refuses the action option; its number is 7 (fault 14 24 4 0 7)",
    },
    Case {
        fault: Fault {
            cause: Cause::HeadCutOff,
            place: 0,
            layer: Layer::FilterOption,
            need: 0,
            number: 0,
        },
        said: "byte 0, filter option: fewer than 4 bytes remain where an attribute must begin (fault 6 0 1 0 0)",
    },
];

#[test]
fn sentences(rt: HostRuntime) -> Result<(), Fail> {
    for case in CASES.iter() {
        let sentence = Sentence(case.fault);
        assert_eq!(rt; format!(in rt.alloc(); "{sentence}")?.as_str(), case.said);
    }
    Ok(())
}
