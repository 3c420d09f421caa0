// Of how many of the 65,536 codes something holds.
use crate::names::op_named;
use decoder::{decode, is_undefined};
use encoder::encode;
use op_codec::values_of;
use std::io;

#[derive(Clone, Copy, Debug, PartialEq, Eq)]
enum Question {
    // a code of this op
    Is(u16),
    Undefined,
    Defined,
    // the code of its own word
    EncodedBack,
}

impl Question {
    fn named(name: &[u8]) -> Option<Question> {
        match name {
            b"undefined" => Some(Question::Undefined),
            b"defined" => Some(Question::Defined),
            b"encoded-back" => Some(Question::EncodedBack),
            _ => op_named(name).map(Question::Is),
        }
    }

    fn holds(self, code: u16) -> bool {
        match self {
            Question::Is(op) => op_of(code) == op,
            Question::Undefined => is_undefined(decode(code)),
            Question::Defined => !is_undefined(decode(code)),
            Question::EncodedBack => encode(decode(code)) == Ok(code),
        }
    }
}

fn op_of(code: u16) -> u16 {
    values_of(decode(code))[0]
}

pub(super) fn command(rt: &impl Print, name: &[u8]) -> io::Result<()> {
    let Some(question) = Question::named(name) else {
        return print!(rt; ": unknown");
    };
    let count = (0..=u16::MAX).filter(|code| question.holds(*code)).count();
    print!(rt; ": {count}")
}
