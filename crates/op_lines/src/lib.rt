// Op lines and instruction words: which line stands for which code. The functions stand in `op_codec`.
#![tactic(auto)]

// Why the line of a code is not written.
#[derive(Clone, Copy, Debug, PartialEq, Eq)]
pub enum WriteError {
    UndefinedWord,
    // the lent bytes are shorter than the line
    TooShort,
}
