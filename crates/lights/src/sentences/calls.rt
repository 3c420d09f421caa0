// Refusals of a chip's calls.
use super::say::{Message, Say, refused, say_only, say_with};
use super::templates;
use super::verdicts::LAST_ADDRESS;
use machine::CallError;

// A page has sixteen words.
const LAST_PAGE: u16 = LAST_ADDRESS / 16;

// A call's refusal, after this head, which has its number.
pub fn of_error(head: &'static [u8], error: CallError) -> Message {
    let number = u32::from(refusals::error_number_of(error));
    let sentence = match error {
        CallError::EmptyBurst => say_only(templates::EMPTY_BURST),
        CallError::UnlistedAddress => say_only(templates::UNLISTED_ADDRESS),
        CallError::OutsideRegister => say_with(
            templates::OUTSIDE_REGISTER,
            &[u32::from(LAST_PAGE), u32::from(LAST_ADDRESS)],
        ),
        CallError::LoadRefused => say_only(templates::LOAD_REFUSED),
        CallError::StartInUse => say_only(templates::START_IN_USE),
        CallError::MemoryInUse => say_only(templates::MEMORY_IN_USE),
        CallError::OutputHeld => say_only(templates::OUTPUT_HELD),
        CallError::TooManyBeats => say_with(templates::TOO_MANY_BEATS, &[chip::MOST_BEATS]),
    };
    refused(say_with(head, &[number]), sentence)
}

// What a run did: its beats and words, and whether it ended as all was quiet.
pub fn counts(beats: u32, words: [u32; 3], quiet: bool) -> Say {
    let template = if quiet {
        templates::COUNTS_QUIET
    } else {
        templates::COUNTS
    };
    let [one, two, three] = words;
    say_with(template, &[beats, one, two, three])
}
