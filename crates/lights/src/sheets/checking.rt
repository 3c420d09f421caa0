// What the checker says of a file's program.
use super::reading;
use crate::cli::names::Name;
use crate::cli::status::Status;
use crate::sentences::say::{Message, line_of};
use crate::sentences::templates;
use crate::sentences::verdicts::{Origin, of_error};
use plan::Plan;
use std::rt::Files;
use word::WORDS;

// The program of a file's sheet, where the checker accepts it.
pub fn accepted(rt: &(impl Files + Input), name: Name, image: &mut [u16]) -> Result<Plan, Message> {
    let plan = reading::read(rt, name, image)?;
    checker::check(plan, image).map_err(|error| of_error(Origin::Sheet, plan, image, error))?;
    Ok(plan)
}

// What is told of a file's sheet.
pub fn answer(rt: &(impl Files + Input), name: Name) -> Message {
    let mut image = [0u16; WORDS];
    match accepted(rt, name, &mut image) {
        Ok(_) => line_of(Status::Done, templates::NAMED, templates::ACCEPTED),
        Err(message) => message,
    }
}
