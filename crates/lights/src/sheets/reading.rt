// Sheets from files, read.
use crate::cli::files;
use crate::cli::files::LARGE;
use crate::cli::names::Name;
use crate::cli::output::{ANSWER, made};
use crate::cli::status::Status;
use crate::cli::system::{Host, Streams};
use crate::sentences::reader;
use crate::sentences::say::Message;
use crate::texts::words::put_words;
use plan::Plan;
use std::rt::Files;
use text_bytes::Writer;
use word::WORDS;

// The program of a file's sheet, or what stands against it; its words go into the lent image.
pub fn read(rt: &(impl Files + Input), name: Name, image: &mut [u16]) -> Result<Plan, Message> {
    let mut buf = [0u8; LARGE];
    let text = files::read(rt, name, &mut buf)?;
    assembler::assemble(text, image).map_err(|error| reader::of_sheet(text, error))
}

// The words of an image, sixteen a line.
pub fn write_words(rt: &impl Streams, words: &[u16]) -> Status {
    let mut out = [0u8; ANSWER];
    let mut w = Writer::new(&mut out);
    put_words(&mut w, words);
    made(rt, &w)
}

// image: the words of a file's sheet.
pub fn image(rt: &impl Host, name: Name) -> Result<Status, Message> {
    let mut words = [0u16; WORDS];
    read(rt, name, &mut words)?;
    Ok(write_words(rt, &words))
}
