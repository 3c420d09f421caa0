// What is told, as a value: templates, and what stands in them.
use super::filling::fill;
use super::shown::Quote;
use crate::cli::status::Status;
use grammar::{Kind, Pair};
use text_bytes::Writer;

// What stands for a sign of a template.
#[derive(Clone, Copy)]
pub enum Part {
    Number(u32),
    Name(&'static [u8]),
    // the keys of a form
    Keys(&'static [Pair]),
    // the pairs of a form, with the values that they allow
    Pairs(&'static [Pair]),
    // the values that a kind allows
    Allowed(Kind),
}

impl From<u32> for Part {
    fn from(n: u32) -> Part {
        Part::Number(n)
    }
}

// A template, and the parts for its signs in their order; no template has more than eight, and the parts
// behind the last sign are not used.
#[derive(Clone, Copy)]
pub struct Say {
    pub template: &'static [u8],
    pub parts: [Part; 8],
}

// A line: how the command ends that prints it, what stands before its sentence, and the sentence.
#[derive(Clone, Copy)]
pub struct Message {
    pub status: Status,
    pub head: Say,
    pub body: Say,
    // what `!` stands for, where a template has it
    pub quote: Option<Quote>,
}

pub fn say_only(template: &'static [u8]) -> Say {
    Say {
        template,
        parts: [Part::Number(0); 8],
    }
}

// A template with these parts, or numbers; there is room for eight.
pub fn say_with<T: Copy + Into<Part>>(template: &'static [u8], given: &[T]) -> Say {
    let mut say = say_only(template);
    for (part, &given) in say.parts.iter_mut().zip(given) {
        *part = given.into();
    }
    say
}

// Two templates without numbers.
pub fn line_of(status: Status, head: &'static [u8], sentence: &'static [u8]) -> Message {
    Message {
        status,
        head: say_only(head),
        body: say_only(sentence),
        quote: None,
    }
}

pub fn refused(head: Say, body: Say) -> Message {
    Message {
        status: Status::Refused,
        head,
        body,
        quote: None,
    }
}

// A template, filled in.
pub fn put_say(w: &mut Writer, say: Say, quote: &[u8], name: &[u8]) {
    fill(w, say.template, &say.parts, quote, name);
}

impl Message {
    // The bytes that `!` stands for.
    fn quoted(&self) -> &[u8] {
        match &self.quote {
            Some(quote) => quote.text(),
            None => b"",
        }
    }
}

// A line about a file or a command with this name.
pub fn put_message(w: &mut Writer, message: &Message, name: &[u8]) {
    let quote = message.quoted();
    put_say(w, message.head, quote, name);
    put_say(w, message.body, quote, name);
    w.put_byte(b'\n');
}
