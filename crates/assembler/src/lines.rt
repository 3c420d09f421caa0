// The lines of a sheet.
ghost use Rattle.std.specs.Prelude.{[], ◌∷◌, ◌≡◌, ◌==◌, IfOk, IfErr, position};
ghost use Rattle.text.specs.Bytes.{line_feed, split};
ghost use Rattle.asm.specs.Answers.{refusal_of};
ghost use Rattle.asm.specs.Reading.{unended};

use asm::AssembleError;
use grammar::LineError;
use text::LINE_FEED;

// The place of the first LF. `text_bytes` has it for itself alone.
fn line_end(text: &[u8]) -> Option<usize>
    ensures { result ≡ position (λ b. b == line_feed) text.now }
{
    text.iter().position(|b| *b == LINE_FEED)
}

// The first line of a text, without its LF, and the text after it; `line` is its number. What follows
// the last LF is no line: nothing, or one with a bad ending. So no `split` stands here: its parts don't
// tell whether an LF ended them.
pub(super) fn first_line(text: &[u8], line: u16) -> Result<(&[u8], &[u8]), AssembleError>
    ensures whole { IfOk result (λ read. split line_feed text.now ≡ read.0.now ∷ split line_feed read.1.now) }
    ensures refused { IfErr result (λ e. (split line_feed text.now ≡ text.now ∷ []) × (refusal_of e ≡ unended text.now line)) }
{
    if let Some(end) = line_end(text) {
        return Ok((&text[..end], &text[end + 1..]));
    }
    if text.is_empty() {
        return Err(AssembleError::WrongLineCount);
    }
    Err(AssembleError::Line {
        line,
        error: LineError::Malformed,
    })
}
