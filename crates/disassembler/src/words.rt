// The word lines of a sheet, written.
ghost use Rattle.std.specs.Prelude.{◌∷◌, [], ◌++◌, ◌≡◌};
ghost use Rattle.text.specs.Bytes.{line_feed};
ghost use Rattle.text_bytes.specs.Writer.{Writes};
ghost use Rattle.word.specs.Profile.{LP5523};
ghost use Rattle.asm.specs.Writing.{word_line, word_lines, ended};
ghost use Rattle.disassembler.specs.internal.Walks.{IsWordLine};

use grammar::LineKind;
use plan::Plan;
use sheet_places::line_kind_at;
use text::LINE_FEED;
use text_bytes::Writer;
use word::WORDS;

// Writes a word's line with its LF.
fn put_word(w: &mut Writer<'_>, kind: LineKind, code: u16)
    requires { IsWordLine kind }
    ensures { Writes w.old w.new (word_line LP5523 kind code ++ (line_feed ∷ [])) }
{
    match kind {
        LineKind::Op => op_codec::put_op_line(w, code),
        _ => line_writer::put_line(w, kind, [code, 0, 0, 0, 0, 0, 0]),
    }
    w.put_byte(LINE_FEED);
}

// Writes the lines of all words.
pub(super) fn put_words(w: &mut Writer<'_>, plan: Plan, image: &[u16; WORDS])
    ensures { Writes w.old w.new (ended (word_lines LP5523 plan 0 image.now)) }
{
    for (k, &code) in image.iter().enumerate() {
        put_word(w, line_kind_at(plan, k as u16), code);
    }
}
