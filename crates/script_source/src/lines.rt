//! The line of an event, without memory of its own.
ghost use Rattle.std.specs.Prelude.{◌≡◌, ◌≤◌, ◌+◌, ◌++◌, ◌∷◌, [], length};
ghost use Rattle.std.specs.Fmt.{decimal};
ghost use Rattle.arrayvec.specs.ArrayString.{array_string_len};
ghost use Rattle.event_script.specs.Grammar.{line_for};
ghost use Rattle.script_source.specs.Drawn.{event_as};

use crate::drawing::Drawn;
use arrayvec::ArrayString;
use itoa::Buffer;

/// A line with its newline: at most two numbers of 10 digits, and 16 bytes around them.
pub(crate) type Line = ArrayString<40>;

// Appends a text and a number.
fn put(line: &mut Line, text: &str, number: u32)
    requires { array_string_len line.old + length text.now + 10 ≤ 40 }
    ensures bytes { line.new.bytes ≡ line.old.bytes ++ (text.now ++ decimal number) }
    ensures short { array_string_len line.new ≤ array_string_len line.old + length text.now + 10 }
{
    line.push_str(text);
    line.push_str(Buffer::new().format(number));
}

// The line with its newline, from its first words and what stands between its numbers.
fn line_with(words: &str, first: u32, between: &str, second: u32) -> Line
    requires { length words.now + length between.now ≤ 19 }
    ensures { result.bytes ≡ words.now ++ decimal first ++ between.now ++ decimal second ++ 10 ∷ [] }
{
    let mut line = Line::new();
    put(&mut line, words, first);
    put(&mut line, between, second);
    line.push('\n');
    line
}

/// The line of an event, with its newline.
pub(crate) fn line_of(drawn: Drawn) -> Line
    ensures { result.bytes ≡ line_for (event_as drawn) ++ 10 ∷ [] }
{
    match drawn {
        Drawn::Inc { counter, n } => line_with("inc root c", counter, " ", n),
        Drawn::Rec { histogram, v } => line_with("rec root h", histogram, " ", v),
        Drawn::Add { script, n } => line_with("add root g", script, " acc ", n),
    }
}
