// A line of a script: an optional mark of a mutator, and a command.
ghost use Rattle.std.specs.Prelude.{◌≡◌, ◌==◌, slice_index, None, IfSome, IfNone};
ghost use Rattle.spur_graph.specs.Words.{words_of};
ghost use Rattle.script_text.specs.Grammar.{line_of, of_mutator};
ghost use Rattle.script_text.specs.Reading.{ReadsLine};

use crate::command::command_of;
use crate::number::mutator_of;
use crate::word::cut;
use spur_graph::Line;

/// The greatest length of a line in bytes, without its line feed.
const LONGEST_LINE: usize = 1024;

/// Why there is no line.
#[derive(Clone, Copy, Debug, PartialEq, Eq)]
pub enum Syntax {
    /// The line has more than 1,024 bytes.
    Long,
    /// The grammar has no such line.
    Bad,
}

/// Whether a line begins with the mark of a mutator.
fn is_marked(bytes: &[u8]) -> bool
    ensures { result ≡ (slice_index bytes.now 0 == 64) }
{
    bytes.len() >= 1 && bytes[0] == b'@'
}

/// The mutator of a line, and the bytes of its command. A line without a mark `@` is of mutator 0.
fn cut_mark(bytes: &[u8]) -> Option<(u8, &[u8])>
    ensures cut { IfSome result (λ cut. line_of (words_of bytes.now) ≡ of_mutator cut.0 (words_of cut.1.now)) }
    ensures none { IfNone result (line_of (words_of bytes.now) ≡ None) }
{
    if !is_marked(bytes) {
        return Some((0, bytes));
    }
    let (mark, rest) = cut(bytes);
    let mutator = mutator_of(mark)?;
    Some((mutator, rest?))
}

/// Reads one line without its line feed. A line without a mark `@` is of mutator 0. `Long` comes exactly where there
/// are more than 1,024 bytes, and `Bad` exactly where the grammar has no such line.
#[tactic(auto, using(crate::proofs::Marks::read_as, crate::proofs::Marks::no_command, crate::proofs::Marks::no_mark))]
pub fn read_line(bytes: &[u8]) -> Result<Line, Syntax>
    ensures { ReadsLine result bytes.now }
{
    if bytes.len() > LONGEST_LINE {
        return Err(Syntax::Long);
    }
    let Some((mutator, rest)) = cut_mark(bytes) else {
        return Err(Syntax::Bad);
    };
    match command_of(rest) {
        Some(command) => Ok(Line { mutator, command }),
        None => Err(Syntax::Bad),
    }
}
