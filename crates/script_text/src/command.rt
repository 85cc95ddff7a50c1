// A command, by the words of its line: one function for each number of words behind the keyword, and for what several
// commands share, so that each word is read once.
ghost use Rattle.std.specs.Prelude.{◌≡◌};
ghost use Rattle.spur_graph.specs.Words.{words_of};
ghost use Rattle.spur_graph.specs.Form.{view};
ghost use Rattle.script_text.specs.Grammar as grammar;
ghost use Rattle.script_text.specs.Reading.{Gives};

use crate::number::{hex_of, number_of, signed_of};
use crate::word::{cut, file_of, is, name_of};
use spur_graph::{Command, HandleName};

#[tactic(auto, unfolding(crate::specs::Grammar::of_no_argument))]
fn of_no_argument(keyword: &[u8]) -> Option<Command>
    ensures { Gives view result (grammar.of_no_argument keyword.now) }
{
    if is(keyword, "scavenge") {
        Some(Command::Scavenge)
    } else if is(keyword, "gc") {
        Some(Command::Gc)
    } else if is(keyword, "stat") {
        Some(Command::Stat)
    } else {
        None
    }
}

#[tactic(auto, unfolding(crate::specs::Grammar::of_handle))]
fn of_handle(keyword: &[u8], h: HandleName) -> Option<Command>
    ensures { Gives view result (grammar.of_handle keyword.now h.bytes) }
{
    if is(keyword, "special") {
        Some(Command::Special { h })
    } else if is(keyword, "nil") {
        Some(Command::Nil { h })
    } else if is(keyword, "true") {
        Some(Command::Yes { h })
    } else if is(keyword, "false") {
        Some(Command::No { h })
    } else if is(keyword, "drop") {
        Some(Command::Drop { h })
    } else if is(keyword, "kind") {
        Some(Command::Kind { o: h })
    } else if is(keyword, "size") {
        Some(Command::Size { o: h })
    } else if is(keyword, "hash") {
        Some(Command::Hash { o: h })
    } else if is(keyword, "enter") {
        Some(Command::Enter { c: h })
    } else if is(keyword, "pin") {
        Some(Command::Pin { o: h })
    } else if is(keyword, "unpin") {
        Some(Command::Unpin { o: h })
    } else if is(keyword, "readonly") {
        Some(Command::ReadOnly { o: h })
    } else if is(keyword, "writable") {
        Some(Command::Writable { o: h })
    } else if is(keyword, "mourn") {
        Some(Command::Mourn { h })
    } else {
        None
    }
}

#[tactic(auto, unfolding(crate::specs::Grammar::of_one_argument))]
fn of_one_argument(keyword: &[u8], a: &[u8]) -> Option<Command>
    ensures { Gives view result (grammar.of_one_argument keyword.now a.now) }
{
    if is(keyword, "save") {
        let name = file_of(a)?;
        return Some(Command::Save { name });
    }
    let h = name_of(a)?;
    of_handle(keyword, h)
}

#[tactic(auto, unfolding(crate::specs::Grammar::of_two_handles))]
fn of_two_handles(keyword: &[u8], a: HandleName, b: HandleName) -> Option<Command>
    ensures { Gives view result (grammar.of_two_handles keyword.now a.bytes b.bytes) }
{
    if is(keyword, "copy") {
        Some(Command::Copy { h: a, o: b })
    } else if is(keyword, "class") {
        Some(Command::Class { h: a, o: b })
    } else if is(keyword, "same") {
        Some(Command::Same { a, b })
    } else if is(keyword, "become") {
        Some(Command::Become { a, b })
    } else if is(keyword, "forward") {
        Some(Command::Forward { a, b, hash: false })
    } else {
        None
    }
}

#[tactic(auto, unfolding(crate::specs::Grammar::of_two_arguments))]
fn of_two_arguments(keyword: &[u8], a: &[u8], b: &[u8]) -> Option<Command>
    ensures { Gives view result (grammar.of_two_arguments keyword.now a.now b.now) }
{
    let h = name_of(a)?;
    if is(keyword, "int") {
        let n = signed_of(b)?;
        return Some(Command::Int { h, n });
    }
    if is(keyword, "char") {
        let n = number_of(b)?;
        return Some(Command::Char { h, n });
    }
    if is(keyword, "float") {
        let word = hex_of(b)?;
        return Some(Command::Float { h, word });
    }
    if is(keyword, "unit") {
        let i = number_of(b)?;
        return Some(Command::Unit { o: h, i });
    }
    let o = name_of(b)?;
    of_two_handles(keyword, h, o)
}

#[tactic(auto, unfolding(crate::specs::Grammar::of_two_handles_and_number))]
fn of_two_handles_and_number(
    keyword: &[u8],
    h: HandleName,
    o: HandleName,
    n: u128,
) -> Option<Command>
    ensures { Gives view result (grammar.of_two_handles_and_number keyword.now h.bytes o.bytes n) }
{
    if is(keyword, "fetch") {
        Some(Command::Fetch { h, o, i: n })
    } else if is(keyword, "new") {
        Some(Command::New { h, c: o, n })
    } else if is(keyword, "newold") {
        Some(Command::NewOld { h, c: o, n })
    } else {
        None
    }
}

#[tactic(auto, unfolding(crate::specs::Grammar::of_two_handles_and_word))]
fn of_two_handles_and_word(
    keyword: &[u8],
    h: HandleName,
    o: HandleName,
    c: &[u8],
) -> Option<Command>
    ensures { Gives view result (grammar.of_two_handles_and_word keyword.now h.bytes o.bytes c.now) }
{
    if is(keyword, "segload") {
        let name = file_of(c)?;
        return Some(Command::SegLoad { h, a: o, name });
    }
    if is(keyword, "forward") {
        return if is(c, "hash") {
            Some(Command::Forward {
                a: h,
                b: o,
                hash: true,
            })
        } else {
            None
        };
    }
    let n = number_of(c)?;
    of_two_handles_and_number(keyword, h, o, n)
}

#[tactic(auto, unfolding(crate::specs::Grammar::of_three_arguments))]
fn of_three_arguments(keyword: &[u8], a: &[u8], b: &[u8], c: &[u8]) -> Option<Command>
    ensures { Gives view result (grammar.of_three_arguments keyword.now a.now b.now c.now) }
{
    let h = name_of(a)?;
    if is(keyword, "store") {
        let i = number_of(b)?;
        let v = name_of(c)?;
        return Some(Command::Store { o: h, i, v });
    }
    if is(keyword, "setunit") {
        let i = number_of(b)?;
        let n = number_of(c)?;
        return Some(Command::SetUnit { o: h, i, n });
    }
    let o = name_of(b)?;
    of_two_handles_and_word(keyword, h, o, c)
}

#[tactic(auto, unfolding(crate::specs::Grammar::of_four_arguments))]
fn of_four_arguments(keyword: &[u8], a: &[u8], b: &[u8], c: &[u8], d: &[u8]) -> Option<Command>
    ensures { Gives view result (grammar.of_four_arguments keyword.now a.now b.now c.now d.now) }
{
    if !is(keyword, "segstore") {
        return None;
    }
    let h = name_of(a)?;
    let o = name_of(b)?;
    let c = name_of(c)?;
    let name = file_of(d)?;
    Some(Command::SegStore { h, o, c, name })
}

/// The command that the words of a line are.
pub fn command_of(line: &[u8]) -> Option<Command>
    ensures { Gives view result (grammar.command_of (words_of line.now)) }
{
    let (keyword, rest) = cut(line);
    let Some(rest) = rest else {
        return of_no_argument(keyword);
    };
    let (a, rest) = cut(rest);
    let Some(rest) = rest else {
        return of_one_argument(keyword, a);
    };
    let (b, rest) = cut(rest);
    let Some(rest) = rest else {
        return of_two_arguments(keyword, a, b);
    };
    let (c, rest) = cut(rest);
    let Some(rest) = rest else {
        return of_three_arguments(keyword, a, b, c);
    };
    let (d, rest) = cut(rest);
    match rest {
        None => of_four_arguments(keyword, a, b, c, d),
        Some(_) => None,
    }
}
