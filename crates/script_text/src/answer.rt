// The line that an answer is written as. Each part says how much it adds at most, so that no write finds the array full.
ghost use Rattle.std.specs.Prelude.{◌≡◌, ◌≤◌, ◌<◌, ◌+◌, ◌^◌, ◌++◌, [], length};
ghost use Rattle.std.specs.Fmt.{decimal, signed_decimal};
ghost use Rattle.spur_graph.specs.Text.{answer_line, answer_text, shown_text, refusal_text, cause_word, hex_text, glyph};

use arrayvec::ArrayVec;
use spur_graph::{Answer, Refusal, SegmentCause, Shown, Stat};

/// Adds a text.
fn put_text(out: &mut ArrayVec<u8, 256>, text: &str)
    requires { length out.old.items + length text.now ≤ 256 }
    ensures items { out.new.items ≡ out.old.items ++ text.now }
    ensures len { length out.new.items ≡ length out.old.items + length text.now }
{
    let _fits = out.try_extend_from_slice(text.as_bytes());
}

/// Adds the digits of a number, the highest first.
fn put_digits(out: &mut ArrayVec<u8, 256>, n: u64)
    requires { length out.old.items + length (decimal n) ≤ 256 }
    ensures items { out.new.items ≡ out.old.items ++ decimal n }
    ensures len { length out.new.items ≡ length out.old.items + length (decimal n) }
{
    if n < 10 {
        out.push(b'0' + n as u8);
        return;
    }
    put_digits(out, n / 10);
    out.push(b'0' + (n % 10) as u8);
}

/// Adds a number, at most 20 digits.
fn put_number(out: &mut ArrayVec<u8, 256>, n: u64)
    requires { length out.old.items + 20 ≤ 256 }
    ensures items { out.new.items ≡ out.old.items ++ decimal n }
    ensures len { length out.new.items ≤ length out.old.items + 20 }
{
    put_digits(out, n);
}

/// Adds a number, with `-` before it if it is below 0.
fn put_signed(out: &mut ArrayVec<u8, 256>, n: i64)
    requires { length out.old.items + 21 ≤ 256 }
    ensures items { out.new.items ≡ out.old.items ++ signed_decimal n }
    ensures len { length out.new.items ≤ length out.old.items + 21 }
{
    if n < 0 {
        out.push(b'-');
    }
    put_number(out, n.unsigned_abs());
}

fn glyph_of(d: u8) -> u8
    requires { d < 16 }
    ensures { result ≡ glyph d }
{
    if d < 10 { b'0' + d } else { b'a' + (d - 10) }
}

/// Adds the last `count` digits in base 16.
fn put_hex(out: &mut ArrayVec<u8, 256>, count: usize, w: u64)
    requires { length out.old.items + count ≤ 256 }
    ensures items { out.new.items ≡ out.old.items ++ hex_text count w }
    ensures len { length out.new.items ≡ length out.old.items + count }
{
    if count > 0 {
        put_hex(out, count - 1, w / 16);
        out.push(glyph_of((w % 16) as u8));
    }
}

#[tactic(auto, unfolding(spur_graph::specs::Text::shown_text))]
fn put_shown(out: &mut ArrayVec<u8, 256>, shown: Shown)
    requires { length out.old.items + 60 ≤ 256 }
    ensures items { out.new.items ≡ out.old.items ++ shown_text shown }
    ensures len { length out.new.items ≤ length out.old.items + 60 }
{
    match shown {
        Shown::Int(n) => {
            put_text(out, "int ");
            put_signed(out, n);
        }
        Shown::Char(n) => {
            put_text(out, "char ");
            put_number(out, n as u64);
        }
        Shown::Float(w) => {
            put_text(out, "float ");
            put_hex(out, 16, w);
        }
        Shown::Nil => put_text(out, "nil"),
        Shown::No => put_text(out, "false"),
        Shown::Yes => put_text(out, "true"),
        Shown::Object { class, format } => {
            put_text(out, "object ");
            put_number(out, class as u64);
            put_text(out, " ");
            put_number(out, format as u64);
        }
    }
}

#[tactic(auto, unfolding(spur_graph::specs::Text::cause_word))]
fn word_of_cause(cause: SegmentCause) -> &'static str
    ensures text { result.now ≡ cause_word cause }
    ensures len { length result.now ≤ 9 }
{
    match cause {
        SegmentCause::Short => "short",
        SegmentCause::Magic => "magic",
        SegmentCause::Count => "count",
        SegmentCause::Tail => "tail",
        SegmentCause::Head => "head",
        SegmentCause::Slot => "slot",
    }
}

#[tactic(auto, unfolding(spur_graph::specs::Text::refusal_text))]
fn put_refusal(out: &mut ArrayVec<u8, 256>, refusal: Refusal)
    requires { length out.old.items + 80 ≤ 256 }
    ensures items { out.new.items ≡ out.old.items ++ refusal_text refusal }
    ensures len { length out.new.items ≤ length out.old.items + 80 }
{
    match refusal {
        Refusal::Long => put_text(out, "long"),
        Refusal::Syntax => put_text(out, "syntax"),
        Refusal::Unsupported => put_text(out, "unsupported"),
        Refusal::Unknown => put_text(out, "unknown"),
        Refusal::Handles => put_text(out, "handles"),
        Refusal::Immediate => put_text(out, "immediate"),
        Refusal::Special => put_text(out, "special"),
        Refusal::Pinned => put_text(out, "pinned"),
        Refusal::ReadOnly => put_text(out, "readonly"),
        Refusal::Mourning => put_text(out, "mourning"),
        Refusal::Classed => put_text(out, "classed"),
        Refusal::Index => put_text(out, "index"),
        Refusal::Raw => put_text(out, "raw"),
        Refusal::Range => put_text(out, "range"),
        Refusal::Size => put_text(out, "size"),
        Refusal::Class => put_text(out, "class"),
        Refusal::Hashed => put_text(out, "hashed"),
        Refusal::Inside => put_text(out, "inside"),
        Refusal::Outs => put_text(out, "outs"),
        Refusal::NoMourner => put_text(out, "none"),
        Refusal::Name => put_text(out, "name"),
        Refusal::Table => put_text(out, "table"),
        Refusal::Full(full) => {
            put_text(out, "full ");
            put_number(out, full.need);
            put_text(out, " ");
            put_number(out, full.largest);
            put_text(out, " ");
            put_number(out, full.eden);
        }
        Refusal::Segment { cause, at } => {
            put_text(out, "segment ");
            put_text(out, word_of_cause(cause));
            put_text(out, " ");
            put_number(out, at);
        }
    }
}

/// Adds a label and a number behind it.
fn put_labelled(out: &mut ArrayVec<u8, 256>, label: &str, n: u64)
    requires { length out.old.items + length label.now + 20 ≤ 256 }
    ensures items { out.new.items ≡ out.old.items ++ label.now ++ decimal n }
    ensures len { length out.new.items ≤ length out.old.items + length label.now + 20 }
{
    put_text(out, label);
    put_number(out, n);
}

#[tactic(auto, unfolding(spur_graph::specs::Text::answer_text))]
fn put_answer(out: &mut ArrayVec<u8, 256>, answer: &Answer)
    requires { out.old.items ≡ [] }
    ensures items { out.new.items ≡ answer_text answer.now }
    ensures len { length out.new.items ≤ 250 }
{
    match *answer {
        Answer::Done => put_text(out, "ok"),
        Answer::Truth(true) => put_text(out, "true"),
        Answer::Truth(false) => put_text(out, "false"),
        Answer::Number(n) => put_number(out, n),
        Answer::Shown(shown) => put_shown(out, shown),
        Answer::Size { pointers, units } => {
            put_number(out, pointers);
            put_labelled(out, " ", units);
        }
        Answer::Counts { nilled, fired } => {
            put_labelled(out, "nilled ", nilled);
            put_labelled(out, " fired ", fired);
        }
        Answer::Stat(s) => {
            put_labelled(out, "stat nodes ", s.nodes);
            put_labelled(out, " handles ", s.handles);
            put_labelled(out, " mourners ", s.mourners);
            put_labelled(out, " free ", s.free);
            put_labelled(out, " largest ", s.largest);
            put_labelled(out, " eden ", s.eden);
            put_labelled(out, " past ", s.past);
        }
        Answer::Refused(refusal) => {
            put_text(out, "! ");
            put_refusal(out, refusal);
        }
    }
}

/// Writes the line of an answer, its text and a line feed, into an empty array. The longest, of `stat`, has 198 bytes.
pub fn write_answer(answer: &Answer, out: &mut ArrayVec<u8, 256>)
    requires { out.old.items ≡ [] }
    ensures { out.new.items ≡ answer_line answer.now }
{
    put_answer(out, answer);
    out.push(b'\n');
}
