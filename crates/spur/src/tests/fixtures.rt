// What the tests stand on: stores with the base image, heaps with room, and what is asserted of a run or of a session.
ghost use Rattle.std.specs.Prelude.{◌≤◌};
ghost use Rattle.image_load.specs.Loaded.{AreLimits};

use arrayvec::ArrayVec;
use drill_files::write_base_image;
use replay::{Session, Status, run};
use script_text::write_answer;
use spur_graph::{HandleName, Limits};
use spur_io::{Files, MemoryFiles, MemorySink, read_full};
use std::alloc::Global;
use std::process::Abort;
use std::test::Fail;

pub(crate) const FIRST_SCRIPT: &str = "special s\nfetch c s 3\nkind c\n";

pub(crate) const FIRST_ANSWERS: &str = "ok\nok\nobject 32 1\n";

/// A store with the base image and this script.
pub(crate) fn store(alloc: Global, script: &str) -> Result<MemoryFiles, Fail> {
    let mut files = MemoryFiles::new(alloc)?;
    write_base_image(&mut files, "base.image")?;
    files.append("a.script", script.as_bytes())?;
    Ok(files)
}

/// Puts some bytes of the base image in place of others.
pub(crate) fn patch(
    alloc: Global,
    files: &mut MemoryFiles,
    at: usize,
    bytes: &[u8],
) -> Result<(), Fail> {
    let mut image = Vec::from_elem(alloc, 0, 50_416)?;
    read_full(files, "base.image", 0, image.as_mut_slice())?;
    'bytes: for (i, byte) in bytes.iter().enumerate() {
        if let Some(old) = image.get_mut(at.saturating_add(i)) {
            *old = *byte;
        }
    }
    files.begin("base.image")?;
    files.append("base.image", image.as_slice())?;
    Ok(())
}

/// Puts a word of the base image in place of another.
fn put_word(alloc: Global, files: &mut MemoryFiles, index: usize, word: u64) -> Result<(), Fail> {
    let at = index.saturating_mul(8).saturating_add(128);
    patch(alloc, files, at, &word.to_le_bytes())
}

/// Makes the class 56, slot 8 of the special objects array, a method of one literal, with eight bytes behind.
pub(crate) fn put_method(alloc: Global, files: &mut MemoryFiles) -> Result<(), Fail> {
    put_word(alloc, files, 6_269, 0x0300_0038_1800_0020)?;
    put_word(alloc, files, 6_270, 9)
}

/// Gives the class 55, slot 7 of the special objects array, two slots behind an overflow word, in its four words.
pub(crate) fn put_overflow_word(alloc: Global, files: &mut MemoryFiles) -> Result<(), Fail> {
    put_word(alloc, files, 6_265, 0xFF00_0000_0000_0002)?;
    put_word(alloc, files, 6_266, 0xFF00_0037_0100_0020)?;
    // its entry, and the slot that names it
    let address = 1_048_576 + 8 * 6_266;
    put_word(alloc, files, 4_234, address)?;
    put_word(alloc, files, 6_281, address)
}

/// The status of a run with these words, and the session that it kept.
pub(crate) fn run_words(
    alloc: Global,
    words: &[&str],
    files: &mut MemoryFiles,
    out: &mut MemorySink,
) -> Result<(Status, Option<Session>), Fail> {
    let mut texts = Vec::new(alloc);
    'words: for word in words {
        texts.push(String::from_str(alloc, word)?)?;
    }
    let mut kept: Option<Session> = None;
    let status = run(alloc, texts.as_slice(), files, out, &mut kept);
    Ok((status, kept))
}

/// The status of a run with these words.
pub(crate) fn status(
    alloc: Global,
    words: &[&str],
    files: &mut MemoryFiles,
    out: &mut MemorySink,
) -> Result<Status, Fail> {
    let (status, _kept) = run_words(alloc, words, files, out)?;
    Ok(status)
}

/// Asserts the status of a replay of these files, and what was put.
pub(crate) fn check(
    rt: &impl Abort,
    alloc: Global,
    files: &mut MemoryFiles,
    want: Status,
    answers: &str,
) -> Result<(), Fail> {
    let mut out = MemorySink::new(alloc)?;
    let status = status(
        alloc,
        &["replay", "base.image", "a.script"],
        files,
        &mut out,
    )?;
    assert_eq!(rt; status, want);
    assert_eq!(rt; out.bytes(), answers.as_bytes());
    Ok(())
}

/// Asserts that each of these lines is answered by the text beside it.
pub(crate) fn check_rows(
    rt: &impl Abort,
    alloc: Global,
    files: &mut MemoryFiles,
    rows: &[(&str, &str)],
) -> Result<(), Fail> {
    let mut script = String::new(alloc);
    let mut answers = String::new(alloc);
    for (line, answer) in rows.iter() {
        script.push_str(line)?;
        script.push_str("\n")?;
        answers.push_str(answer)?;
        answers.push_str("\n")?;
    }
    files.begin("a.script")?;
    files.append("a.script", script.as_bytes())?;
    check(rt, alloc, files, Status::Done, answers.as_str())
}

/// Asserts that a session answers each of these lines by the text beside it.
pub(crate) fn check_lines(
    rt: &impl Abort,
    session: &mut Session,
    files: &mut MemoryFiles,
    lines: &[(&str, &str)],
) -> Result<(), Fail> {
    'lines: for (line, want) in lines.iter() {
        let answered = session.line(files, line.as_bytes());
        assert!(rt; answered.is_ok());
        if let Ok(answer) = answered {
            let mut text: ArrayVec<u8, 256> = ArrayVec::new();
            write_answer(&answer, &mut text);
            let _line_feed = text.pop();
            assert_eq!(rt; text.as_slice(), want.as_bytes(), "at {line}");
        }
    }
    Ok(())
}

/// A heap without new space, so many free words, and so many entries of the table that a compaction keeps words of moving objects in.
pub(crate) fn old_space_moving(room: usize, saved: usize) -> Limits
    requires some { 2 ≤ room }
    requires most { room ≤ 2000 }
    requires one { 1 ≤ saved }
    requires eight { saved ≤ 8 }
    ensures { AreLimits result }
{
    Limits {
        eden: 0,
        survivor: 0,
        room,
        saved,
    }
}

/// A heap without new space, and so many free words.
pub(crate) fn old_space(room: usize) -> Limits
    requires some { 2 ≤ room }
    requires most { room ≤ 2000 }
    ensures { AreLimits result }
{
    old_space_moving(room, 8)
}

/// A heap with new space, and so many free words of old space.
pub(crate) fn new_space(room: usize) -> Limits
    requires some { 2 ≤ room }
    requires most { room ≤ 2000 }
    ensures { AreLimits result }
{
    Limits {
        eden: 64,
        survivor: 16,
        room,
        saved: 8,
    }
}

/// Asserts that a session on the base image of these files answers each of these lines by the text beside it.
pub(crate) fn check_session(
    rt: &impl Abort,
    alloc: Global,
    files: &mut MemoryFiles,
    limits: Limits,
    lines: &[(&str, &str)],
) -> Result<(), Fail>
    requires { AreLimits limits }
{
    let mut session = Session::start(alloc, files, "base.image", "a.script", limits)?;
    check_lines(rt, &mut session, files, lines)
}

/// Asserts the same of a session on the base image as it is.
pub(crate) fn check_base(
    rt: &impl Abort,
    alloc: Global,
    limits: Limits,
    lines: &[(&str, &str)],
) -> Result<(), Fail>
    requires { AreLimits limits }
{
    let mut files = store(alloc, "")?;
    check_session(rt, alloc, &mut files, limits, lines)
}

/// Asserts that a session on the base image answers each of these lines by the text beside it, and where these objects then stand: the starts of
/// their headers.
fn check_placed(
    rt: &impl Abort,
    alloc: Global,
    limits: Limits,
    lines: &[(&str, &str)],
    places: &[(&str, u64)],
) -> Result<(), Fail>
    requires { AreLimits limits }
{
    let mut files = store(alloc, "")?;
    let mut session = Session::start(alloc, &mut files, "base.image", "a.script", limits)?;
    check_lines(rt, &mut session, &mut files, lines)?;
    'places: for (name, start) in places.iter() {
        let read = HandleName::from(name);
        assert!(rt; read.is_ok());
        if let Ok(read) = read {
            let held = session.heap().handle(0, &read);
            assert_eq!(rt; held.map(|word| word / 8), Some(*start), "of {name}");
        }
    }
    Ok(())
}

/// Asserts the same of heaps without new space and with so many free words, where a compaction moves one object at a time, two, and up to eight.
pub(crate) fn check_places(
    rt: &impl Abort,
    alloc: Global,
    room: usize,
    lines: &[(&str, &str)],
    places: &[(&str, u64)],
) -> Result<(), Fail>
    requires some { 2 ≤ room }
    requires most { room ≤ 2000 }
{
    check_placed(rt, alloc, old_space_moving(room, 1), lines, places)?;
    check_placed(rt, alloc, old_space_moving(room, 2), lines, places)?;
    check_placed(rt, alloc, old_space_moving(room, 8), lines, places)
}

/// Asserts the same, wherever the objects then stand.
pub(crate) fn check_moves(
    rt: &impl Abort,
    alloc: Global,
    room: usize,
    lines: &[(&str, &str)],
) -> Result<(), Fail>
    requires some { 2 ≤ room }
    requires most { room ≤ 2000 }
{
    check_places(rt, alloc, room, lines, &[])
}
