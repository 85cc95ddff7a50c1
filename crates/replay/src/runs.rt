// The top call: an image is loaded, and the lines of a script are answered while it is read.
ghost use Rattle.std.specs.Prelude.{◌≡◌, ◌≤◌, ◌∷◌, ◌++◌, [], ℕ, List, codes, length, map, true, false, IfSome, IfNone, Some, None};
ghost use Rattle.std.specs.Fmt.{decimal};
ghost use Rattle.std.specs.String.{string_bytes};
ghost use Rattle.spur_graph.specs.Bytes.{Text};
ghost use Rattle.spur_graph.specs.State.{State};
ghost use Rattle.spur_graph.specs.Words.{number_in};
ghost use Rattle.image_load.specs.Loaded.{AreLimits};
ghost use Rattle.replay.specs.declared.runs.Status.TheVariants.{Refused};
ghost use Rattle.replay.specs.Sessions.{SameRun, IsAt, WhereTold};
ghost use Rattle.replay.specs.Runs.{IsPath, IsCall, IsReplay, IsMisused, Outcome, Judges, Counts, KeepsFiles, IsLeft};
ghost use Rattle.replay.specs.Answered.{ScriptRun};
ghost use Rattle.replay.specs.LineRuns.{LineRun, BehindRun, PieceRun, EndRun, EndsBy, StopCause};
ghost use Rattle.replay.specs.Stops.{IsPut, IsRefusing, status_of};

use crate::lines::{OpenLine, cut_line};
use crate::options::limits_of;
use crate::session::{Fault, Session};
use arrayvec::ArrayVec;
use image_load::LoadError;
use script_text::write_answer;
use spur_graph::Limits;
use spur_io::{FileFault, Files, Sink, SinkFault};
use std::alloc::Global;

/// The most bytes that a script may have.
const MOST_SCRIPT_BYTES: u64 = 1 << 32;

/// The line of an answer. There is one for all lines of a script, since a new one for each would cost about as much as a short line.
type AnswerText = ArrayVec<u8, 256>;

/// Bytes of the script that are read at once.
const PIECE_BYTES: usize = 4_096;

const USAGE: &str =
    "usage: spur replay IMAGE SCRIPT [--eden W] [--survivor W] [--room W] [--saved W] | spur drill START LINES\n";

/// How a run of the program ended.
#[derive(Clone, Copy, Debug, PartialEq, Eq)]
pub enum Status {
    /// Every line was answered.
    Done,
    /// The words are in no known form.
    Usage,
    /// The image is not one that is loaded.
    Refused,
    /// A read failed.
    ReadFault,
    /// A put or a write to a file failed.
    WriteFault,
    /// There was no memory.
    Memory,
    /// The script has more than 2^32 bytes.
    TooLong,
}

/// What the words of the command line ask for.
struct Request<'a> {
    image: &'a str,
    script: &'a str,
    limits: Limits,
}

/// Why the lines of a script are not all answered.
#[derive(Clone, Copy, Debug, PartialEq, Eq)]
pub(crate) enum Stop {
    /// A read of the script was refused.
    Script(FileFault),
    /// A line met a fault.
    Line(Fault),
    /// The put of an answer was refused.
    Put(SinkFault),
    /// The script has more than 2^32 bytes.
    TooLong,
}

impl From<FileFault> for Stop {
    ghost use Rattle.replay.specs.declared.runs.Stop.TheVariants.{Script};

    ghost from_gives = { λ f s. s ≡ Script f };

    fn from(fault: FileFault) -> Self {
        Stop::Script(fault)
    }
}

impl From<Fault> for Stop {
    ghost use Rattle.replay.specs.declared.runs.Stop.TheVariants.{Line};

    ghost from_gives = { λ f s. s ≡ Line f };

    fn from(fault: Fault) -> Self {
        Stop::Line(fault)
    }
}

impl From<SinkFault> for Stop {
    ghost use Rattle.replay.specs.declared.runs.Stop.TheVariants.{Put};

    ghost from_gives = { λ f s. s ≡ Put f };

    fn from(fault: SinkFault) -> Self {
        Stop::Put(fault)
    }
}

impl From<Stop> for Status {
    ghost use Rattle.replay.specs.declared.runs.Stop.{Stop};
    ghost use Rattle.replay.specs.Stops.{stop_status};

    ghost from_gives = { λ s t. t ≡ stop_status s };

    fn from(stop: Stop) -> Self {
        match stop {
            Stop::Script(FileFault::Failed) | Stop::Line(Fault::Read) => Status::ReadFault,
            Stop::Line(Fault::Write) | Stop::Put(SinkFault::Failed) => Status::WriteFault,
            Stop::Script(FileFault::Memory)
            | Stop::Line(Fault::Memory)
            | Stop::Put(SinkFault::Memory) => Status::Memory,
            Stop::TooLong => Status::TooLong,
        }
    }
}

/// Answers a line, writes the answer in place of what the text has, and puts it.
fn answer_line<F: Files, K: Sink>(
    session: &mut Session,
    files: &mut F,
    line: &[u8],
    text: &mut AnswerText,
    out: &mut K,
) -> Result<(), Stop>
    ensures answer { WhereTold (F.told files.old) (F.told files.new) (λ store store_now. LineRun session.old store session.new store_now line.now (K.so_far out.old) (K.so_far out.new) result) }
    ensures cause { StopCause (F.read_count files.old) (F.read_count files.new) (F.write_count files.old) (F.write_count files.new) (K.fault_count out.old) (K.fault_count out.new) result }
    ensures ends { EndsBy session.old.ended session.new.ended result }
    ensures run { SameRun session.old session.new }
{
    let answer = session.answer(files, line)?;
    text.clear();
    write_answer(&answer, text);
    out.put(text.as_slice())?;
    Ok(())
}

/// Answers the open line, whose last bytes these are.
fn answer_ended<F: Files, K: Sink>(
    session: &mut Session,
    files: &mut F,
    open_line: &mut OpenLine,
    line: &[u8],
    text: &mut AnswerText,
    out: &mut K,
) -> Result<(), Stop>
    ensures answer { WhereTold (F.told files.old) (F.told files.new) (λ store store_now. BehindRun session.old store session.new store_now open_line.old line.now (K.so_far out.old) (K.so_far out.new) result) }
    ensures none { open_line.new ≡ [] }
    ensures cause { StopCause (F.read_count files.old) (F.read_count files.new) (F.write_count files.old) (F.write_count files.new) (K.fault_count out.old) (K.fault_count out.new) result }
    ensures ends { EndsBy session.old.ended session.new.ended result }
    ensures run { SameRun session.old session.new }
{
    if open_line.is_empty() {
        return answer_line(session, files, line, text, out);
    }
    open_line.extend(line);
    let answered = answer_line(session, files, open_line.bytes(), text, out);
    open_line.clear();
    answered
}

/// Answers each line that is ended in a piece of the script, and keeps the line behind them.
fn answer_piece<F: Files, K: Sink>(
    session: &mut Session,
    files: &mut F,
    open_line: &mut OpenLine,
    piece: &[u8],
    text: &mut AnswerText,
    out: &mut K,
) -> Result<(), Stop>
    ensures answered { WhereTold (F.told files.old) (F.told files.new) (λ store store_now. PieceRun session.old store session.new store_now open_line.old open_line.new piece.now (K.so_far out.old) (K.so_far out.new) result) }
    ensures cause { StopCause (F.read_count files.old) (F.read_count files.new) (F.write_count files.old) (F.write_count files.new) (K.fault_count out.old) (K.fault_count out.new) result }
    ensures ends { EndsBy session.old.ended session.new.ended result }
    ensures run { SameRun session.old session.new }
{
    let mut rest = piece;
    'lines: while let Some((line, behind)) = cut_line(rest) {
        answer_ended(session, files, open_line, line, text, out)?;
        rest = behind;
    }
    open_line.extend(rest);
    Ok(())
}

/// Answers the line at the script's end, if there are bytes behind the last line feed.
fn answer_last<F: Files, K: Sink>(
    session: &mut Session,
    files: &mut F,
    open_line: &OpenLine,
    text: &mut AnswerText,
    out: &mut K,
) -> Result<(), Stop>
    ensures answered { WhereTold (F.told files.old) (F.told files.new) (λ store store_now. EndRun session.old store session.new store_now open_line.now (K.so_far out.old) (K.so_far out.new) result) }
    ensures cause { StopCause (F.read_count files.old) (F.read_count files.new) (F.write_count files.old) (F.write_count files.new) (K.fault_count out.old) (K.fault_count out.new) result }
    ensures ends { EndsBy session.old.ended session.new.ended result }
    ensures run { SameRun session.old session.new }
{
    if open_line.is_empty() {
        return Ok(());
    }
    answer_line(session, files, open_line.bytes(), text, out)
}

/// Answers the lines of a script while it is read. At most one byte past the limit is read. A line may save the heap under any name but the script's, so
/// that what is read is the script as it was at the start.
fn answer_script<F: Files, K: Sink>(
    session: &mut Session,
    files: &mut F,
    script: &str,
    out: &mut K,
) -> Result<(), Stop>
    requires script { session.old.script ≡ script.now }
    requires going { session.old.ended ≡ false }
    ensures outcome { WhereTold (F.told files.old) (F.told files.new) (λ store store_now. IfSome (K.so_far out.old) (λ before. (first : State) → IsAt session.old store first → ScriptRun first session.new store_now (store script.now) before (K.so_far out.new) result)) }
    ensures counts { Counts (F.read_count files.old) (F.read_count files.new) (F.write_count files.old) (F.write_count files.new) (K.fault_count out.old) (K.fault_count out.new) (status_of result) }
    ensures cause { StopCause (F.read_count files.old) (F.read_count files.new) (F.write_count files.old) (F.write_count files.new) (K.fault_count out.old) (K.fault_count out.new) result }
    ensures ends { EndsBy false session.new.ended result }
    ensures run { SameRun session.old session.new }
{
    let mut open_line = OpenLine::new();
    let mut text = ArrayVec::new();
    let mut piece = [0; PIECE_BYTES];
    let mut at = 0;
    'pieces: loop {
        let most = (PIECE_BYTES as u64).min(MOST_SCRIPT_BYTES + 1 - at);
        let count = files.read_at(script, at, &mut piece[..most as usize])?;
        if count == 0 {
            break 'pieces;
        }
        let taken = (count as u64).min(MOST_SCRIPT_BYTES - at) as usize;
        answer_piece(
            session,
            files,
            &mut open_line,
            &piece[..taken],
            &mut text,
            out,
        )?;
        if taken < count {
            return Err(Stop::TooLong);
        }
        at += count as u64;
    }
    answer_last(session, files, &open_line, &mut text, out)
}

/// Puts a line, after which the run has this status.
fn put_line<K: Sink>(out: &mut K, line: &[u8], status: Status) -> Status
    ensures { IsPut line.now (K.so_far out.old) (K.so_far out.new) (K.fault_count out.old) (K.fault_count out.new) status result }
{
    match out.put(line) {
        Ok(()) => status,
        Err(SinkFault::Failed) => Status::WriteFault,
        Err(SinkFault::Memory) => Status::Memory,
    }
}

/// The line of a cause, whose label ends in a space.
fn cause_line(label: &str, n: u128) -> ArrayVec<u8, 64>
    requires { length label.now ≤ 12 }
    ensures { result.items ≡ codes "image: " ++ ((label.now ++ decimal n) ++ 10 ∷ []) }
{
    let mut digits = itoa::Buffer::new();
    let mut line = ArrayVec::new();
    let _image_fits = line.try_extend_from_slice(b"image: ");
    let _label_fits = line.try_extend_from_slice(label.as_bytes());
    let _digits_fit = line.try_extend_from_slice(digits.format(n).as_bytes());
    line.push(b'\n');
    line
}

/// Puts the line of a cause.
fn put_cause<K: Sink>(label: &str, n: u128, out: &mut K) -> Status
    requires { length label.now ≤ 12 }
    ensures { IsPut (codes "image: " ++ ((label.now ++ decimal n) ++ 10 ∷ [])) (K.so_far out.old) (K.so_far out.new) (K.fault_count out.old) (K.fault_count out.new) Refused result }
{
    let line = cause_line(label, n);
    put_line(out, line.as_slice(), Status::Refused)
}

/// Puts the line of an image that is not loaded.
fn refuse<K: Sink>(error: LoadError, out: &mut K) -> Status
    ensures { IsRefusing error (K.so_far out.old) (K.so_far out.new) (K.fault_count out.old) (K.fault_count out.new) result }
{
    match error {
        LoadError::Short(n) => put_cause("short ", n as u128, out),
        LoadError::Format(n) => put_cause("format ", n as u128, out),
        LoadError::HeaderSize(n) => put_cause("header ", n as u128, out),
        LoadError::Base(n) => put_cause("base ", n as u128, out),
        LoadError::Large(n) => put_cause("large ", n, out),
        LoadError::Segment(n) => put_cause("segment ", n as u128, out),
        LoadError::End(n) => put_cause("end ", n as u128, out),
        LoadError::Object(n) => put_cause("object ", n as u128, out),
        LoadError::Roots(n) => put_cause("roots ", n as u128, out),
        LoadError::Forwarder(n) => put_cause("forwarder ", n as u128, out),
        LoadError::Class(n) => put_cause("class ", n as u128, out),
        LoadError::Slot(n) => put_cause("slot ", n as u128, out),
        LoadError::Special(n) => put_cause("special ", n as u128, out),
        LoadError::ReadFault => Status::ReadFault,
        LoadError::Memory => Status::Memory,
    }
}

/// Replays a script on an image, and keeps the session if it starts.
fn replay<F: Files, K: Sink>(
    alloc: Global,
    image: &str,
    script: &str,
    limits: Limits,
    files: &mut F,
    out: &mut K,
    kept: &mut Option<Session>,
) -> Status
    requires limits { AreLimits limits }
    requires none { kept.old ≡ None }
    ensures outcome { (words : List Text) → IsReplay words image.now script.now limits → WhereTold (F.told files.old) (F.told files.new) (λ store store_now. IfSome (K.so_far out.old) (λ before. Outcome words (record { files = store; files_now = store_now; before = before; after = K.so_far out.new; writes = F.write_count files.old; writes_now = F.write_count files.new; puts = K.fault_count out.old; puts_now = K.fault_count out.new }) kept.new result)) }
    ensures judges { (words : List Text) → IsReplay words image.now script.now limits → Judges words result }
    ensures counts { Counts (F.read_count files.old) (F.read_count files.new) (F.write_count files.old) (F.write_count files.new) (K.fault_count out.old) (K.fault_count out.new) result }
    ensures files { KeepsFiles (F.told files.old) (F.told files.new) result }
    ensures kept { (words : List Text) → IsReplay words image.now script.now limits → IsLeft words result kept.new }
{
    let mut session = match Session::start(alloc, files, image, script, limits) {
        Ok(session) => session,
        Err(error) => return refuse(error, out),
    };
    let answered = answer_script(&mut session, files, script, out);
    *kept = Some(session);
    match answered {
        Ok(()) => Status::Done,
        Err(stop) => stop.into(),
    }
}

/// Whether a word names a file: it is not empty, and does not begin with `-`.
fn is_path(name: &str) -> bool
    ensures yes { result ≡ true → IsPath name.now }
    ensures no { result ≡ false → IsPath name.now → ⊥ }
{
    match name.as_bytes() {
        [first, ..] => *first != b'-',
        [] => false,
    }
}

/// The image and the script of the words `replay IMAGE SCRIPT`; none where the words are others.
fn paths_of(words: &[String]) -> Option<(&str, &str)>
    ensures some { IfSome result (λ paths. IsCall (map string_bytes words.now) paths.0.now paths.1.now) }
    ensures none { IfNone result ((image script : Text) → IsCall (map string_bytes words.now) image script → ⊥) }
{
    match words {
        [command, image, script]
            if command.as_str() == "replay"
                && is_path(image.as_str())
                && is_path(script.as_str()) => { Some((image.as_str(), script.as_str())) }
        _ => None,
    }
}

/// What the words `replay IMAGE SCRIPT` and their options ask for; none where the words are others.
fn request_of(words: &[String]) -> Option<Request>
    ensures some { IfSome result (λ r. IsReplay (map string_bytes words.now) r.image.now r.script.now r.limits) }
    ensures limits { IfSome result (λ r. AreLimits r.limits) }
    ensures none { IfNone result (IsMisused (map string_bytes words.now)) }
{
    let (paths, options) = words.split_at(words.len().min(3));
    let (image, script) = paths_of(paths)?;
    let limits = limits_of(options)?;
    Some(Request {
        image,
        script,
        limits,
    })
}

/// Runs the program with these words, which are without its name: `replay IMAGE SCRIPT` loads the image and answers the script's
/// lines, one by one, while it reads the script. Each answer is put before more of the script is read (tested, no clause).
///
/// Behind these words may stand, each at most once and in any order, `--room` and a number of words, 0 or 2 to 2^26: as much room as the heap
/// has for further objects, 2^20 words where it is not told; and `--saved` and a number of entries, 1 to 2^24: so many objects a full
/// collection moves in one pass, 4,096 where it is not told.
///
/// A line may save the heap, under any name but the script's; no other file changes, and none does where the words are misused or the image is refused. A save
/// that meets a fault ends the run: its file is then as it was or a front of the image, and the answers of all lines before it were put.
///
/// Where lines were answered the session is kept as they have left it, and has ended where a save met a fault; none is kept where the words are misused or the
/// image is refused.
pub fn run<F: Files, K: Sink>(
    alloc: Global,
    words: &[String],
    files: &mut F,
    out: &mut K,
    kept: &mut Option<Session>,
) -> Status
    requires { kept.old ≡ None }
    ensures outcome { WhereTold (F.told files.old) (F.told files.new) (λ store store_now. IfSome (K.so_far out.old) (λ before. Outcome (map string_bytes words.now) (record { files = store; files_now = store_now; before = before; after = K.so_far out.new; writes = F.write_count files.old; writes_now = F.write_count files.new; puts = K.fault_count out.old; puts_now = K.fault_count out.new }) kept.new result)) }
    ensures judges { Judges (map string_bytes words.now) result }
    ensures counts { Counts (F.read_count files.old) (F.read_count files.new) (F.write_count files.old) (F.write_count files.new) (K.fault_count out.old) (K.fault_count out.new) result }
    ensures files { KeepsFiles (F.told files.old) (F.told files.new) result }
    ensures kept { IsLeft (map string_bytes words.now) result kept.new }
{
    match request_of(words) {
        Some(
            Request {
                image,
                script,
                limits,
            },
        ) => replay(alloc, image, script, limits, files, out, kept),
        None => put_line(out, USAGE.as_bytes(), Status::Usage),
    }
}
