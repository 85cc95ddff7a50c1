// A session, and what its lines are answered.
ghost use Rattle.std.specs.Prelude.{◌≡◌, ◌≢◌, ◌↔◌, take, true, false, Err, IfOk, IfErr, IfSome, IsSome, OnErr};
ghost use Rattle.std.specs.FinMap as map;
ghost use Rattle.spur_graph.specs.ImageFile.{header_bytes};
ghost use Rattle.spur_graph.specs.ImageCauses.{IsAccepted};
ghost use Rattle.spur_graph.specs.LoadedGraph.{loaded_graph, loaded_room};
ghost use Rattle.spur_graph.specs.Heaps.{Stands, Whole};
ghost use Rattle.image_file.specs.Errors.{IsCauseOf};
ghost use Rattle.image_load.specs.Loaded.{AreLimits, LoadCause};
ghost use Rattle.replay.specs.declared.session.LineFault.TheVariants.{Ended};
ghost use Rattle.replay.specs.Commands.{Replies, Steps, HeapStops, Keeps, answered};
ghost use Rattle.replay.specs.Sessions.{SameRun, Advances, Stops, WhereTold, FaultCause, LineCause};
ghost use Rattle.replay.specs.Writes.{LineWrites};

use crate::commands::obey;
use crate::halts::{Halt, answered};
use crate::saving::save_image;
use image_load::{LoadError, load};
use script_text::{Syntax, read_line};
use spur_graph::{Answer, Command, Limits, Refusal, keeps_names};
use spur_heap::Heap;
use spur_io::Files;
use std::alloc::Global;
use std::marker::Model;

/// Why a line of a session has no answer.
#[derive(Clone, Copy, Debug, PartialEq, Eq)]
pub enum LineFault {
    /// A read of a file failed.
    Read,
    /// A write to a file failed.
    Write,
    /// There was no memory.
    Memory,
    /// The session has ended.
    Ended,
}

/// Why a line is not answered, of a session that has not ended.
#[derive(Clone, Copy, Debug, PartialEq, Eq)]
pub(crate) enum Fault {
    /// A read of a file failed.
    Read,
    /// A write to a file failed.
    Write,
    /// There was no memory.
    Memory,
}

impl From<Fault> for LineFault {
    ghost use Rattle.replay.specs.declared.session.Fault.{Fault};
    ghost use Rattle.replay.specs.Sessions.{line_fault};

    ghost from_gives = { λ fault why. why ≡ line_fault fault };

    fn from(fault: Fault) -> Self {
        match fault {
            Fault::Read => LineFault::Read,
            Fault::Write => LineFault::Write,
            Fault::Memory => LineFault::Memory,
        }
    }
}

/// The heap of an image, the name of the script that is run on it, and whether it has ended.
#[derive(Drop)]
pub struct Session {
    heap: Heap,
    script: String,
    ended: bool,
}

impl Model for Session {
    ghost use Rattle.std.specs.String.{string_bytes};
    ghost use Rattle.std.specs.Prelude.{◌≡◌};
    ghost use Rattle.spur_graph.specs.Heaps.{Whole};
    ghost use Rattle.replay.specs.Sessions.{SessionView, session_code};

    ghost Value = { SessionView };

    ghost coded = { session_code };

    ghost view = { λ s. record { heap = s.heap; script = string_bytes s.script; ended = s.ended } };

    ghost invariant = { λ s. s.heap.phase ≡ Whole };
}

/// What a line is answered, or what halts it.
fn try_line<F: Files>(
    heap: &mut Heap,
    script: &str,
    files: &mut F,
    bytes: &[u8],
) -> Result<Answer, Halt>
    requires whole { heap.old.phase ≡ Whole }
    ensures replies { IfOk (answered result) (λ answer. Replies heap.old script.now (F.told files.old) bytes.now answer heap.new (F.told files.new)) }
    ensures stops { OnErr (answered result) (WhereTold (F.told files.old) (F.told files.new) (HeapStops heap.old script.now bytes.now)) }
    ensures same { OnErr (answered result) (heap.new ≡ heap.old) }
    ensures words { LineWrites heap.old bytes.now heap.new }
    ensures keeps { Keeps heap.old heap.new }
    ensures told { IsSome (F.told files.new) ↔ IsSome (F.told files.old) }
    ensures cause { FaultCause (F.read_count files.old) (F.read_count files.new) (F.write_count files.old) (F.write_count files.new) (answered result) }
{
    match read_line(bytes) {
        Ok(line) => match &line.command {
            Command::Save { name } => save_image(heap, script, files, name),
            _ => Ok(obey(heap, line.mutator, &line.command)?),
        },
        Err(Syntax::Long) => Err(Refusal::Long.into()),
        Err(Syntax::Bad) => Err(Refusal::Syntax.into()),
    }
}

/// The step of a line over a heap. A line that meets a fault makes none, and leaves the heap as it was.
fn step<F: Files>(
    heap: &mut Heap,
    script: &str,
    files: &mut F,
    bytes: &[u8],
) -> Result<Answer, Fault>
    requires whole { heap.old.phase ≡ Whole }
    ensures answer { IfOk result (λ answer. Steps heap.old script.now (F.told files.old) bytes.now answer heap.new (F.told files.new)) }
    ensures stops { OnErr result (WhereTold (F.told files.old) (F.told files.new) (HeapStops heap.old script.now bytes.now)) }
    ensures same { OnErr result (heap.new ≡ heap.old) }
    ensures words { LineWrites heap.old bytes.now heap.new }
    ensures keeps { Keeps heap.old heap.new }
    ensures told { IsSome (F.told files.new) ↔ IsSome (F.told files.old) }
    ensures cause { FaultCause (F.read_count files.old) (F.read_count files.new) (F.write_count files.old) (F.write_count files.new) result }
{
    let tried = try_line(heap, script, files, bytes);
    heap.whole();
    keeps_names();
    answered(tried)
}

impl Session {
    /// Loads the image file of this name for a run of the script of that name, with room for further objects as the limits say. The
    /// script is not read.
    pub fn start<F: Files>(
        alloc: Global,
        files: &mut F,
        image: &str,
        script: &str,
        limits: Limits,
    ) -> Result<Session, LoadError>
        requires { AreLimits limits }
        ensures stands { IfOk result (λ s. IfSome (F.told files.old) (λ store. IsAccepted (store image.now) limits × Stands s.heap (loaded_graph (store image.now)) (loaded_room (store image.now) limits))) }
        ensures begins { IfOk result (λ s. (s.script ≡ script.now) × (s.ended ≡ false)) }
        ensures fresh { IfOk result (λ s. (s.heap.handles ≡ map.empty) × (s.heap.limits ≡ limits)) }
        ensures unmarked { IfOk result (λ s. s.heap.phase ≡ Whole) }
        ensures carried { IfOk result (λ s. IfSome (F.told files.old) (λ store. s.heap.carried ≡ take header_bytes (store image.now))) }
        ensures refused { IfErr result (λ e. IfSome (F.told files.old) (λ store. IsCauseOf (store image.now) limits e)) }
        ensures same { F.told files.new ≡ F.told files.old }
        ensures cause { LoadCause (F.read_count files.old) (F.read_count files.new) result }
        ensures other { F.write_count files.new ≡ F.write_count files.old }
    {
        let heap = load(alloc, files, image, limits)?;
        let Ok(script) = String::from_str(alloc, script) else {
            return Err(LoadError::Memory);
        };
        Ok(Session {
            heap,
            script,
            ended: false,
        })
    }

    /// The heap as the lines so far have left it.
    pub fn heap(&self) -> &Heap
        ensures { result.now ≡ self.now.heap }
    {
        &self.heap
    }

    /// Whether the session has ended.
    pub fn ended(&self) -> bool
        ensures { result ≡ self.now.ended }
    {
        self.ended
    }

    /// The answer to a line without its line feed, whether or not the session has ended; of a line of more than 1,024 bytes any first
    /// bytes do that are more than 1,024 too. A fault ends the session.
    pub(crate) fn answer<F: Files>(&mut self, files: &mut F, bytes: &[u8]) -> Result<Answer, Fault>
        ensures step { IfOk result (λ answer. Advances self.old (F.told files.old) bytes.now answer self.new (F.told files.new)) }
        ensures stops { OnErr result (WhereTold (F.told files.old) (F.told files.new) (Stops self.old bytes.now)) }
        ensures open { IfOk result (λ answer. self.new.ended ≡ self.old.ended) }
        ensures fault { OnErr result (self.new ≡ record self.old { ended = true }) }
        ensures words { LineWrites self.old.heap bytes.now self.new.heap }
        ensures run { SameRun self.old self.new }
        ensures told { IsSome (F.told files.new) ↔ IsSome (F.told files.old) }
        ensures cause { FaultCause (F.read_count files.old) (F.read_count files.new) (F.write_count files.old) (F.write_count files.new) result }
    {
        let answered = step(&mut self.heap, self.script.as_str(), files, bytes);
        if answered.is_err() {
            self.ended = true;
        }
        answered
    }

    /// The answer to a line without its line feed; of a line of more than 1,024 bytes any first bytes do that are more than 1,024 too.
    ///
    /// The line `save NAME` makes the file of that name an image of the heap, and no other line changes a file. [`LineFault::Write`] and
    /// [`LineFault::Memory`] come where the store refuses a call of a save: the file is then as it was or a front of the image, the heap is
    /// as it was, and the session has ended. [`LineFault::Ended`] comes where the session has ended before; then nothing changes.
    ///
    /// The clause `words` says which words of the region stay where the line is `become` or `forward`.
    pub fn line<F: Files>(&mut self, files: &mut F, bytes: &[u8]) -> Result<Answer, LineFault>
        ensures step { IfOk result (λ answer. Advances self.old (F.told files.old) bytes.now answer self.new (F.told files.new)) }
        ensures open { IfOk result (λ answer. (self.old.ended ≡ false) × (self.new.ended ≡ false)) }
        ensures ended { (result ≡ Err Ended) ↔ (self.old.ended ≡ true) }
        ensures fault { OnErr result (self.new ≡ record self.old { ended = true }) }
        ensures stops { IfErr result (λ why. why ≢ Ended → WhereTold (F.told files.old) (F.told files.new) (Stops self.old bytes.now)) }
        ensures untouched { self.old.ended ≡ true → F.told files.new ≡ F.told files.old }
        ensures words { LineWrites self.old.heap bytes.now self.new.heap }
        ensures run { SameRun self.old self.new }
        ensures told { IsSome (F.told files.new) ↔ IsSome (F.told files.old) }
        ensures cause { LineCause (F.read_count files.old) (F.read_count files.new) (F.write_count files.old) (F.write_count files.new) result }
    {
        if self.ended {
            return Err(LineFault::Ended);
        }
        Ok(self.answer(files, bytes)?)
    }
}
