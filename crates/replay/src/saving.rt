// The heap is saved under the name that a line tells.
ghost use Rattle.std.specs.Prelude.{◌≡◌, ◌↔◌, IsSome, IfOk, OnErr};
ghost use Rattle.spur_graph.specs.Refusals.{is_script};
ghost use Rattle.replay.specs.Sessions.{WhereTold, FaultCause};
ghost use Rattle.replay.specs.Commands.{SavesAs, CutsAs, answered, refusal_of};

use crate::halts::Halt;
use crate::session::Fault;
use image_save::save;
use spur_graph::{Answer, FileName, Refusal};
use spur_heap::Heap;
use spur_io::{FileFault, Files};

/// Saves the heap as the file of this name, unless that is the script which is run. A refused save changes no file.
pub(crate) fn save_image<F: Files>(
    heap: &Heap,
    script: &str,
    files: &mut F,
    name: &FileName,
) -> Result<Answer, Halt>
    ensures refusal { is_script script.now name.now.bytes ≡ refusal_of result }
    ensures saved { IfOk result (λ answer. SavesAs heap.now (F.told files.old) name.now.bytes answer (F.told files.new)) }
    ensures cut { OnErr (answered result) (WhereTold (F.told files.old) (F.told files.new) (CutsAs heap.now name.now.bytes)) }
    ensures same { IsSome (refusal_of result) → F.told files.new ≡ F.told files.old }
    ensures told { IsSome (F.told files.new) ↔ IsSome (F.told files.old) }
    ensures cause { FaultCause (F.read_count files.old) (F.read_count files.new) (F.write_count files.old) (F.write_count files.new) (answered result) }
{
    if name.as_str() == script {
        return Err(Refusal::Name.into());
    }
    match save(heap, files, name.as_str()) {
        Ok(()) => Ok(Answer::Done),
        Err(FileFault::Failed) => Err(Fault::Write.into()),
        Err(FileFault::Memory) => Err(Fault::Memory.into()),
    }
}
