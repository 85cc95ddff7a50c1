// What each command is answered.
ghost use Rattle.std.specs.Prelude.{◌≡◌, false, IfOk, OnErr};
ghost use Rattle.std.specs.Result.{result_err};
ghost use Rattle.spur_graph.specs.Form.{view};
ghost use Rattle.spur_graph.specs.Heaps.{Whole};
ghost use Rattle.replay.specs.Commands.{FirstRefusal, Obeys, Keeps, Same, saves};
ghost use Rattle.replay.specs.Writes.{Writes};

use crate::changing::{exchange_objects, forward_object, pin_object, protect, unpin_object};
use crate::collecting::{collect_dead, mourn_one};
use crate::handles::unbind;
use crate::making::{enter_class, hash, make, stat};
use crate::settling::settle_handles;
use crate::slots::{fetch, set_unit, store, unit};
use crate::values::{bind_class, bind_value, bind_word, copy, kind, same, size};
use immediates::{character, float_bits, small_int};
use spur_graph::{Answer, Command, Refusal};
use spur_heap::{Heap, Space};

/// What a command is answered that touches no file, or the first refusal that applies, which changes nothing.
fn carry_out(heap: &mut Heap, mutator: u8, command: &Command) -> Result<Answer, Refusal>
    requires stays { saves (view command.now) ≡ false }
    requires whole { heap.old.phase ≡ Whole }
    ensures refusal { FirstRefusal heap.old mutator (view command.now) (result_err result) }
    ensures done { IfOk result (λ answer. Obeys heap.old mutator (view command.now) answer heap.new) }
    ensures words { Writes heap.old heap.new mutator (view command.now) }
    ensures same { OnErr result (heap.new ≡ heap.old) }
    ensures keeps { Keeps heap.old heap.new }
{
    heap.whole();
    match command {
        Command::Special { h } => bind_word(heap, mutator, h, heap.special()),
        Command::Nil { h } => bind_word(heap, mutator, h, heap.nil()),
        Command::Yes { h } => bind_word(heap, mutator, h, heap.yes()),
        Command::No { h } => bind_word(heap, mutator, h, heap.no()),
        Command::Int { h, n } => bind_value(heap, mutator, h, small_int(*n)),
        Command::Char { h, n } => bind_value(heap, mutator, h, character(*n)),
        Command::Float { h, word } => bind_value(heap, mutator, h, float_bits(*word)),
        Command::Copy { h, o } => copy(heap, mutator, h, o),
        Command::Drop { h } => {
            unbind(heap, mutator, h)?;
            Ok(Answer::Done)
        }
        Command::Kind { o } => kind(heap, mutator, o),
        Command::Class { h, o } => bind_class(heap, mutator, h, o),
        Command::Size { o } => size(heap, mutator, o),
        Command::Same { a, b } => same(heap, mutator, a, b),
        Command::Fetch { h, o, i } => fetch(heap, mutator, h, o, *i),
        Command::Store { o, i, v } => store(heap, mutator, o, *i, v),
        Command::Unit { o, i } => unit(heap, mutator, o, *i),
        Command::SetUnit { o, i, n } => set_unit(heap, mutator, o, *i, *n),
        Command::New { h, c, n } => make(heap, mutator, Space::Any, h, c, *n),
        Command::NewOld { h, c, n } => make(heap, mutator, Space::Old, h, c, *n),
        Command::Enter { c } => enter_class(heap, mutator, c),
        Command::Hash { o } => hash(heap, mutator, o),
        Command::Stat => Ok(stat(heap, mutator)),
        Command::Become { a, b } => exchange_objects(heap, mutator, a, b),
        Command::Forward { a, b, hash } => forward_object(heap, mutator, a, b, *hash),
        Command::Pin { o } => pin_object(heap, mutator, o),
        Command::Unpin { o } => unpin_object(heap, mutator, o),
        Command::ReadOnly { o } => protect(heap, mutator, o, true),
        Command::Writable { o } => protect(heap, mutator, o, false),
        Command::Gc => Ok(collect_dead(heap, mutator)),
        Command::Mourn { h } => mourn_one(heap, mutator, h),
        Command::Scavenge | Command::SegStore { .. } | Command::SegLoad { .. } => Err(
            Refusal::Unsupported,
        ),
        Command::Save { .. } => unreachable!(),
    }
}

/// What a command is answered that touches no file, or the first refusal that applies, which changes neither graph nor room. The handles that it reads are
/// rewritten first to where they lead, if anything was forwarded.
pub(crate) fn obey(heap: &mut Heap, mutator: u8, command: &Command) -> Result<Answer, Refusal>
    requires stays { saves (view command.now) ≡ false }
    requires whole { heap.old.phase ≡ Whole }
    ensures refusal { FirstRefusal heap.old mutator (view command.now) (result_err result) }
    ensures done { IfOk result (λ answer. Obeys heap.old mutator (view command.now) answer heap.new) }
    ensures words { Writes heap.old heap.new mutator (view command.now) }
    ensures same { OnErr result (Same heap.old heap.new) }
    ensures keeps { Keeps heap.old heap.new }
{
    settle_handles(heap, mutator, command);
    carry_out(heap, mutator, command)
}
