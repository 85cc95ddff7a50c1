// Handles that are rewritten to where they lead.
ghost use Rattle.replay.specs.Commands.{Settles};

use spur_graph::{Command, HandleName};
use spur_heap::Heap;

/// Rewrites a handle that reads through forwarders to the object to which they lead. What it names stays.
fn settle(heap: &mut Heap, mutator: u8, name: &HandleName)
    ensures { Settles heap.old heap.new }
{
    let Some(word) = heap.handle(mutator, name) else {
        return;
    };
    let end = heap.follow(word);
    if end != word {
        let _bound = heap.bind(mutator, *name, end);
    }
}

/// Rewrites two handles so.
fn settle_both(heap: &mut Heap, mutator: u8, a: &HandleName, b: &HandleName)
    ensures { Settles heap.old heap.new }
{
    settle(heap, mutator, a);
    settle(heap, mutator, b);
}

/// Rewrites the handles that a command reads so, where anything was forwarded since the heap was made: a name that is exchanged over and over is then no
/// further from its object than a step. No word of the region is written.
pub(crate) fn settle_handles(heap: &mut Heap, mutator: u8, command: &Command)
    ensures { Settles heap.old heap.new }
{
    if !heap.has_forwarders() {
        return;
    }
    match command {
        Command::Copy { o, .. }
        | Command::Kind { o }
        | Command::Class { o, .. }
        | Command::Size { o }
        | Command::Hash { o }
        | Command::Fetch { o, .. }
        | Command::Unit { o, .. }
        | Command::SetUnit { o, .. }
        | Command::Pin { o }
        | Command::Unpin { o }
        | Command::ReadOnly { o }
        | Command::Writable { o } => settle(heap, mutator, o),
        Command::New { c, .. } | Command::NewOld { c, .. } | Command::Enter { c } => {
            settle(heap, mutator, c)
        }
        Command::Store { o, v, .. } => settle_both(heap, mutator, o, v),
        Command::Same { a, b } | Command::Become { a, b } | Command::Forward { a, b, .. } => {
            settle_both(heap, mutator, a, b)
        }
        _ => {}
    }
}
