ghost use Rattle.std.specs.Prelude.{◌<◌};

use crate::parts::{Part, Parts, compact_words};
use crate::sweeps::sweep;
use heap_walk::{Saved, StartMap};
use std::alloc::Global;
use std::process::Abort;
use std::test::Fail;

// An object of three slots, as it is before a marking, once it is marked, and if it is pinned besides.
const DEAD: u64 = 0x0300_0000_0200_0020;

const LIVE: u64 = 0x0380_0000_0200_0020;

const PINNED: u64 = 0x0380_0000_4200_0020;

// Free chunks of six words and of fourteen.
const FREE_SIX: u64 = 0x0500_0000_0900_0000;

const FREE_FOURTEEN: u64 = 0x0d00_0000_0900_0000;

// Two gaps of four words take the two objects behind them, whose references to pinned objects stay. A handle, the special objects word and a mourner that
// begins a group name the objects that move.
fn compact_with(rt: &impl Abort, alloc: Global, entries: usize) -> Result<(), Fail>
    requires { 0 < entries }
{
    let mut words = [
        DEAD, 1, 1, 1, PINNED, 73, 1, 1, DEAD, 1, 1, 1, PINNED, 1, 1, 1, LIVE, 32, 1, 1, LIVE, 1,
        1, 96, FREE_SIX, 0, 0, 0, 0, 0,
    ];
    let mut starts = StartMap::new(alloc, 30)?;
    starts.set(0);
    starts.set(4);
    starts.set(8);
    starts.set(12);
    starts.set(16);
    starts.set(20);
    let lost = sweep(&words, &mut starts);
    let mut handles = [128, 19, 96];
    let mut special = 160;
    let mut mourners = [2_147_483_664];
    let none = Saved { start: 0, first: 0 };
    let mut table = Vec::from_elem(alloc, none, entries)?;
    let parts = Parts {
        old_space: Part { low: 0, end: 30 },
        eden: Part { low: 30, end: 30 },
        past_space: Part { low: 30, end: 30 },
    };
    let ends = compact_words(
        &mut words,
        &mut handles,
        &mut special,
        &mut mourners,
        &mut starts,
        table.as_mut_slice(),
        parts,
    );
    let expected = [
        LIVE,
        32,
        1,
        1,
        PINNED,
        73,
        1,
        1,
        LIVE,
        1,
        1,
        96,
        PINNED,
        1,
        1,
        1,
        FREE_FOURTEEN,
    ];
    assert_eq!(rt; lost, 2);
    assert_eq!(rt; words[..17], expected[..]);
    assert_eq!(rt; handles, [0, 19, 96]);
    assert_eq!(rt; special, 64);
    assert_eq!(rt; mourners, [2_147_483_648]);
    assert_eq!(rt; starts.next(0), Some(0));
    assert_eq!(rt; starts.next(1), Some(4));
    assert_eq!(rt; starts.next(5), Some(8));
    assert_eq!(rt; starts.next(9), Some(12));
    assert_eq!(rt; starts.next(13), None);
    assert_eq!(rt; (ends.eden, ends.past_space), (30, 30));
    Ok(())
}

#[test]
fn one_entry_takes_a_pass_for_each_object(rt: HostRuntime) -> Result<(), Fail> {
    compact_with(&rt, rt.alloc(), 1)
}

#[test]
fn two_entries_take_one_pass(rt: HostRuntime) -> Result<(), Fail> {
    compact_with(&rt, rt.alloc(), 2)
}

#[test]
fn more_entries_than_objects_serve(rt: HostRuntime) -> Result<(), Fail> {
    compact_with(&rt, rt.alloc(), 8)
}
