ghost use Rattle.std.specs.Prelude.{◌≡◌, ◌+◌, ◌<◌, ◌≤◌, ◌^◌, length, slice_index, slice_set};

use super::*;
use std::test::Fail;

#[test]
fn new_region_is_zeros(rt: HostRuntime) -> Result<(), Fail> {
    let region = Region::new(rt.alloc(), 3)?;
    assert_eq!(rt; region.len(), 3);
    assert_eq!(rt; region.as_slice(), [0, 0, 0].as_slice());
    Ok(())
}

#[test]
fn views_write_the_words_that_they_name(rt: HostRuntime) -> Result<(), Fail> {
    let mut region = Region::new(rt.alloc(), 9)?;
    assert_eq!(rt; region.len(), 9);
    fill_chunk(&mut region, 1);
    region.free_mut(5, 2).put(1, 4);
    region.bridge_mut(7).put(1, 6);
    exchange_words(&mut region, 0, 4);
    assert_eq!(rt; region.window(0, 9), [9, 5, 0, 7, 0, 0, 4, 0, 6].as_slice());
    Ok(())
}

#[test]
fn run_slides_over_its_own_words(rt: HostRuntime) -> Result<(), Fail> {
    let mut region = Region::new(rt.alloc(), 8)?;
    assert_eq!(rt; region.len(), 8);
    region.put(2, 2);
    region.put(3, 3);
    region.put(4, 4);
    region.put(5, 5);
    region.put(6, 6);
    region.slide(3, 1, 3);
    assert_eq!(rt; region.as_slice(), [0, 3, 4, 5, 4, 5, 6, 0].as_slice());
    Ok(())
}

// What a caller of several views knows: the words that it wrote, each over those before it.
fn fill_chunk(region: &mut Region, at: usize)
    requires small { at < 2 ^ 27 }
    requires within { at + 4 ≤ length region.old }
    ensures { region.new ≡ slice_set (slice_set (slice_set region.old at 5) (at + 2) 7) (at + 3) 9 }
{
    region.head_mut(at).put(0, 5);
    let mut slots = region.slots_mut(at + 1, 3);
    slots.put(1, 7);
    slots.put(2, 9);
}

// What a caller of a pair knows: each word is in the other's place, and the others as before.
fn exchange_words(region: &mut Region, a: usize, b: usize)
    requires apart { a < b }
    requires within { b < length region.old }
    ensures { region.new ≡ slice_set (slice_set region.old a (slice_index region.old b))
        b (slice_index region.old a) }
{
    let mut pair = region.pair_mut(a, 1, b, 1);
    let word = pair.get_first(0);
    pair.put_first(0, pair.get_second(0));
    pair.put_second(0, word);
}
