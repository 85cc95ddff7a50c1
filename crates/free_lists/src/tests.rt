use super::*;
use spur_words::Region;
use std::test::Fail;

#[test]
fn smallest_chunk_that_fits_serves(rt: HostRuntime) -> Result<(), Fail> {
    let mut region = Region::new(rt.alloc(), 1000)?;
    assert_eq!(rt; region.len(), 1000);
    let mut free = FreeLists::new();
    free.give(&mut region, 10, 6);
    free.give(&mut region, 100, 300);
    free.give(&mut region, 500, 64);
    assert_eq!(rt; free.total(&region), 370);
    assert_eq!(rt; free.largest(&region), 300);
    assert_eq!(rt; free.head(&region, 6), Some(10));
    assert_eq!(rt; free.head(&region, 7), None);
    // One word more does not serve: 64 words do, and leave 59.
    assert_eq!(rt; free.take(&mut region, 5), Some(500));
    assert_eq!(rt; free.head(&region, 59), Some(505));
    assert_eq!(rt; free.take(&mut region, 6), Some(10));
    assert_eq!(rt; free.take_whole(&mut region, 60), Some((100, 300)));
    assert_eq!(rt; free.take(&mut region, 58), None);
    assert_eq!(rt; free.largest(&region), 59);
    assert_eq!(rt; free.take(&mut region, 57), Some(505));
    assert_eq!(rt; free.total(&region), 2);
    Ok(())
}

#[test]
fn free_chunks_of_a_row_are_listed(rt: HostRuntime) -> Result<(), Fail> {
    let mut region = Region::new(rt.alloc(), 13)?;
    assert_eq!(rt; region.len(), 13);
    // An object, a free chunk, one of five words with an overflow word, and a forwarder.
    region.put(0, 0x0300_0033_0100_0020);
    region.put(4, 0x0100_0000_0000_0000);
    region.put(6, 0xff00_0000_0000_0003);
    region.put(7, 0xff00_0000_0000_0000);
    region.put(11, 0x0100_0000_0700_0008);
    let mut free = FreeLists::new();
    free.rebuild(&mut region, 0, 13);
    assert_eq!(rt; free.total(&region), 7);
    assert_eq!(rt; free.head(&region, 2), Some(4));
    assert_eq!(rt; free.head(&region, 5), Some(6));
    assert_eq!(rt; region.get(6), 0x0400_0000_0900_0000);
    assert_eq!(rt; free.take(&mut region, 3), Some(6));
    assert_eq!(rt; free.head(&region, 2), Some(9));
    Ok(())
}
