use super::*;
use object_header::HeadError;
use spur_words::Region;
use std::test::Fail;

#[test]
fn new_map_has_no_start_until_one_is_set(rt: HostRuntime) -> Result<(), Fail> {
    let mut map = StartMap::new(rt.alloc(), 130)?;
    assert_eq!(rt; map.len(), 130);
    assert!(rt; !map.has(129));
    map.set(129);
    assert!(rt; map.has(129) && !map.has(65));
    Ok(())
}

#[test]
fn next_start_may_be_in_a_later_word(rt: HostRuntime) -> Result<(), Fail> {
    let mut map = StartMap::new(rt.alloc(), 200)?;
    assert_eq!(rt; map.len(), 200);
    map.set(3);
    map.set(199);
    assert_eq!(rt; map.next(0), Some(3));
    assert_eq!(rt; map.next(3), Some(3));
    assert_eq!(rt; map.next(4), Some(199));
    assert_eq!(rt; map.next(200), None);
    Ok(())
}

#[test]
fn chunks_of_each_kind_follow_each_other(rt: HostRuntime) -> Result<(), Fail> {
    let mut region = Region::new(rt.alloc(), 11)?;
    assert_eq!(rt; region.len(), 11);
    region.put(0, 0x0300_0033_0100_0020);
    region.put(4, 0x0100_0000_0000_0000);
    region.put(6, 0x0000_0000_0000_0008);
    region.put(8, 0xff00_0000_0000_0001);
    region.put(9, 0xff00_0000_0200_0010);
    let chunks = [
        (0, 0, 4, ChunkKind::Object),
        (4, 4, 2, ChunkKind::Free),
        (6, 6, 2, ChunkKind::Forwarder),
        (8, 9, 3, ChunkKind::Object),
    ];
    for (at, start, words, kind) in chunks {
        assert!(rt; at < 11);
        let chunk = Chunk {
            at,
            start,
            words,
            kind,
        };
        assert_eq!(rt; next_chunk(&region, at, 11), Ok(chunk), "at {at}");
    }
    assert_eq!(rt; next_chunk(&region, 0, 3), Err(HeadError::Overrun));
    Ok(())
}
