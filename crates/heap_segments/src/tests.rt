use super::*;
use std::alloc::Global;
use std::test::Fail;

const BASE: u64 = 1_048_576;

// Two segments: 50,288 bytes at the base address, and 144 bytes behind a gap of 1,000 words.
fn two_segments(alloc: Global) -> Result<AddressMap, Fail> {
    let mut map = AddressMap::new(alloc)?;
    map.next_segment(50_432, 50_288, BASE)?;
    map.next_segment(144, 144, 1_106_864)?;
    Ok(map)
}

// The place of a word, if there is one.
fn offset_of(map: &AddressMap, word: usize) -> Option<u64> {
    if map.len() == 0 || word > map.words() {
        return None;
    }
    Some(map.offset(word))
}

#[test]
fn bridge_tells_the_next_segment_and_its_gap(rt: HostRuntime) -> Result<(), Fail> {
    let end = BASE + 50_288;
    let next = Next::Segment {
        address: 1_106_864,
        size: 144,
    };
    assert_eq!(rt; after((255 << 56) + 1000, 144, 144, end), Ok(next));
    let adjacent = Next::Segment {
        address: end,
        size: 144,
    };
    assert_eq!(rt; after(1000, 144, 144, end), Ok(adjacent));
    assert_eq!(rt; after(255 << 56, 0, 0, end), Ok(Next::Last));
    assert_eq!(rt; after(255 << 56, 0, 8, end), Err(SegmentFault::End(8)));
    Ok(())
}

#[test]
fn addresses_have_words_and_bridges_and_gaps_have_none(rt: HostRuntime) -> Result<(), Fail> {
    let map = two_segments(rt.alloc())?;
    assert_eq!(rt; map.len(), 2);
    assert_eq!(rt; map.words(), 6300);
    assert_eq!(rt; map.to_region(BASE - 8), None);
    assert_eq!(rt; map.to_region(BASE), Some(0));
    assert_eq!(rt; map.to_region(BASE + 4), None);
    assert_eq!(rt; map.to_region(BASE + 50_264), Some(6283));
    assert_eq!(rt; map.to_region(BASE + 50_272), None);
    assert_eq!(rt; map.to_region(BASE + 50_288), None);
    assert_eq!(rt; map.to_region(1_106_920), Some(6291));
    assert_eq!(rt; map.to_region(1_106_984), Some(6299));
    assert_eq!(rt; map.to_region(1_106_992), None);
    Ok(())
}

#[test]
fn words_have_places_in_the_file(rt: HostRuntime) -> Result<(), Fail> {
    let map = two_segments(rt.alloc())?;
    assert_eq!(rt; map.begin(0), 0);
    assert_eq!(rt; map.begin(1), 6284);
    assert_eq!(rt; map.begin(2), 6300);
    assert_eq!(rt; offset_of(&map, 0), Some(128));
    assert_eq!(rt; offset_of(&map, 6283), Some(50_392));
    assert_eq!(rt; offset_of(&map, 6284), Some(50_416));
    assert_eq!(rt; offset_of(&map, 6300), Some(50_544));
    Ok(())
}

#[test]
fn size_that_a_segment_cannot_have_is_refused(rt: HostRuntime) -> Result<(), Fail> {
    let mut map = AddressMap::new(rt.alloc())?;
    assert_eq!(rt; map.next_segment(64, 8, BASE), Err(SegmentFault::Size));
    assert_eq!(rt; map.next_segment(64, 20, BASE), Err(SegmentFault::Size));
    assert_eq!(rt; map.next_segment(64, 72, BASE), Err(SegmentFault::Size));
    assert_eq!(rt; map.next_segment(64, 16, 1 << 62), Err(SegmentFault::Size));
    assert_eq!(rt; map.next_segment(64, 16, (1 << 62) - 16), Ok(()));
    assert_eq!(rt; map.words(), 0);
    Ok(())
}

#[test]
fn segment_beyond_4096_is_refused(rt: HostRuntime) -> Result<(), Fail> {
    let mut map = AddressMap::new(rt.alloc())?;
    'fill: for i in 0..4096 {
        map.next_segment(1 << 20, 24, BASE + 64 * i)?;
    }
    assert_eq!(rt;
        map.next_segment(1 << 20, 24, BASE + 64 * 4096),
        Err(SegmentFault::Size)
    );
    assert_eq!(rt; map.len(), 4096);
    assert_eq!(rt; map.to_region(BASE + 64 * 1234), Some(1234));
    assert_eq!(rt; offset_of(&map, 4095), Some(128 + 24 * 4095));
    Ok(())
}
