use super::*;
use crate::object::cleared;
use object_header::Header;
use spur_words::Region;
use std::test::Fail;

#[test]
fn collections_leave_nothing_in_a_header(rt: HostRuntime) {
    assert_eq!(rt;
        cleared(Header(0xffff_ffff_ffff_ffff)).0,
        0xff3f_ffff_5fbf_ffff
    );
    assert_eq!(rt;
        cleared(Header(0x0300_0033_4282_0010)).0,
        0x0300_0033_4282_0010
    );
}

#[test]
fn short_room_has_a_header(rt: HostRuntime) -> Result<(), Fail> {
    let mut region = Region::new(rt.alloc(), 259)?;
    assert_eq!(rt; region.len(), 259);
    put_room(&mut region, 4, 255);
    assert_eq!(rt;
        region.window(3, 3),
        [0, 0xfe00_0000_0900_0000, 0].as_slice()
    );
    Ok(())
}

#[test]
fn long_room_has_an_overflow_word(rt: HostRuntime) -> Result<(), Fail> {
    let mut region = Region::new(rt.alloc(), 260)?;
    assert_eq!(rt; region.len(), 260);
    put_room(&mut region, 4, 256);
    assert_eq!(rt;
        region.window(3, 4),
        [0, 0xff00_0000_0000_00fe, 0xff00_0000_0900_0000, 0].as_slice()
    );
    Ok(())
}
