use super::fixtures::{check_rows, patch, store};
use std::test::Fail;

/// Where the header of the class 56 stands in the file; it is slot 8 of the special objects array.
const HEADER: usize = 128 + 8 * 6_269;

#[test]
fn what_is_stored_is_fetched(rt: HostRuntime) -> Result<(), Fail> {
    let mut files = store(rt.alloc(), "")?;
    check_rows(
        &rt,
        rt.alloc(),
        &mut files,
        &[
            ("special s", "ok"),
            ("fetch c s 3", "ok"),
            ("store s 0 c", "ok"),
            ("fetch d s 0", "ok"),
            ("same c d", "true"),
            ("store c 9 s", "! index"),
            ("store d 2 x", "! unknown"),
            ("int i -7", "ok"),
            ("store c 2 i", "ok"),
            ("fetch j d 2", "ok"),
            ("kind j", "int -7"),
            ("fetch e s 10", "! index"),
            ("store i 0 s", "! immediate"),
            ("fetch e i 0", "! immediate"),
            ("fetch e q 0", "! unknown"),
        ],
    )
}

#[test]
fn sizes_count_slots_and_units(rt: HostRuntime) -> Result<(), Fail> {
    let mut files = store(rt.alloc(), "")?;
    check_rows(
        &rt,
        rt.alloc(),
        &mut files,
        &[
            ("special s", "ok"),
            ("size s", "10 0"),
            ("fetch k s 8", "ok"),
            ("size k", "3 0"),
            ("int i 1", "ok"),
            ("size i", "! immediate"),
            ("size q", "! unknown"),
        ],
    )
}

#[test]
fn a_readonly_object_is_not_changed(rt: HostRuntime) -> Result<(), Fail> {
    let mut files = store(rt.alloc(), "")?;
    patch(rt.alloc(), &mut files, HEADER + 2, &[0x80])?;
    check_rows(
        &rt,
        rt.alloc(),
        &mut files,
        &[
            ("special s", "ok"),
            ("fetch k s 8", "ok"),
            ("store k 0 s", "! readonly"),
            ("store k 3 s", "! index"),
            ("fetch x k 2", "ok"),
            ("kind x", "int 196609"),
        ],
    )
}
