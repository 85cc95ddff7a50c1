use super::fixtures::{check, check_rows, patch, store};
use replay::Status;
use std::process::Abort;
use std::test::Fail;

/// Where the header of the class 56 stands in the file; it is slot 8 of the special objects array, and has three slots.
const HEADER: usize = 128 + 8 * 6_269;

#[test]
fn bytes_are_read_and_written(rt: HostRuntime) -> Result<(), Fail> {
    let mut files = store(rt.alloc(), "")?;
    patch(rt.alloc(), &mut files, HEADER + 3, &[18])?;
    check_rows(
        &rt,
        rt.alloc(),
        &mut files,
        &[
            ("special s", "ok"),
            ("fetch k s 8", "ok"),
            ("size k", "0 22"),
            ("unit k 2", "16"),
            ("setunit k 21 255", "ok"),
            ("unit k 21", "255"),
            ("unit k 22", "! index"),
            ("fetch x k 0", "! raw"),
        ],
    )
}

/// Formats of three slots of units, with how many units they have and the greatest unit.
const ENDS: [(u8, u64, u64); 7] = [
    (9, 3, 18_446_744_073_709_551_615),
    (10, 6, 4_294_967_295),
    (11, 5, 4_294_967_295),
    (12, 12, 65_535),
    (15, 9, 65_535),
    (16, 24, 255),
    (23, 17, 255),
];

#[test]
fn units_of_each_size_are_written_at_both_ends(rt: HostRuntime) -> Result<(), Fail> {
    for (format, count, greatest) in ENDS {
        let last = count - 1;
        let above = greatest as u128 + 1;
        let script = format!(in rt.alloc();
            "special s\nfetch k s 8\nsize k\nsetunit k 0 {greatest}\nunit k 0\nsetunit k {last} {greatest}\nunit k {last}\nsetunit k 0 {above}\nsetunit k {count} 0\nunit k {count}\nstore k 0 s\n",
        )?;
        let answers = format!(in rt.alloc();
            "ok\nok\n0 {count}\nok\n{greatest}\nok\n{greatest}\n! range\n! index\n! index\n! raw\n",
        )?;
        let mut files = store(rt.alloc(), script.as_str())?;
        patch(rt.alloc(), &mut files, HEADER + 3, &[format])?;
        check(&rt, rt.alloc(), &mut files, Status::Done, answers.as_str())?;
    }
    Ok(())
}

#[test]
fn a_method_has_units_behind_its_literals(rt: HostRuntime) -> Result<(), Fail> {
    let mut files = store(rt.alloc(), "")?;
    patch(rt.alloc(), &mut files, HEADER + 3, &[24])?;
    patch(rt.alloc(), &mut files, HEADER + 8, &1u64.to_le_bytes())?;
    check_rows(
        &rt,
        rt.alloc(),
        &mut files,
        &[
            ("special s", "ok"),
            ("fetch k s 8", "ok"),
            ("size k", "1 16"),
            ("unit k 15", "0"),
            ("setunit k 15 255", "ok"),
            ("unit k 15", "255"),
            ("unit k 16", "! index"),
            ("store k 0 s", "! raw"),
            ("store k 1 s", "! index"),
            ("fetch x k 0", "ok"),
            ("kind x", "int 0"),
        ],
    )
}

#[test]
fn a_method_may_be_all_literals(rt: HostRuntime) -> Result<(), Fail> {
    let mut files = store(rt.alloc(), "")?;
    patch(rt.alloc(), &mut files, HEADER + 3, &[24])?;
    patch(rt.alloc(), &mut files, HEADER + 8, &17u64.to_le_bytes())?;
    check_rows(
        &rt,
        rt.alloc(),
        &mut files,
        &[
            ("special s", "ok"),
            ("fetch k s 8", "ok"),
            ("size k", "3 0"),
            ("unit k 0", "! index"),
            ("store k 0 s", "! raw"),
            ("store k 1 s", "ok"),
            ("fetch x k 1", "ok"),
            ("same x s", "true"),
            ("fetch y k 0", "ok"),
            ("kind y", "int 2"),
        ],
    )
}

#[test]
fn a_pointer_object_has_no_units(rt: HostRuntime) -> Result<(), Fail> {
    let mut files = store(rt.alloc(), "")?;
    check_rows(
        &rt,
        rt.alloc(),
        &mut files,
        &[
            ("special s", "ok"),
            ("unit s 0", "! raw"),
            ("setunit s 0 1", "! raw"),
            ("int i 1", "ok"),
            ("unit i 0", "! immediate"),
            ("setunit i 0 1", "! immediate"),
            ("unit q 0", "! unknown"),
        ],
    )
}

#[test]
fn a_readonly_unit_is_not_changed(rt: HostRuntime) -> Result<(), Fail> {
    let mut files = store(rt.alloc(), "")?;
    patch(rt.alloc(), &mut files, HEADER + 2, &[0x80, 16])?;
    check_rows(
        &rt,
        rt.alloc(),
        &mut files,
        &[
            ("special s", "ok"),
            ("fetch k s 8", "ok"),
            ("setunit k 0 1", "! readonly"),
            ("setunit k 0 256", "! range"),
            ("unit k 2", "16"),
        ],
    )
}
