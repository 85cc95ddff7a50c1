use super::fixtures::{check_rows, store};
use std::test::Fail;

#[test]
fn shown_by_kind(rt: HostRuntime) -> Result<(), Fail> {
    let mut files = store(rt.alloc(), "")?;
    check_rows(
        &rt,
        rt.alloc(),
        &mut files,
        &[
            ("special s", "ok"),
            ("kind s", "object 51 2"),
            ("fetch c s 3", "ok"),
            ("kind c", "object 32 1"),
            ("fetch f c 2", "ok"),
            ("kind f", "int 131072"),
            ("nil n", "ok"),
            ("kind n", "nil"),
            ("true t", "ok"),
            ("kind t", "true"),
            ("false w", "ok"),
            ("kind w", "false"),
            ("int i -12", "ok"),
            ("kind i", "int -12"),
            ("char x 97", "ok"),
            ("kind x", "char 97"),
            ("float y 4000000000000004", "ok"),
            ("kind y", "float 4000000000000004"),
            ("copy z c", "ok"),
            ("kind z", "object 32 1"),
        ],
    )
}

#[test]
fn the_special_objects_name_nil_false_and_true(rt: HostRuntime) -> Result<(), Fail> {
    let mut files = store(rt.alloc(), "")?;
    check_rows(
        &rt,
        rt.alloc(),
        &mut files,
        &[
            ("special s", "ok"),
            ("fetch n s 0", "ok"),
            ("kind n", "nil"),
            ("fetch f s 1", "ok"),
            ("kind f", "false"),
            ("fetch t s 2", "ok"),
            ("kind t", "true"),
            ("nil m", "ok"),
            ("same m n", "true"),
        ],
    )
}

#[test]
fn numbers_and_codes_have_ranges(rt: HostRuntime) -> Result<(), Fail> {
    let mut files = store(rt.alloc(), "")?;
    check_rows(
        &rt,
        rt.alloc(),
        &mut files,
        &[
            ("int a 1152921504606846975", "ok"),
            ("int b -1152921504606846976", "ok"),
            ("int d 1152921504606846976", "! range"),
            ("int e -1152921504606846977", "! range"),
            ("kind b", "int -1152921504606846976"),
            ("kind d", "! unknown"),
            ("char a 1073741823", "ok"),
            ("char b 1073741824", "! range"),
            ("float f 4000000000000004", "ok"),
            ("kind f", "float 4000000000000004"),
            ("float g 4000000000000005", "! range"),
        ],
    )
}

#[test]
fn values_are_the_same_by_kind_and_word(rt: HostRuntime) -> Result<(), Fail> {
    let mut files = store(rt.alloc(), "")?;
    check_rows(
        &rt,
        rt.alloc(),
        &mut files,
        &[
            ("int a 5", "ok"),
            ("int b 5", "ok"),
            ("int c -5", "ok"),
            ("char d 5", "ok"),
            ("same a b", "true"),
            ("same a c", "false"),
            ("same a d", "false"),
            ("float e 000000000000002c", "ok"),
            ("same a e", "false"),
            ("special s", "ok"),
            ("same s s", "true"),
            ("same s a", "false"),
            ("same s q", "! unknown"),
        ],
    )
}
