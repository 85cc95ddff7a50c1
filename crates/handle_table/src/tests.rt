use super::*;
use spur_graph::HandleName;
use std::test::Fail;

// A name of its own for each number below 10^5.
fn name_of(number: u32) -> HandleName {
    let mut name = HandleName::new();
    let _ = name.try_push('h');
    let mut rest = number;
    'digits: for _ in 0..5 {
        let _ = name.try_push((b'0' + (rest % 10) as u8) as char);
        rest /= 10;
    }
    name
}

#[test]
fn handle_has_the_word_that_was_bound_last(rt: HostRuntime) -> Result<(), Fail> {
    let mut table = HandleTable::new(rt.alloc())?;
    assert!(rt; table.is_empty());
    let name = name_of(1);
    assert_eq!(rt; table.bind(3, name, 8), Ok(()));
    assert_eq!(rt; table.bind(3, name, 16), Ok(()));
    assert_eq!(rt; table.bind(4, name, 24), Ok(()));
    assert_eq!(rt; table.get(3, &name), Some(16));
    assert_eq!(rt; table.get(4, &name), Some(24));
    assert_eq!(rt; table.get(5, &name), None);
    assert_eq!(rt; table.len(), 2);
    assert!(rt; table.unbind(3, &name));
    assert!(rt; !table.unbind(3, &name));
    assert_eq!(rt; table.get(3, &name), None);
    assert_eq!(rt; table.get(4, &name), Some(24));
    Ok(())
}

#[test]
fn one_more_than_the_most_is_refused_until_one_is_dropped(rt: HostRuntime) -> Result<(), Fail> {
    let mut table = HandleTable::new(rt.alloc())?;
    'fill: for number in 0..65_536 {
        assert_eq!(rt;
            table.bind((number % 16) as u8, name_of(number), number as u64),
            Ok(())
        );
    }
    assert_eq!(rt; table.bind(0, name_of(65_536), 1), Err(TableFull));
    assert_eq!(rt; table.bind(0, name_of(0), 1), Ok(()));
    assert!(rt; table.unbind(1, &name_of(1)));
    assert_eq!(rt; table.bind(0, name_of(65_536), 1), Ok(()));
    assert_eq!(rt; table.bind(1, name_of(1), 1), Err(TableFull));
    assert_eq!(rt; table.len(), 65_536);
    Ok(())
}

#[test]
fn handles_are_found_after_others_are_dropped(rt: HostRuntime) -> Result<(), Fail> {
    let mut table = HandleTable::new(rt.alloc())?;
    'fill: for number in 0..65_536 {
        assert_eq!(rt;
            table.bind((number % 16) as u8, name_of(number), number as u64),
            Ok(())
        );
    }
    'drop: for third in 0..20_000 {
        let number = 3 * third;
        assert!(rt; table.unbind((number % 16) as u8, &name_of(number)));
    }
    'look: for number in 0..65_536 {
        let word = if number % 3 == 0 && number < 60_000 {
            None
        } else {
            Some(number as u64)
        };
        assert_eq!(rt;
            table.get((number % 16) as u8, &name_of(number)),
            word,
            "at {number}"
        );
    }
    assert_eq!(rt; table.len(), 45_536);
    Ok(())
}

#[test]
fn words_are_bound_anew_by_index(rt: HostRuntime) -> Result<(), Fail> {
    let mut table = HandleTable::new(rt.alloc())?;
    'fill: for number in 0..3 {
        assert_eq!(rt;
            table.bind(number as u8, name_of(number), 8 * number as u64),
            Ok(())
        );
    }
    assert_eq!(rt; table.words(), [0, 8, 16].as_slice());
    table.put_word(1, 24);
    assert_eq!(rt; table.words(), [0, 24, 16].as_slice());
    assert_eq!(rt; table.get(1, &name_of(1)), Some(24));
    assert_eq!(rt; table.len(), 3);
    Ok(())
}
