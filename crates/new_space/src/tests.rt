use super::*;
use std::test::Fail;

#[test]
fn words_are_taken_until_too_few_are_left(rt: HostRuntime) -> Result<(), Fail> {
    let mut young = NewSpace::new(100, 10, 110, 114, 4);
    assert_eq!(rt; young.take(6), Some(100));
    assert_eq!(rt; young.take(5), None);
    assert_eq!(rt; young.left(), 4);
    assert_eq!(rt; young.take(4), Some(106));
    assert_eq!(rt; young.take(1), None);
    assert_eq!(rt; young.eden_used(), 10);
    assert_eq!(rt; young.take_future(3), Some(114));
    assert_eq!(rt; young.take_future(2), None);
    assert_eq!(rt; young.future_used(), 3);
    assert_eq!(rt; young.past_used(), 0);
    Ok(())
}

#[test]
fn survivor_spaces_take_turns(rt: HostRuntime) -> Result<(), Fail> {
    let mut young = NewSpace::new(100, 10, 110, 114, 4);
    assert_eq!(rt; young.take(6), Some(100));
    assert_eq!(rt; young.take_future(3), Some(114));
    young.flip();
    assert_eq!(rt; (young.past_at(), young.past_used()), (114, 3));
    assert_eq!(rt; (young.future_at(), young.future_used()), (110, 0));
    assert_eq!(rt; (young.eden_at(), young.eden_used()), (100, 0));
    assert_eq!(rt; (young.first_at(), young.second_at()), (110, 114));
    assert_eq!(rt; young.take(8), Some(100));
    young.cut(Part::Eden, 5);
    young.cut(Part::Past, 2);
    assert_eq!(rt; (young.eden_used(), young.past_used()), (5, 2));
    Ok(())
}
