use super::*;
use std::test::Fail;

#[test]
fn starts_stand_in_the_order_in_which_they_came(rt: HostRuntime) -> Result<(), Fail> {
    let mut table = Remembered::new(rt.alloc(), 3)?;
    assert_eq!(rt; table.len(), 0);
    assert!(rt; !table.contains(9));
    table.add(9);
    assert!(rt; !table.contains(4));
    table.add(4);
    assert!(rt; !table.contains(4_294_967_295));
    table.add(4_294_967_295);
    assert!(rt; table.contains(4));
    assert_eq!(rt; table.len(), 3);
    assert_eq!(rt; table.item(2), 4_294_967_295);
    table.remove(4);
    table.remove(5);
    assert_eq!(rt; table.len(), 2);
    assert_eq!(rt; table.item(1), 4_294_967_295);
    table.swap_remove(0);
    assert_eq!(rt; table.len(), 1);
    assert_eq!(rt; table.item(0), 4_294_967_295);
    table.clear();
    assert_eq!(rt; table.len(), 0);
    Ok(())
}
