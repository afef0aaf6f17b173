use model_worlds::Items;
use std::test::Fail;

#[test]
fn items_keep_their_order(rt: HostRuntime) -> Result<(), Fail> {
    let items = Items::new(vec![in rt.alloc(); 3, 1, 2]?);
    assert_eq!(rt; items.as_slice(), [3, 1, 2].as_slice());
    Ok(())
}
