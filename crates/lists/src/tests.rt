use crate::List;
use std::test::Fail;

#[test]
fn lists_keep_their_items(rt: HostRuntime) -> Result<(), Fail> {
    let mut list = List::new(rt.alloc());
    assert_eq!(rt; list.len(), 0);
    assert!(rt; list.push(5u32).is_ok() && list.push(7).is_ok());
    assert_eq!(rt; list.len(), 2);
    assert_eq!(rt; list.as_slice(), [5, 7].as_slice());
    list.as_mut_slice()[1] = 8;
    assert_eq!(rt; list.as_slice(), [5, 8].as_slice());
    let mut more = List::from_slice(rt.alloc(), [9, 11].as_slice())?;
    assert!(rt; list.append(&mut more).is_ok());
    assert_eq!(rt; more.len(), 0);
    assert!(rt; more.extend_from_slice([13].as_slice()).is_ok());
    assert_eq!(rt; more.as_slice(), [13].as_slice());
    assert_eq!(rt; list.into_vec().as_slice(), [5, 8, 9, 11].as_slice());
    Ok(())
}
