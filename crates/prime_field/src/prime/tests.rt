use crate::Prime;
use std::test::Fail;

#[test]
fn the_table_is_known(rt: HostRuntime) {
    for p in [
        2, 3, 5, 7, 11, 13, 17, 19, 23, 29, 31, 37, 41, 43, 47, 101, 251, 32003,
    ] {
        assert!(rt; Prime::new(p).is_some(), "at {p}");
    }
    for p in [0, 1, 4, 9, 49, 53, 97, 257, 32001, 32002, 32004, 4294967295] {
        assert!(rt; Prime::new(p).is_none(), "at {p}");
    }
}

#[test]
fn arithmetic_by_hand(rt: HostRuntime) -> Result<(), Fail> {
    let seven = Prime::new(7).ok_or("seven")?;
    let large = Prime::new(32003).ok_or("large")?;
    assert_eq!(rt; seven.get(), 7);
    assert_eq!(rt; large.get(), 32003);
    assert_eq!(rt; seven.add(3, 4), 0);
    assert_eq!(rt; seven.sub(2, 5), 4);
    assert_eq!(rt; seven.neg(0), 0);
    assert_eq!(rt; seven.neg(2), 5);
    assert_eq!(rt; seven.mul(3, 4), 5);
    assert_eq!(rt; seven.inv(3), 5);
    assert_eq!(rt; large.inv(2), 16002);
    assert_eq!(rt; large.mul(32002, 32002), 1);
    assert_eq!(rt; seven.symmetric(3), 3);
    assert_eq!(rt; seven.symmetric(4), -3);
    assert_eq!(rt; large.symmetric(16001), 16001);
    assert_eq!(rt; large.symmetric(16002), -16001);
    Ok(())
}
