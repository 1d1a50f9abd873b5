//! That the calls which may run out of memory succeed.
use member_regions::Regions;
use std::test::Fail;

#[test]
fn memory_is_enough(rt: HostRuntime) -> Result<(), Fail> {
    let regions = Regions::new(rt.alloc(), 3, 2)?;
    assert_eq!(rt; regions.region(2, 1, 1), [0; 512].as_slice());
    assert!(rt; Regions::new(rt.alloc(), usize::MAX, 2).is_err());
    Ok(())
}
