use super::*;
use std::test::Fail;

#[test]
fn a_map_by_numbers(rt: HostRuntime) -> Result<(), Fail> {
    let alloc = rt.alloc();
    let mut map = NumberMap::new(alloc);
    assert_eq!(rt; map.insert(7, 70)?, None);
    assert_eq!(rt; map.try_insert(8, 80), Ok(None));
    let copy = map.duplicate(alloc)?;
    assert_eq!(rt; copy.get(8).copied(), Some(80));
    assert_eq!(rt; map.remove(7), Some(70));
    Ok(())
}

#[test]
fn a_map_by_pairs(rt: HostRuntime) -> Result<(), Fail> {
    let alloc = rt.alloc();
    let mut map = PairMap::new(alloc);
    assert_eq!(rt; map.insert((2, 1), 21)?, None);
    let copy = map.duplicate(alloc)?;
    assert_eq!(rt; copy.get((2, 1)).copied(), Some(21));
    assert_eq!(rt; map.remove((2, 1)), Some(21));
    Ok(())
}
