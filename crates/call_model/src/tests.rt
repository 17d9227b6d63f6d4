use super::*;
use std::test::Fail;

#[test]
fn a_history_is_filled(rt: HostRuntime) -> Result<(), Fail> {
    let mut history = History::new(rt.alloc());
    assert!(rt; history.is_empty());
    history.reserve(2)?;
    for mount in 0..2 {
        history.reserve(1)?;
        let what = Inner::Detach { mount };
        history.push(Entry::Inner { caller: 1, what });
    }
    assert_eq!(rt; history.len(), 2);
    assert_eq!(rt; history.as_slice().len(), 2);
    assert!(rt; history.get(1).is_some());
    assert!(rt; history.get(2).is_none());
    Ok(())
}
