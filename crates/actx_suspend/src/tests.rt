//! The last frame comes first.

use super::Stack;
use actx_data::{Twin, Units};
use std::test::Fail;

#[test]
fn frames_come_back_last_first(rt: HostRuntime) -> Result<(), Fail> {
    let alloc = rt.alloc();
    let mut stack = Stack::new(alloc);
    assert!(rt; stack.pop().is_none());
    for unit in [1, 2, 3] {
        let pushed = stack.push(Units::from_list(alloc, &[unit])?);
        assert!(rt; pushed.is_ok());
    }
    let mut twin = stack.copy(alloc)?;
    for unit in [3, 2, 1] {
        let frame = stack.pop().map(|frame| frame.as_slice().first().copied());
        assert_eq!(rt; frame, Some(Some(unit)));
        let other = twin.pop().map(|frame| frame.as_slice().first().copied());
        assert_eq!(rt; other, Some(Some(unit)));
    }
    assert!(rt; stack.pop().is_none() && twin.pop().is_none());
    Ok(())
}
