use flow_rings::Held;
use flow_rings::crossing::{are_numbers_and_end, numbers_and_end, send_across, send_and_finish};
use std::test::Fail;

#[test]
fn a_thousand_numbers_cross_in_order(rt: HostRuntime) -> Result<(), Fail> {
    let messages = numbers_and_end(rt.alloc(), 1_000)?;
    let across = send_across(&rt, rt.alloc(), 4, messages)?;
    let are_all = are_numbers_and_end(&across.taken, 1_000);
    let told = (across.taken.len(), are_all, across.held);
    assert_eq!(rt; told, (1_001, true, Held { count: 0, room: 4 }));
    Ok(())
}

#[test]
fn nothing_is_left_after_a_mark(rt: HostRuntime) -> Result<(), Fail> {
    let messages = numbers_and_end(rt.alloc(), 1_000)?;
    let (taken, left) = send_and_finish(&rt, rt.alloc(), 4, messages)?;
    assert_eq!(rt; (are_numbers_and_end(&taken, 1_000), left), (true, Some(0)));
    Ok(())
}
