use replay_set::ReplaySet;
use std::mem::size_of;

#[test]
fn a_receive_window_is_small(rt: HostRuntime) {
    assert!(rt; size_of::<ReplaySet>() <= 192);
}
