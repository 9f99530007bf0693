//! How long a batch waits.

use throttle::{Rate, wait_ms};

#[test]
fn a_batch_waits_for_what_is_left_of_its_time(rt: HostRuntime) {
    let rate = Rate::per_second(500);
    assert!(rt; wait_ms(1000, 2, rate, 500) == 3500);
    assert!(rt; wait_ms(1000, 2, rate, 4000) == 0 && wait_ms(1000, 2, rate, 4001) == 0);
    assert!(rt; wait_ms(0, 2, rate, 0) == 0);
}

#[test]
fn a_slice_of_two_waits_twice_as_long(rt: HostRuntime) {
    let rate = Rate::per_second(1);
    assert!(rt; wait_ms(2, 2, rate, 0) == 4000 && wait_ms(2, 1, rate, 0) == 2000);
}

#[test]
fn a_wait_is_rounded_down(rt: HostRuntime) {
    assert!(rt; wait_ms(1, 1, Rate::per_second(3), 0) == 333);
    assert!(rt; wait_ms(1, 1, Rate::per_second(1_000_000), 0) == 0);
}

#[test]
fn the_longest_wait_is_told(rt: HostRuntime) {
    assert!(rt; wait_ms(10_000, 32, Rate::per_second(1), 0) == 320_000_000);
    assert!(rt; wait_ms(10_000, 32, Rate::per_second(1), u64::MAX) == 0);
}

#[test]
fn without_a_rate_nothing_waits(rt: HostRuntime) {
    assert!(rt; wait_ms(10_000, 32, Rate::None, 0) == 0);
}
