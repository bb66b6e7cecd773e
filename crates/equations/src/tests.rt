// f and slopes on small scripts at the smallest kind. Branch arrays stand with more places than are
// held.
use crate::rules::Rules;
use script::branch::Branch;

fn calling(routine: u8, count: u8, calls: [u8; 4]) -> Branch {
    Branch {
        routine,
        count,
        calls,
        seconds: 0,
        light: 0,
        turn: 0,
    }
}

// 0 calls 1 twice, 1 calls 2 and 3, 2 and 3 call none; a fifth branch is not held.
fn script() -> [Branch; 5] {
    [
        calling(0, 2, [1, 1, 0, 0]),
        calling(1, 2, [2, 3, 0, 0]),
        calling(2, 0, [0, 0, 0, 0]),
        calling(3, 0, [0, 0, 0, 0]),
        calling(0, 0, [0, 0, 0, 0]),
    ]
}

#[test]
fn the_image_of_zeros_is_where_a_branch_calls_none(rt: HostRuntime) {
    let script = script();
    let mut column = [true; 5];
    Rules::held(4, &script, &[true; 4]).image(4, &[false; 4], &mut column);
    assert!(rt; column == [false, false, true, true, true]);
}

#[test]
fn calls_past_the_count_are_not_meant(rt: HostRuntime) {
    let held = [calling(0, 1, [1, 2, 2, 2])];
    let rules = Rules::held(1, &held, &[true]);
    assert!(rt; rules.image_at(&[false, true, false], 0));
    assert!(rt; !rules.image_at(&[true, false, true], 0));
}

#[test]
fn a_routine_past_the_values_is_worth_zero(rt: HostRuntime) {
    let script = script();
    let rules = Rules::held(4, &script, &[true; 4]);
    assert!(rt; !rules.image_at(&[false, true, true], 1));
    assert!(rt; rules.image_at(&[false, true, true, true], 1));
}

#[test]
fn a_branch_that_calls_two_has_a_slope_at_both(rt: HostRuntime) {
    let script = script();
    let rules = Rules::held(4, &script, &[true; 4]);
    let values = [false, false, true, true];
    assert!(rt; rules.slope_at(&values, 1, 2));
    assert!(rt; rules.slope_at(&values, 1, 3));
    assert!(rt; !rules.slope_at(&values, 1, 0));
    assert!(rt; !rules.slope_at(&values, 0, 1));
}

#[test]
fn the_slopes_fill_the_grid_and_leave_what_is_behind(rt: HostRuntime) {
    let held = [calling(0, 2, [1, 1, 0, 0]), calling(1, 0, [0, 0, 0, 0])];
    let mut grid = [true; 5];
    Rules::held(2, &held, &[true; 2]).slopes(2, &[false, true], &mut grid);
    assert!(rt; grid == [false, true, false, false, true]);
}

#[test]
fn only_a_fixed_point_solves(rt: HostRuntime) {
    let script = script();
    let rules = Rules::held(4, &script, &[true; 4]);
    assert!(rt; rules.solves(4, &[true; 4]));
    assert!(rt; !rules.solves(4, &[false, true, true, true]));
    assert!(rt; rules.solves(1, &[false, false, false, false]));
}
