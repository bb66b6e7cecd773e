// The public functions at the smallest kind, the truth values.
use crate::{lies_under, solve_one, total};

#[test]
fn false_lies_under_true(rt: HostRuntime) {
    assert!(rt; lies_under(false, true));
    assert!(rt; !lies_under(true, false));
}

#[test]
fn one_true_weight_makes_the_sum_true(rt: HostRuntime) {
    assert!(rt; total(&[false, true, false]));
    assert!(rt; !total(&[false, false]));
}

#[test]
fn the_least_solution_is_the_constant_part(rt: HostRuntime) {
    assert!(rt; solve_one(true, true));
    assert!(rt; !solve_one(true, false));
}
