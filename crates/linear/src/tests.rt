// Both solvers on small systems over the smallest kind, the truth values.
use crate::agreement::solve_twice;
use crate::closure::Closure;
use crate::elimination::Elimination;
use crate::refusal::Refusal;
use crate::solver::Solver;
use std::process::Abort;
use std::test::Fail;

// The call was refused with number 12.
fn refused(rt: &impl Abort, answer: Result<(), Refusal>) -> Result<(), Fail> {
    let Err(refusal) = answer else {
        return Err(Fail::new("accepted"));
    };
    assert_eq!(rt; refusal.number(), 12);
    Ok(())
}

#[test]
fn no_unknowns(rt: HostRuntime) -> Result<(), Fail> {
    let mut solver = Closure::new();
    solver.solve::<bool>(0, &mut [], &mut [])?;
    assert_eq!(rt; solver.count(), 1);
    Ok(())
}

// x = x has the least solution false.
#[test]
fn one_unknown(rt: HostRuntime) -> Result<(), Fail> {
    let mut column = [false];
    Elimination::new().solve(1, &mut [true], &mut column)?;
    assert_eq!(rt; column, [false]);
    Ok(())
}

// The first unknown is the second, which is true.
#[test]
fn two_unknowns(rt: HostRuntime) -> Result<(), Fail> {
    let mut column = [false, true];
    let mut second = [false, true];
    solve_twice(
        &mut Elimination::new(),
        &mut Closure::new(),
        2,
        &mut [false, true, false, false],
        &mut column,
        &mut [false, true, false, false],
        &mut second,
    )?;
    assert_eq!(rt; column, [true, true]);
    assert_eq!(rt; second, [true, true]);
    Ok(())
}

// The last unknown is the first, which is true.
#[test]
fn thirty_two_unknowns(rt: HostRuntime) -> Result<(), Fail> {
    let mut grid = [false; 1024];
    grid[992] = true;
    let mut column = [false; 32];
    column[0] = true;
    Elimination::new().solve(32, &mut grid, &mut column)?;
    assert_eq!(rt; column[31], true);
    assert_eq!(rt; column[30], false);
    Ok(())
}

#[test]
fn thirty_three_unknowns_are_refused(rt: HostRuntime) -> Result<(), Fail> {
    let mut solver = Closure::new();
    refused(&rt, solver.solve(33, &mut [false; 1089], &mut [false; 33]))?;
    assert_eq!(rt; solver.count(), 0);
    Ok(())
}

#[test]
fn short_slices_are_refused(rt: HostRuntime) -> Result<(), Fail> {
    let mut solver = Elimination::new();
    let mut column = [true, false];
    refused(&rt, solver.solve(2, &mut [true; 3], &mut column))?;
    refused(&rt, solver.solve(2, &mut [true; 4], &mut [true]))?;
    assert_eq!(rt; column, [true, false]);
    assert_eq!(rt; solver.count(), 0);
    Ok(())
}

#[test]
fn what_lies_past_the_system_stays(rt: HostRuntime) -> Result<(), Fail> {
    let mut grid = [false, true, false];
    let mut column = [false, true, false];
    Closure::new().solve(1, &mut grid, &mut column)?;
    assert_eq!(rt; column, [false, true, false]);
    assert_eq!(rt; [grid[1], grid[2]], [true, false]);
    Ok(())
}

#[test]
fn the_count_stays_at_its_top(rt: HostRuntime) -> Result<(), Fail> {
    let mut solver = Closure::counting_from(4_294_967_294);
    solver.solve(1, &mut [true], &mut [true])?;
    assert_eq!(rt; solver.count(), 4_294_967_295);
    solver.solve(1, &mut [true], &mut [true])?;
    assert_eq!(rt; solver.count(), 4_294_967_295);
    Ok(())
}
