// Every limit on both sides, by the number that a call gives: 0 where it accepts. Then a run with
// each kind and each solver.
ghost use Rattle.std.specs.Prelude.{◌≤◌};

use crate::refusal::Refusal;
use crate::{Draft, Script, Settled, Space, Work};
use kinds::weights::{Disc, Least, Light, Most};
use linear::closure::Closure;
use linear::elimination::Elimination;
use linear::solver::Solver;
use script::branch::Branch;
use script::fault::{Cause, Fault};
use script::place::Place;
use script::table::TableSource;
use script::weighing::Weighing;
use semiring::Equality;
use std::process::Abort;
use std::test::Fail;

fn number<T: Drop>(answer: Result<T, Refusal>) -> u8 {
    match answer {
        Ok(_) => 0,
        Err(refusal) => refusal.number(),
    }
}

// What a call that takes a sheet gives: the next sheet, or why there is none.
fn next<T, S: Drop>(answer: Result<T, (S, Refusal)>) -> Result<T, Refusal> {
    answer.map_err(|refused| refused.1)
}

// The sheet that a call hands back, with the call's number.
fn back<T: Drop, S>(answer: Result<T, (S, Refusal)>) -> Result<(S, u8), Fail> {
    match answer {
        Ok(_) => Err(Fail::new("accepted")),
        Err((sheet, refusal)) => Ok((sheet, refusal.number())),
    }
}

fn costing(seconds: u16, light: u16, turn: u8) -> Branch {
    Branch {
        routine: 0,
        count: 0,
        calls: [0; 4],
        seconds,
        light,
        turn,
    }
}

fn calling(routine: u8, count: u8, calls: [u8; 4]) -> Branch {
    Branch {
        routine,
        count,
        calls,
        ..costing(1, 1, 1)
    }
}

// Of two questions with the answer no the earlier one counts.
#[test]
fn branches_at_the_ends(rt: HostRuntime) {
    for (branch, expected) in [
        (calling(0, 4, [0, 1, 2, 3]), 0),
        (calling(0, 5, [0, 1, 2, 3]), 1),
        (calling(32, 5, [32; 4]), 1),
        (calling(31, 0, [32; 4]), 0),
        (calling(32, 0, [0; 4]), 2),
        (calling(0, 2, [0, 31, 32, 32]), 0),
        (calling(0, 2, [0, 32, 0, 0]), 2),
        (costing(3600, 0, 23), 0),
        (costing(3601, 0, 23), 3),
        (costing(3600, 0, 24), 3),
    ] {
        let found = Draft::new().enter(&branch, &mut [branch], &mut [Least::Never]);
        assert_eq!(rt; number(found), expected);
    }
}

#[test]
fn two_hundred_branches(rt: HostRuntime) -> Result<(), Fail> {
    let branch = costing(1, 1, 1);
    let mut draft = Draft::new();
    let mut branches = [branch; 201];
    let mut weights = [Least::Never; 201];
    for _ in 0..200u8 {
        draft.enter(&branch, &mut branches, &mut weights)?;
    }
    let found = [
        draft.enter(&branch, &mut branches, &mut weights),
        draft.strike(200, &mut branches, &mut weights),
        draft.strike(199, &mut branches, &mut weights),
        draft.enter(&branch, &mut branches, &mut weights),
    ];
    assert_eq!(rt; found.map(number), [4, 6, 0, 0]);
    Ok(())
}

// No slice is short.
const NONE: usize = 5;

// One place fewer for the slice that is short.
fn less(short: usize, slice: usize) -> usize
    ensures { result ≤ 1 }
{
    usize::from(short == slice)
}

// Slices 0 and 1, for three branches.
#[derive(Drop)]
struct Held<K> {
    branches: [Branch; 3],
    weights: [K; 3],
}

// Slices 2, 3 and 4, for two routines.
#[derive(Drop)]
struct Places<K> {
    values: [K; 2],
    column: [K; 2],
    grid: [K; 4],
}

impl<K: Weighing> Held<K> {
    fn new() -> Self {
        Held {
            branches: [costing(0, 0, 0); 3],
            weights: [K::zero(); 3],
        }
    }

    fn load(&mut self, records: &[Branch]) -> Result<Draft, Fault> {
        let mut draft = Draft::new();
        let mut source = TableSource::new(records);
        draft.load(&mut source, &mut self.branches, &mut self.weights)?;
        Ok(draft)
    }

    fn script(&self, short: usize) -> Script<'_, K> {
        Script {
            branches: &self.branches[..3 - less(short, 0)],
            weights: &self.weights[..3 - less(short, 1)],
        }
    }
}

impl<K: Weighing> Places<K> {
    fn new() -> Self {
        Places {
            values: [K::zero(); 2],
            column: [K::zero(); 2],
            grid: [K::zero(); 4],
        }
    }

    fn space(&mut self, short: usize) -> Space<'_, '_, '_, K> {
        let (values, column, grid) = (&mut self.values, &mut self.column, &mut self.grid);
        Space {
            values: &mut values[..2 - less(short, 2)],
            column: &mut column[..2 - less(short, 3)],
            grid: &mut grid[..4 - less(short, 4)],
        }
    }
}

fn closed<K: Weighing>(
    work: Work,
    held: &Held<K>,
    places: &Places<K>,
    short: usize,
) -> Result<Settled, (Work, Refusal)> {
    work.close(
        held.script(short),
        &places.values[..2 - less(short, 2)],
        &places.column[..2 - less(short, 3)],
        &places.grid[..4 - less(short, 4)],
    )
}

// Takes the records to work.
fn started<K: Weighing>(
    held: &mut Held<K>,
    places: &mut Places<K>,
    records: &[Branch],
) -> Result<Work, Fail> {
    let draft = held.load(records)?;
    let work = next(draft.start(held.script(NONE), &mut places.space(NONE)))?;
    Ok(work)
}

// Routine 0 calls 1 twice; 1 calls none, or itself.
fn example() -> [Branch; 3] {
    [
        Branch {
            count: 2,
            calls: [1, 1, 0, 0],
            ..costing(5, 900, 1)
        },
        Branch {
            routine: 1,
            ..costing(4, 700, 2)
        },
        Branch {
            routine: 1,
            count: 1,
            calls: [1, 0, 0, 0],
            ..costing(3, 800, 6)
        },
    ]
}

#[test]
fn a_draft_with_a_slice_one_too_short(rt: HostRuntime) -> Result<(), Fail> {
    let branch = costing(1, 1, 1);
    for (short, expected) in [(0, [5, 4]), (1, [5, 4]), (NONE, [0, 0])] {
        let mut held = Held::<Least>::new();
        let mut draft = held.load(&[branch; 2])?;
        let (branches, weights) = (3 - less(short, 0), 3 - less(short, 1));
        let found = [
            draft.strike(
                0,
                &mut held.branches[..branches - 1],
                &mut held.weights[..weights - 1],
            ),
            draft.enter(
                &branch,
                &mut held.branches[..branches],
                &mut held.weights[..weights],
            ),
        ];
        assert_eq!(rt; found.map(number), expected);
    }
    Ok(())
}

#[test]
fn work_with_a_slice_one_too_short(rt: HostRuntime) -> Result<(), Fail> {
    let mut solver = Elimination::new();
    for short in 0..NONE {
        let mut held = Held::<Least>::new();
        let mut places = Places::new();
        let draft = held.load(&example())?;
        let script = held.script(short);
        let (draft, from_start) = back(draft.start(script, &mut places.space(short)))?;
        let work = next(draft.start(held.script(NONE), &mut places.space(NONE)))?;
        let (mut work, from_close) = back(closed(work, &held, &places, short))?;
        let mut space = places.space(short);
        let from_climb = number(work.climb(script, &mut space));
        let from_round = number(work.round(&mut solver, script, &mut space));
        let (_, from_settle) = back(work.settle(&mut solver, script, &mut space))?;
        assert_eq!(rt;
            [from_start, from_close, from_climb, from_round, from_settle],
            [5; 5]
        );
    }
    assert_eq!(rt; solver.count(), 0);
    Ok(())
}

#[test]
fn held_branches_that_are_no_longer_sound(rt: HostRuntime) -> Result<(), Fail> {
    for (branch, expected) in [
        (calling(1, 4, [1; 4]), 0),
        (calling(1, 5, [1; 4]), 7),
        (calling(2, 0, [2; 4]), 7),
        (calling(1, 2, [0, 1, 2, 2]), 0),
        (calling(1, 2, [0, 2, 0, 0]), 7),
    ] {
        let mut held = Held::<Light>::new();
        let draft = held.load(&example())?;
        held.branches[2] = branch;
        let answer = draft.start(held.script(NONE), &mut Places::new().space(NONE));
        assert_eq!(rt; number(next(answer)), expected);
    }
    Ok(())
}

#[test]
fn solved_and_unsolved(rt: HostRuntime) -> Result<(), Fail> {
    let mut solver = Closure::new();
    let mut held = Held::<Least>::new();
    let mut places = Places::new();
    let work = started(&mut held, &mut places, &example())?;
    let script = held.script(NONE);
    let (mut work, unsolved) = back(closed(work, &held, &places, NONE))?;
    let found = [
        work.climb(script, &mut places.space(NONE)),
        work.climb(script, &mut places.space(NONE)),
        work.round(&mut solver, script, &mut places.space(NONE)),
    ];
    assert_eq!(rt; unsolved, 10);
    assert_eq!(rt; found.map(number), [0, 8, 8]);
    let settled = next(closed(work, &held, &places, NONE))?;
    let figures = [
        settled.figure(&places.values, 1),
        settled.figure(&places.values, 2),
        settled.figure(&places.values[..1], 0),
    ];
    assert_eq!(rt; figures.map(number), [0, 11, 5]);
    assert_eq!(rt; [settled.rounds(), solver.count() as usize], [0, 0]);
    Ok(())
}

// n rounds are enough from the values that start gives; other values need not be solved by them.
#[test]
fn no_round_is_left(rt: HostRuntime) -> Result<(), Fail> {
    let mut solver = Elimination::new();
    let mut held = Held::<Least>::new();
    let mut places = Places::new();
    let work = started(&mut held, &mut places, &[calling(0, 1, [0; 4])])?;
    places.values = [Least::after(5); 2];
    let script = held.script(NONE);
    let (mut work, from_settle) = back(work.settle(&mut solver, script, &mut places.space(NONE)))?;
    let from_round = number(work.round(&mut solver, script, &mut places.space(NONE)));
    assert_eq!(rt; [from_settle, from_round], [9, 9]);
    assert_eq!(rt; places.values, [Least::after(6), Least::after(5)]);
    assert_eq!(rt; [work.rounds(), solver.count() as usize], [1, 1]);
    Ok(())
}

#[test]
fn a_table_with_a_refused_branch(rt: HostRuntime) -> Result<(), Fail> {
    let mut draft = Draft::new();
    let mut held = Held::<Most>::new();
    let records = [costing(3600, 1, 1), costing(3601, 1, 1)];
    let loaded = draft.load(
        &mut TableSource::new(&records),
        &mut held.branches,
        &mut held.weights,
    );
    let fault = Fault {
        cause: Cause::Sheet(Refusal::Range),
        place: Place { line: 2, byte: 0 },
    };
    assert_eq!(rt; loaded, Err(fault));
    let found = [
        draft.strike(0, &mut held.branches, &mut held.weights),
        draft.strike(0, &mut held.branches, &mut held.weights),
    ];
    assert_eq!(rt; found.map(number), [0, 6]);
    Ok(())
}

// Settles the example, and reads the figures of both routines.
fn settles<K: Weighing + Equality, S: Solver>(
    rt: &impl Abort,
    solver: &mut S,
    held: &mut Held<K>,
    places: &mut Places<K>,
    figures: [K; 2],
) -> Result<(), Fail> {
    let work = started(held, places, &example())?;
    let settled = next(work.settle(solver, held.script(NONE), &mut places.space(NONE)))?;
    let found = [
        settled.figure(&places.values, 0)?,
        settled.figure(&places.values, 1)?,
    ];
    assert!(rt; found == figures);
    assert_eq!(rt; settled.rounds(), 1);
    Ok(())
}

// Settles the example with each kind, by one call of the solver each.
fn settles_with_each_kind<S: Solver>(rt: &impl Abort, solver: &mut S) -> Result<(), Fail> {
    let least = [Least::after(13), Least::after(4)];
    settles(rt, solver, &mut Held::new(), &mut Places::new(), least)?;
    let most = [Most::after(65535); 2];
    settles(rt, solver, &mut Held::new(), &mut Places::new(), most)?;
    let light = [Light::of(700); 2];
    settles(rt, solver, &mut Held::new(), &mut Places::new(), light)?;
    let disc = [Disc { bits: 0x820820 }, Disc { bits: 0x104104 }];
    settles(rt, solver, &mut Held::new(), &mut Places::new(), disc)?;
    assert_eq!(rt; solver.count(), 4);
    Ok(())
}

#[test]
fn by_elimination(rt: HostRuntime) -> Result<(), Fail> {
    settles_with_each_kind(&rt, &mut Elimination::new())
}

#[test]
fn by_closure(rt: HostRuntime) -> Result<(), Fail> {
    settles_with_each_kind(&rt, &mut Closure::new())
}
