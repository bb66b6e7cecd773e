// The calls of a draft.
// Kept: branches and weights are two slices to write in, not one value: whether both have room is a
// question of each call, and a struct of two `&mut` would add a clause on what it lends to each.
ghost use Rattle.std.specs.Prelude.{◌≡◌, ◌<◌, ◌≤◌, ◌↔◌, [], length, None, OnOk, IsTrue};
ghost use Rattle.newton.specs.Loading.{Taken, Loads};
ghost use Rattle.std.specs.List.{AllByRecursion};
ghost use Rattle.newton.specs.Questions.{Asked};
ghost use Rattle.newton.specs.Drafting.{named, above, enter_questions, Entered, strike_questions, shifted, Struck};

use super::{Draft, Size};
use crate::refusal::Refusal;
use script::branch::{Branch, Placed};
use script::fault::{Cause, Fault};
use script::source::Source;
use script::weighing::Weighing;
use semiring::Semiring;

// Whether every number lies below a bound.
fn all_below(numbers: &[u8], top: u8) -> bool
    ensures { IsTrue result ↔ AllByRecursion (λ m. m < top) numbers.now }
{
    numbers.iter().all(|number| *number < top)
}

// Whether a branch names only routines below a bound.
pub(super) fn names_below(branch: &Branch, top: u8) -> bool
    ensures { IsTrue result ↔ AllByRecursion (λ m. m < top) (named branch.now) }
{
    branch.routine < top && all_below(branch.counted_calls(), top)
}

// One more than the largest of the numbers, or n where that is larger.
fn raised(n: usize, numbers: &[u8]) -> usize
    ensures { result ≡ above n numbers.now }
{
    numbers
        .iter()
        .fold(n, |top, number| top.max(usize::from(*number) + 1))
}

// Moves what stands behind a place, up to the last one, down one place.
fn move_down<T: Copy>(items: &mut [T], at: usize, last: usize)
    requires order { at ≤ last }
    requires room { last < length items.old }
    ensures { items.new ≡ shifted at last items.old }
{
    items.copy_within(at + 1..last + 1, at);
}

impl Draft {
    pub fn new() -> Draft
        ensures n { result.size.n ≡ 0 }
        ensures held { result.size.held ≡ 0 }
    {
        let size = Size { n: 0, held: 0 };
        Draft { size }
    }

    // The questions of enter, in order.
    fn may_enter<W: Weighing>(
        &self,
        branch: &Branch,
        branches: &[Branch],
        weights: &[W],
    ) -> Result<(), Refusal>
        ensures { Asked (enter_questions self.now branch.now branches.now weights.now) result }
    {
        if branch.count > 4 {
            return Err(Refusal::Calls);
        }
        if !names_below(branch, 32) {
            return Err(Refusal::Routines);
        }
        if branch.seconds > 3600 || branch.turn > 23 {
            return Err(Refusal::Range);
        }
        let held = self.size.held;
        if held >= 200 || held >= branches.len() || held >= weights.len() {
            return Err(Refusal::Room);
        }
        Ok(())
    }

    // Puts a branch, and what it weighs, behind the held ones.
    pub fn enter<W: Weighing>(
        &mut self,
        branch: &Branch,
        branches: &mut [Branch],
        weights: &mut [W],
    ) -> Result<(), Refusal>
        ensures { Entered W.Weighing.weight
            self.old branch.now branches.old weights.old
            self.new branches.new weights.new
            result }
    {
        self.may_enter(branch, branches, weights)?;
        let Size { n, held, .. } = self.size;
        branches[held] = *branch;
        weights[held] = W::weigh(branch);
        self.size = Size {
            n: raised(raised(n, &[branch.routine]), branch.counted_calls()),
            held: held + 1,
        };
        Ok(())
    }

    // The questions of strike, in order.
    fn may_strike<W: Semiring>(
        &self,
        place: usize,
        branches: &[Branch],
        weights: &[W],
    ) -> Result<(), Refusal>
        ensures { Asked (strike_questions self.now place branches.now weights.now) result }
    {
        let held = self.size.held;
        if branches.len() < held || weights.len() < held {
            return Err(Refusal::Slices);
        }
        if place >= held {
            return Err(Refusal::Place);
        }
        Ok(())
    }

    // Takes the branch at a place out, and its weight: the later ones move down one place.
    pub fn strike<W: Semiring>(
        &mut self,
        place: usize,
        branches: &mut [Branch],
        weights: &mut [W],
    ) -> Result<(), Refusal>
        ensures { Struck
            self.old place branches.old weights.old
            self.new branches.new weights.new
            result }
    {
        self.may_strike(place, branches, weights)?;
        let last = self.size.held - 1;
        move_down(branches, place, last);
        move_down(weights, place, last);
        self.size.held = last;
        Ok(())
    }

    // Enters a branch with its place.
    fn take_in<W: Weighing>(
        &mut self,
        item: &Placed,
        branches: &mut [Branch],
        weights: &mut [W],
    ) -> Result<(), Fault>
        ensures { Taken W.Weighing.weight
            item.now self.old branches.old weights.old
            self.new branches.new weights.new
            result }
    {
        self.enter(&item.branch, branches, weights)
            .map_err(|refusal| Fault {
                cause: Cause::Sheet(refusal),
                place: item.place,
            })
    }

    // Enters the branches of a source, one after the other.
    pub fn load<W: Weighing, S: Source>(
        &mut self,
        source: &mut S,
        branches: &mut [Branch],
        weights: &mut [W],
    ) -> Result<(), Fault>
        ensures loads { let feed = S.Source.feed source.old in
            Loads W.Weighing.weight feed.items feed.ending
            self.old branches.old weights.old
            self.new branches.new weights.new
            result }
        ensures used { OnOk result
            (S.Source.feed source.new ≡ record { items = []; ending = None }) }
        ensures legend { S.Source.legend source.new ≡ S.Source.legend source.old }
    {
        while let Some(item) = source.next()? {
            self.take_in(&item, branches, weights)?;
        }
        Ok(())
    }
}
