// The table source: the records of a lent slice, in order.
ghost use Rattle.std.specs.Prelude.{◌+◌, ◌^◌, ◌<◌, length};

use crate::branch::Branch;

#[derive(Drop)]
pub struct TableSource<'a> {
    // What has not been given yet, and how many records have.
    rest: &'a [Branch],
    given: usize,
    ghost fits: { given + length rest.now < 2 ^ 64 },
}

mod feed;
