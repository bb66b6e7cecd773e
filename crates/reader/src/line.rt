// The parts of one line of a script file.

use arrayvec::ArrayVec;

// The five words of a line.
#[derive(Clone, Copy)]
pub(crate) struct Row<'a> {
    pub name: &'a [u8],
    pub seconds: &'a [u8],
    pub light: &'a [u8],
    pub turn: &'a [u8],
    pub calls: &'a [u8],
}

// The calls of a branch, by number.
pub(crate) type Calls = ArrayVec<u8, 4>;

mod read;

pub(crate) use read::{fault_at, read_line};
