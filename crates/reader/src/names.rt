// The names of routines, numbered from 0 as first met.
ghost use Rattle.std.specs.Prelude.{◌≤◌};
ghost use Rattle.arrayvec.specs.ArrayVec.{array_vec_len};

use arrayvec::ArrayVec;

// The names met so far, by number. Each is a slice of the text.
#[derive(Drop)]
pub(crate) struct Names<'a> {
    met: ArrayVec<&'a [u8], 32>,
    ghost few: { array_vec_len met ≤ 32 },
}

mod table;
