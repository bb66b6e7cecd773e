// What can be asked of the names met so far.
ghost use Rattle.std.specs.Prelude.{◌≡◌, ◌<◌, ◌≤◌, [], length, take, MatchOption, slice_index_or};
ghost use Rattle.std.specs.List.{position};
ghost use Rattle.std.specs.Str.{bytes_eq};
ghost use Rattle.reader.specs.Known.{known, Numbered};

use super::Names;
use arrayvec::ArrayVec;

impl<'a> Names<'a> {
    pub(crate) fn none() -> Names<'a>
        ensures { known result ≡ [] }
    {
        Names {
            met: ArrayVec::new(),
        }
    }

    // How many names have been met.
    pub(crate) fn count(&self) -> usize
        ensures { result ≡ length (known self.now) }
    {
        self.met.len()
    }

    // The place of a name among those met.
    fn place(&self, word: &[u8]) -> Option<usize>
        ensures { result ≡ position (λ name. bytes_eq name.now word.now) self.now.met.items }
    {
        self.met.iter().position(|name| *name == word)
    }

    // The number of a name, which is met now; none where 32 others have been met already.
    pub(crate) fn number(&mut self, word: &'a [u8]) -> Option<u8>
        ensures { Numbered (known self.old) word.now result (known self.new) }
    {
        if let Some(place) = self.place(word) {
            return Some(place as u8);
        }
        let place = self.met.len();
        if self.met.is_full() {
            return None;
        }
        self.met.push(word);
        Some(place as u8)
    }

    // The name with this number.
    pub(crate) fn name(&self, number: usize) -> Option<&'a [u8]>
        ensures { MatchOption result (length (known self.now) ≤ number)
            (λ n. (number < length (known self.now))
            × (n.now ≡ slice_index_or (known self.now) number [])) }
    {
        self.met.get(number).copied()
    }

    // Forgets the names behind the first so many.
    pub(crate) fn truncate(&mut self, count: usize)
        ensures { known self.new ≡ take count (known self.old) }
    {
        self.met.truncate(count);
    }
}
