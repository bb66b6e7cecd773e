// Why the reader refuses a file.
ghost use Rattle.std.specs.Prelude.{◌≡◌};
ghost use Rattle.script.specs.Refusal.{reader_number};

#[derive(Clone, Copy, PartialEq, Eq, Debug)]
pub enum ReaderRefusal {
    // The file has over 16,384 bytes.
    Size = 20,
    // The first line is not `routine seconds light turn calls` with its end.
    FirstLine = 21,
    // A line has no end, or not five words.
    Words = 22,
    // The name of a routine is not well formed.
    Name = 23,
    // A number is not well formed or out of range.
    Number = 24,
    // The calls are neither a minus sign nor one to four names.
    Calls = 25,
    // There are more than 32 different names so far.
    Names = 26,
}

impl ReaderRefusal {
    // Kept: one line for each list, which a trait or a `From` over the lists would have too.
    pub fn number(self) -> u8
        ensures { result ≡ reader_number self }
    {
        self as u8
    }
}
