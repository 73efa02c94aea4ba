// One record of a sheet file.
ghost use Rattle.std.specs.Prelude.{◌≡◌};
ghost use Rattle.records.specs.Entries.{entry_of, is_end};

// What a record says. A clause's codes are a part of the input, two bytes each, and begin there at `offset`.
#[derive(Clone, Copy, Debug)]
pub enum Record<'a> {
    // the last choice
    Header(u8),
    Clause { codes: &'a [u8], offset: usize },
    // a literal that must be true
    Pin(u16),
    End,
}

impl Record<'_> {
    // It is the end record, behind which nothing comes.
    pub fn is_end(&self) -> bool
        ensures { result ≡ is_end (entry_of self.now) }
    {
        matches!(self, Record::End)
    }
}
