// What is proved of the reader as a whole, on a function of its own, as in `laws`: the clause is no type parameter.
ghost use Rattle.records.specs.Standing.{ReaderStands};

// The laws of reading: exact bytes, the first failing check, one run for each file.
pub fn reader_stands() -> u8
    ensures { ReaderStands }
{
    0
}
