// From the bytes of a sheet file to the hour.
ghost use Rattle.std.specs.Prelude.{◌≡◌};
ghost use Rattle.records.specs.Entries.{entry_of};
ghost use Rattle.verdict.specs.Hours.{asked_of, nothing};
ghost use Rattle.verdict.specs.Loading.{Fed, ReadAs};
ghost use Rattle.verdict.specs.Offsets.{offset_by};

use crate::hour::Hour;
use laws::Fault;
use records::{Reader, Record, codes};
use std::alloc::Global;
use table::{Error, Table};

impl Hour {
    // An hour of the choices 0 to `last` without clauses and pins.
    fn new(heap: Global, last: u8) -> Hour
        ensures { asked_of result ≡ nothing last }
    {
        Hour {
            clauses: Table::new(heap, last),
            pins: Table::new(heap, last),
        }
    }

    // Reads a sheet file from its first record to its end. The first refusal ends it.
    pub fn load(heap: Global, src: &[u8]) -> Result<Hour, Error>
        ensures { ReadAs src.now result }
    {
        let mut reader = Reader::new(src);
        let mut hour = Hour::new(heap, 0);
        // no iterator: the reader refuses again after a refusal, so one would need a flag to end
        loop {
            let at = reader.position();
            let got = reader.read()?;
            if got.is_end() {
                return Ok(hour);
            }
            hour.feed(heap, got, at as u16)?;
        }
    }

    // Takes what the record at an offset says.
    fn feed(&mut self, heap: Global, got: Record, at: u16) -> Result<(), Error>
        ensures { Fed (asked_of self.old) at (entry_of got.entry) result (asked_of self.new) }
    {
        match got {
            Record::Header(last) => *self = Hour::new(heap, last),
            Record::Clause { codes: bytes, .. } => {
                let list = codes(heap, bytes)?;
                self.clauses
                    .add(list.as_slice())
                    .map_err(|e| placed(e, at))?;
            }
            Record::Pin(code) => self.pins.add(&[code]).map_err(|e| placed(e, at))?,
            Record::End => {}
        }
        Ok(())
    }
}

// The same error; a refusal is one of the record at an offset. No function of `table` that takes the change of the fault: it
// would be public, and have a `requires` for the closure.
fn placed(e: Error, at: u16) -> Error
    ensures { result ≡ offset_by at e }
{
    match e {
        Error::Refused(f) => Error::Refused(Fault { offset: at, ..f }),
        Error::Memory => Error::Memory,
    }
}
