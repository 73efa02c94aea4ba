// Reading the next record: the checks in their order.
ghost use Rattle.std.specs.Prelude.{◌≡◌, ◌≤◌, length, IfOk};
ghost use Rattle.laws.specs.Faults.{file_fault};
ghost use Rattle.laws.specs.Numbers.{check_number};
ghost use Rattle.records.specs.Reading.{read_at, stands, reading_of, record_reading};

use crate::reader::Reader;
use crate::record::Record;
use crate::tag::Tag;
use laws::{Check, Fault, Layer};

// The most bytes that a file may have.
const LONGEST: usize = 65535;

impl<'a> Reader<'a> {
    // The next record, or why there is none. A refusal leaves the reader where it stands.
    pub fn read(&mut self) -> Result<Record<'a>, Fault>
        ensures came { reading_of result self.new.pos ≡ read_at self.old.src.now self.old.pos }
        ensures position { self.new.pos ≡ stands (read_at self.old.src.now self.old.pos) self.old.pos }
        ensures same { self.new.src.now ≡ self.old.src.now }
    {
        let (record, next) = record_at(self.src, self.pos)?;
        self.pos = next;
        Ok(record)
    }
}

// The record at an offset, and the offset behind it, or the first check that fails there.
fn record_at<'a>(src: &'a [u8], at: usize) -> Result<(Record<'a>, usize), Fault>
    requires { at ≤ length src.now }
    ensures came { record_reading result ≡ read_at src.now at }
    ensures inside { IfOk result (λ r. r.1 ≤ length src.now) }
{
    if src.len() > LONGEST {
        return Err(refusal(Check::FileSize, 0));
    }
    let [tag, high, low, rest @ ..] = &src[at..] else {
        return Err(refusal(Check::RecordWhole, at));
    };
    let size = usize::from(u16::from_be_bytes([*high, *low]));
    if rest.len() < size {
        return Err(refusal(Check::RecordWhole, at));
    }
    let tag = Tag::try_from(*tag).map_err(|check| refusal(check, at))?;
    if (tag == Tag::Header) != (at == 0) {
        return Err(refusal(Check::HeaderFirst, at));
    }
    if !tag.fits(size) {
        return Err(refusal(Check::RecordLength, at));
    }
    if tag == Tag::End && rest.len() > size {
        return Err(refusal(Check::EndLast, at));
    }
    Ok((tag.record(&rest[..size], at + 3), at + 3 + size))
}

// The fault of a file's check at a record's offset.
fn refusal(check: Check, offset: usize) -> Fault
    requires { offset ≤ 65535 }
    ensures { result ≡ file_fault (check_number check) offset }
{
    Fault {
        offset: offset as u16,
        ..Fault::new(Layer::File, check)
    }
}
