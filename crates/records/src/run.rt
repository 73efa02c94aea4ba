// The run over a whole file.
ghost use Rattle.std.specs.Prelude.{◌≡◌};
ghost use Rattle.records.specs.Script.{script, verdict, Scanned};

use crate::reader::Reader;
use laws::Fault;

// How many records a file has, from the first to the end record, or why it is refused first.
#[tactic(auto, using(crate::proofs::Scripts::script_law, crate::proofs::Running::scanned))]
pub fn scan(src: &[u8]) -> Result<usize, Fault>
    ensures value { result ≡ verdict (script src.now 0) }
    ensures runs { Scanned src.now result }
{
    let mut reader = Reader::new(src);
    let mut count = 0;
    // no iterator: the reader refuses again after a refusal, so one would need a flag to end
    loop {
        let next = reader.read()?;
        count += 1;
        if next.is_end() {
            return Ok(count);
        }
    }
}
