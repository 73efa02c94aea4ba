// The answer record: what a solver found, as bytes.
//
// A record is a tag of one byte, a length of two bytes and a body of that length; numbers have their high byte first.
// A plan's body is four bytes of work, then the plan; where there is no plan, four bytes of work; a refusal's is the
// fault's five numbers.
ghost use Rattle.std.specs.Prelude.{◌≡◌, ◌+◌, ◌<◌, ◌≤◌, ◌++◌, length, take, IfOk, IfErr, Some, None, Ok};
ghost use Rattle.laws.specs.Lists.{or_else};
ghost use Rattle.records.specs.AnswerLaws.{AnswerLaws, FaultFits, OutcomeFits};
ghost use Rattle.records.specs.Answers.{answer_of, means, decode, encode, over, fault_in, in_fault, stray, flaw_of, unwritable, refusing, written, fitted, left_by};
ghost use Rattle.records.specs.Bytes.{framed};
ghost use Rattle.records.specs.Kinds.{kind_number};
ghost use Rattle.records.specs.declared.answer.WriteError.TheVariants.{Memory};

mod kind;

use kind::Kind;
use laws::Fault;
use std::alloc::{AllocError, Global};
use std::cmp::Ordering;
use std::error::Error;
use std::fmt;

// A record's bytes before its body: the tag and the length.
const HEAD: usize = 3;

// The bytes of a work count.
const WORK: usize = 4;

// The bytes of a fault.
const FAULT: usize = 7;

// The most choices that a plan has.
const CHOICES: usize = 256;

// What a solver answered. A plan's bytes are lent: one for each choice, 1 for taken and 0 for left out.
#[derive(Clone, Copy, PartialEq, Eq, Debug)]
pub enum Answer<'a> {
    Plan { work: u32, plan: &'a [u8] },
    NoPlan { work: u32 },
    Refusal(Fault),
}

// Why bytes are not a record.
#[derive(Clone, Copy, PartialEq, Eq, Debug)]
pub enum AnswerError {
    // fewer bytes than the head and the body need
    Cut,
    // an unknown tag
    Tag(u8),
    // a length that does not fit the tag
    Length(u16),
    // bytes stand behind the record
    Trailing,
    // where in the plan the first byte stands that is neither 0 nor 1
    PlanByte(usize),
}

// Why an answer was not written.
#[derive(Clone, Copy, PartialEq, Eq, Debug)]
pub enum WriteError {
    // the plan's length, which is not 1 to 256
    PlanLength(usize),
    // where in the plan the first byte stands that is neither 0 nor 1
    PlanByte(usize),
    // how many bytes the record needs, where the buffer has fewer
    Buffer(usize),
    // no memory for the record
    Memory,
}

impl fmt::Display for AnswerError {
    fn fmt<W: fmt::Write>(&self, f: &mut fmt::Formatter<W>) -> fmt::Result {
        match self {
            AnswerError::Cut => write!(f, "the record ends early"),
            AnswerError::Tag(tag) => write!(f, "unknown tag {tag} ({tag:#04x})"),
            AnswerError::Length(size) => write!(f, "a length of {size} does not fit its tag"),
            AnswerError::Trailing => write!(f, "bytes stand behind the record"),
            AnswerError::PlanByte(i) => write!(f, "byte {i} of the plan is neither 0 nor 1"),
        }
    }
}

impl Error for AnswerError {}

impl fmt::Display for WriteError {
    fn fmt<W: fmt::Write>(&self, f: &mut fmt::Formatter<W>) -> fmt::Result {
        match self {
            WriteError::PlanLength(n) => write!(
                f,
                "a plan of {n} bytes, where 1 to 256 are wanted"
            ),
            WriteError::PlanByte(i) => write!(f, "byte {i} of the plan is neither 0 nor 1"),
            WriteError::Buffer(n) => write!(f, "the buffer is too short: the record has {n} bytes"),
            WriteError::Memory => write!(f, "no memory for the record"),
        }
    }
}

impl Error for WriteError {}

impl From<AllocError> for WriteError {
    ghost from_gives = { λ _ r. r ≡ Memory };

    fn from(_e: AllocError) -> WriteError {
        WriteError::Memory
    }
}

impl<'a> Answer<'a> {
    // The answer that a record stands for. A plan's bytes are lent from the record's.
    pub fn read(src: &'a [u8]) -> Result<Answer<'a>, AnswerError>
        ensures value { means result ≡ decode src.now }
    {
        let [tag, high, low, body @ ..] = src else {
            return Err(AnswerError::Cut);
        };
        let kind = Kind::try_from(*tag)?;
        let size = u16::from_be_bytes([*high, *low]);
        kind.check_length(size)?;
        match body.len().cmp(&usize::from(size)) {
            Ordering::Less => Err(AnswerError::Cut),
            Ordering::Greater => Err(AnswerError::Trailing),
            Ordering::Equal => kind.read_body(body),
        }
    }

    // How many bytes the record has, or why the answer has none.
    pub fn record_len(&self) -> Result<usize, WriteError>
        ensures value { result ≡ refusing (unwritable (answer_of self.now)) (length (encode (answer_of self.now))) }
        ensures bound { IfOk result (λ n. n ≤ 263) }
    {
        match self {
            Answer::Plan { plan, .. } => {
                check_plan(plan)?;
                Ok(HEAD + WORK + plan.len())
            }
            Answer::NoPlan { .. } => Ok(HEAD + WORK),
            Answer::Refusal(_) => Ok(HEAD + FAULT),
        }
    }

    // Writes the record at the front of a buffer, and answers its length; all other bytes stay, and all bytes where it
    // refuses.
    pub fn write(&self, out: &mut [u8]) -> Result<usize, WriteError>
        ensures value { result ≡ written (answer_of self.now) (length out.old) }
        ensures after { out.new ≡ left_by result (answer_of self.now) out.old }
        ensures back { IfOk result (λ n. decode (take n out.new) ≡ Ok (answer_of self.now)) }
        ensures fits { OutcomeFits (answer_of self.now) }
    {
        match self {
            Answer::Plan { work, plan } => {
                let work = work.to_be_bytes();
                check_plan(plan)?;
                put_record(out, Kind::Plan, &work, plan)
            }
            Answer::NoPlan { work } => put_record(out, Kind::NoPlan, &work.to_be_bytes(), &[]),
            Answer::Refusal(fault) => put_record(out, Kind::Refusal, &fault_bytes(fault), &[]),
        }
    }

    // The record's bytes.
    pub fn to_vec(&self, heap: Global) -> Result<Vec<u8>, WriteError>
        ensures made { IfOk result (λ v. (unwritable (answer_of self.now) ≡ None) × (v.items ≡ encode (answer_of self.now))) }
        ensures refused { IfErr result (λ e. or_else (unwritable (answer_of self.now)) (Some Memory) ≡ Some e) }
        ensures back { IfOk result (λ v. decode v.items ≡ Ok (answer_of self.now)) }
    {
        let size = self.record_len()?;
        let mut bytes = vec![in heap; 0; size]?;
        self.write(&mut bytes)?;
        Ok(bytes)
    }
}

// The fault that seven bytes stand for. No `From` for this and `fault_bytes`: between a fault and bytes it could stand
// only in `laws`, which knows no file.
fn read_fault(bytes: [u8; FAULT]) -> Fault
    ensures value { result ≡ fault_in bytes }
{
    let [layer, depth, number, p, q, x, y] = bytes;
    Fault {
        layer,
        depth,
        number,
        place: u16::from_be_bytes([p, q]),
        offset: u16::from_be_bytes([x, y]),
    }
}

// Where in the plan the first byte stands that is neither 0 nor 1.
fn stray_byte(plan: &[u8]) -> Option<usize>
    ensures value { result ≡ stray plan.now }
{
    plan.iter().position(|b| *b > 1)
}

// Refuses a plan that has not 1 to 256 bytes, each 0 or 1.
fn check_plan(plan: &[u8]) -> Result<(), WriteError>
    ensures value { result ≡ refusing (flaw_of plan.now) tt }
{
    if !(1..=CHOICES).contains(&plan.len()) {
        return Err(WriteError::PlanLength(plan.len()));
    }
    stray_byte(plan).map_or(Ok(()), |i| Err(WriteError::PlanByte(i)))
}

// A fault's five numbers as bytes.
fn fault_bytes(fault: &Fault) -> [u8; FAULT]
    ensures value { result ≡ in_fault fault.now }
    ensures fits { FaultFits fault.now }
{
    let Fault {
        layer,
        depth,
        number,
        place,
        offset,
    } = fault;
    let [p, q] = place.to_be_bytes();
    let [x, y] = offset.to_be_bytes();
    [*layer, *depth, *number, p, q, x, y]
}

// Writes a record at the front of a buffer, if it fits, and answers its length; its body comes in two parts.
fn put_record(out: &mut [u8], kind: Kind, first: &[u8], rest: &[u8]) -> Result<usize, WriteError>
    requires { length first.now + length rest.now < 65536 }
    ensures value { result ≡ fitted (framed (kind_number kind) (first.now ++ rest.now)) (length out.old) }
    ensures after { IfOk result (λ n. out.new ≡ over out.old 0 (framed (kind_number kind) (first.now ++ rest.now))) }
    ensures same { IfErr result (λ e. out.new ≡ out.old) }
{
    let body = first.len() + rest.len();
    let size = HEAD + body;
    if out.len() < size {
        return Err(WriteError::Buffer(size));
    }
    let [high, low] = (body as u16).to_be_bytes();
    out[..HEAD].copy_from_slice(&[kind as u8, high, low]);
    out[HEAD..HEAD + first.len()].copy_from_slice(first);
    out[HEAD + first.len()..size].copy_from_slice(rest);
    Ok(size)
}

// What holds of records: what is written is read back as the same answer, and what is accepted is what would be written. A
// function for this law alone, as in `laws`: the clause is no type parameter.
pub fn answers_stand() -> u8
    ensures { AnswerLaws }
{
    0
}
