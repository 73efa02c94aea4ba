// Answer records: each kind written and read back, cut, and broken in each way.
use laws::Fault;
use records::{Answer, AnswerError, WriteError};
use std::test::Fail;

// By number, since an answer record may carry any.
const FAULT: Fault = Fault {
    layer: 3,
    depth: 2,
    number: 42,
    place: 17,
    offset: 513,
};

#[test]
fn what_is_written_reads_back(rt: HostRuntime) -> Result<(), Fail> {
    let plan = Answer::Plan {
        work: 0x01020304,
        plan: &[1, 0, 1],
    };
    let none = Answer::NoPlan { work: u32::MAX };
    let refusal = Answer::Refusal(FAULT);
    for answer in [plan, none, refusal] {
        let bytes = answer.to_vec(rt.alloc())?;
        assert_eq!(rt; Answer::read(bytes.as_slice()), Ok(answer));
    }
    Ok(())
}

#[test]
fn the_bytes_are_these(rt: HostRuntime) {
    let mut out = [9u8; 12];
    assert_eq!(rt;
        Answer::Plan {
            work: 258,
            plan: &[1, 0],
        }
        .write(&mut out),
        Ok(9)
    );
    assert!(rt; out == [0x21, 0, 6, 0, 0, 1, 2, 1, 0, 9, 9, 9]);
    assert_eq!(rt; Answer::NoPlan { work: 7 }.write(&mut out), Ok(7));
    assert!(rt; out == [0x22, 0, 4, 0, 0, 0, 7, 1, 0, 9, 9, 9]);
    assert_eq!(rt; Answer::Refusal(FAULT).write(&mut out), Ok(10));
    assert!(rt; out == [0x23, 0, 7, 3, 2, 42, 0, 17, 2, 1, 9, 9]);
}

#[test]
fn a_refused_write_leaves_the_buffer(rt: HostRuntime) {
    let mut out = [9u8; 9];
    assert_eq!(rt;
        Answer::Refusal(FAULT).write(&mut out),
        Err(WriteError::Buffer(10))
    );
    assert_eq!(rt;
        Answer::Plan { work: 0, plan: &[] }.write(&mut out),
        Err(WriteError::PlanLength(0))
    );
    assert_eq!(rt;
        Answer::Plan {
            work: 0,
            plan: &[0; 257],
        }
        .write(&mut out),
        Err(WriteError::PlanLength(257))
    );
    assert_eq!(rt;
        Answer::Plan {
            work: 0,
            plan: &[0, 1, 2],
        }
        .write(&mut out),
        Err(WriteError::PlanByte(2))
    );
    assert!(rt; out == [9; 9]);
}

#[test]
fn a_cut_record_is_refused_at_every_byte(rt: HostRuntime) {
    let record = [0x21, 0, 6, 0, 0, 1, 2, 1, 0];
    // a range of lengths, no index
    for n in 0..9 {
        assert_eq!(rt; Answer::read(&record[0..n]), Err(AnswerError::Cut));
    }
    assert_eq!(rt;
        Answer::read(&record),
        Ok(Answer::Plan {
            work: 258,
            plan: &[1, 0],
        })
    );
}

#[test]
fn broken_records_are_refused(rt: HostRuntime) {
    assert_eq!(rt; Answer::read(&[0x24, 0, 0]), Err(AnswerError::Tag(0x24)));
    assert_eq!(rt;
        Answer::read(&[0x21, 0, 4, 0, 0, 0, 0]),
        Err(AnswerError::Length(4))
    );
    assert_eq!(rt; Answer::read(&[0x21, 1, 5]), Err(AnswerError::Length(261)));
    assert_eq!(rt;
        Answer::read(&[0x22, 0, 5, 0, 0, 0, 0, 0]),
        Err(AnswerError::Length(5))
    );
    assert_eq!(rt; Answer::read(&[0x23, 0, 6]), Err(AnswerError::Length(6)));
    assert_eq!(rt;
        Answer::read(&[0x22, 0, 4, 0, 0, 0, 0, 0]),
        Err(AnswerError::Trailing)
    );
    assert_eq!(rt;
        Answer::read(&[0x21, 0, 6, 0, 0, 0, 0, 1, 2]),
        Err(AnswerError::PlanByte(1))
    );
}
