// Sheet files: good ones, cut ones, and one for each refusal.
use laws::Fault;
use records::{Reader, Record, codes, scan};
use std::alloc::{AllocError, Global};
use std::test::Fail;

// Last choice 7, the clause {0, 3}, the pin 4, the end.
const FILE: [u8; 19] = [1, 0, 1, 7, 2, 0, 4, 0, 0, 0, 3, 3, 0, 2, 0, 4, 15, 0, 0];

// By number, since the tests hold the code's names against the rules' numbers.
fn refusal(number: u8, offset: u16) -> Result<usize, Fault> {
    Err(Fault {
        layer: 1,
        depth: 0,
        number,
        place: 0,
        offset,
    })
}

// The offset of the record that a cut after `n` bytes of FILE leaves short.
fn record_at(n: usize) -> u16 {
    if n < 4 {
        0
    } else if n < 11 {
        4
    } else if n < 16 {
        11
    } else {
        16
    }
}

#[test]
fn a_file_cut_at_every_byte(rt: HostRuntime) {
    // a range of lengths, no index
    for n in 0..19 {
        assert_eq!(rt; scan(&FILE[0..n]), refusal(51, record_at(n)));
    }
    assert_eq!(rt; scan(&FILE), Ok(4));
}

#[test]
fn records_come_one_by_one(rt: HostRuntime) -> Result<(), Fail> {
    let mut reader = Reader::new(&FILE);
    let Record::Header(last) = reader.read()? else {
        return Err(Fail::new("no header"));
    };
    assert_eq!(rt; last, 7);
    assert_eq!(rt; reader.position(), 4);
    let Record::Clause {
        codes: bytes,
        offset,
    } = reader.read()?
    else {
        return Err(Fail::new("no clause"));
    };
    assert_eq!(rt; offset, 7);
    let list = codes(rt.alloc(), bytes)?;
    assert!(rt; list.as_slice() == [0, 3].as_slice());
    let Record::Pin(code) = reader.read()? else {
        return Err(Fail::new("no pin"));
    };
    assert_eq!(rt; code, 4);
    assert!(rt; reader.read()?.is_end());
    assert_eq!(rt; reader.position(), 19);
    Ok(())
}

#[test]
fn each_refusal_has_its_offset(rt: HostRuntime) {
    assert_eq!(rt; scan(&[]), refusal(51, 0), "nothing at all");
    assert_eq!(rt; scan(&[1, 0, 1, 7, 4, 0, 0]), refusal(52, 4), "tag 4");
    assert_eq!(rt;
        scan(&[1, 0, 1, 7, 4, 0, 1]),
        refusal(51, 4),
        "51 is asked before 52"
    );
    assert_eq!(rt; scan(&[15, 0, 0]), refusal(53, 0), "no header first");
    assert_eq!(rt;
        scan(&[1, 0, 1, 7, 1, 0, 1, 7]),
        refusal(53, 4),
        "a second header"
    );
    assert_eq!(rt;
        scan(&[1, 0, 1, 7, 1, 0, 0]),
        refusal(53, 4),
        "53 is asked before 54"
    );
    assert_eq!(rt;
        scan(&[1, 0, 2, 7, 7]),
        refusal(54, 0),
        "a header of two bytes"
    );
    assert_eq!(rt; scan(&[1, 0, 0]), refusal(54, 0), "a header of none");
    assert_eq!(rt;
        scan(&[1, 0, 1, 7, 2, 0, 1, 0]),
        refusal(54, 4),
        "half a code"
    );
    assert_eq!(rt;
        scan(&[1, 0, 1, 7, 3, 0, 4, 0, 0, 0, 0]),
        refusal(54, 4),
        "a pin of two codes"
    );
    assert_eq!(rt;
        scan(&[1, 0, 1, 7, 15, 0, 1, 0]),
        refusal(54, 4),
        "an end with a body"
    );
    assert_eq!(rt;
        scan(&[1, 0, 1, 7, 15, 0, 0, 0]),
        refusal(55, 4),
        "a byte behind the end"
    );
    assert_eq!(rt;
        scan(&[1, 0, 1, 7, 2, 0, 0, 15, 0, 0]),
        Ok(3),
        "a clause of no code is the sheet's to refuse"
    );
}

// A header, a pin, a clause of 65,520 bytes and the end: 65,535 bytes in all, and zeros behind them up to a size.
fn longest(heap: Global, size: usize) -> Result<Vec<u8>, AllocError> {
    let mut file = Vec::new(heap);
    file.extend_from_slice(&[1, 0, 1, 7, 3, 0, 2, 0, 4, 2, 0xFF, 0xF0])?;
    file.resize(65532, 0)?;
    file.extend_from_slice(&[15, 0, 0])?;
    file.resize(size, 0)?;
    Ok(file)
}

#[test]
fn a_file_has_at_most_65535_bytes(rt: HostRuntime) -> Result<(), Fail> {
    assert_eq!(rt; scan(longest(rt.alloc(), 65535)?.as_slice()), Ok(4));
    assert_eq!(rt;
        scan(longest(rt.alloc(), 65536)?.as_slice()),
        refusal(50, 0)
    );
    Ok(())
}

#[test]
fn a_refusal_comes_again(rt: HostRuntime) {
    let mut reader = Reader::new(&[1, 0, 1, 7, 9, 0, 0]);
    assert!(rt; reader.read().is_ok());
    assert!(rt; reader.read().is_err());
    assert_eq!(rt; reader.position(), 4);
    assert!(rt; reader.read().is_err());
    assert_eq!(rt; reader.position(), 4);
}
