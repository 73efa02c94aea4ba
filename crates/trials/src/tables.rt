// What a table takes and refuses, at each edge, and what it answers of plans.
use laws::Fault;
use std::alloc::{AllocError, Global};
use std::test::Fail;
use table::{Error, Table};

// The codes 0, 2, 4 and on: `n` choices taken.
fn taking(heap: Global, n: u16) -> Result<Vec<u16>, AllocError> {
    (0..n).map(|c| c.wrapping_mul(2)).collect(heap)
}

// By number, here and below, since the tests hold the code's names against the rules' numbers.
fn refusal(number: u8, place: u16) -> Result<(), Error> {
    Err(Error::Refused(Fault {
        layer: 3,
        depth: 0,
        number,
        place,
        offset: 0,
    }))
}

#[test]
fn a_clause_has_1_to_256_codes(rt: HostRuntime) -> Result<(), Fail> {
    let mut table = Table::new(rt.alloc(), 255);
    assert_eq!(rt; table.add(&[]), refusal(11, 0));
    assert_eq!(rt;
        table.add(taking(rt.alloc(), 257)?.as_slice()),
        refusal(11, 0)
    );
    assert_eq!(rt; table.clause_count(), 0);
    assert_eq!(rt; table.add(taking(rt.alloc(), 256)?.as_slice()), Ok(()));
    assert_eq!(rt; table.add(&[511]), Ok(()));
    assert_eq!(rt; table.clause_count(), 2);
    assert_eq!(rt; table.literal_count(), 257);
    Ok(())
}

#[test]
fn codes_end_at_twice_the_last_choice_and_one(rt: HostRuntime) {
    let mut table = Table::new(rt.alloc(), 3);
    assert_eq!(rt; table.add(&[7, 0]), Ok(()));
    assert_eq!(rt; table.add(&[0, 8]), refusal(12, 1));
    assert_eq!(rt;
        table.add(&[0, 1, 9]),
        refusal(12, 2),
        "12 is asked before 13"
    );
    let mut least = Table::new(rt.alloc(), 0);
    assert_eq!(rt; least.add(&[2]), refusal(12, 0));
    assert_eq!(rt; least.add(&[1]), Ok(()));
}

#[test]
fn a_choice_stands_once(rt: HostRuntime) -> Result<(), Fail> {
    let mut table = Table::new(rt.alloc(), 3);
    assert_eq!(rt; table.add(&[0, 4, 1]), refusal(13, 2));
    assert_eq!(rt; table.add(&[6, 6, 0, 0]), refusal(13, 1));
    assert_eq!(rt; table.add(&[6, 3, 0]), Ok(()));
    let clause = table.clause(0).ok_or("no clause")?;
    assert!(rt; clause.codes() == [0, 3, 6].as_slice());
    Ok(())
}

#[test]
fn at_most_1024_clauses(rt: HostRuntime) -> Result<(), Fail> {
    let mut table = Table::new(rt.alloc(), 255);
    for _ in 0..1024 {
        table.add(&[2])?;
    }
    assert_eq!(rt; table.clause_count(), 1024);
    assert_eq!(rt; table.add(&[4]), refusal(14, 0));
    assert_eq!(rt; table.add(&[512]), refusal(12, 0), "12 is asked before 14");
    assert_eq!(rt; table.clause_count(), 1024);
    Ok(())
}

#[test]
fn at_most_8192_literals(rt: HostRuntime) -> Result<(), Fail> {
    let mut table = Table::new(rt.alloc(), 255);
    let long = taking(rt.alloc(), 256)?;
    for _ in 0..31 {
        table.add(long.as_slice())?;
    }
    table.add(taking(rt.alloc(), 255)?.as_slice())?;
    assert_eq!(rt; table.literal_count(), 8191);
    assert_eq!(rt; table.add(&[0, 2]), refusal(15, 0), "8,193 literals");
    assert_eq!(rt; table.add(&[0]), Ok(()), "8,192 literals");
    assert_eq!(rt; table.add(&[0]), refusal(15, 0));
    assert_eq!(rt; table.literal_count(), 8192);
    Ok(())
}

// The clauses {0, 3} and {2, 5} over the choices 0 to 3.
fn small(heap: Global) -> Result<Table, Error> {
    let mut table = Table::new(heap, 3);
    table.add(&[3, 0])?;
    table.add(&[2, 5])?;
    Ok(table)
}

#[test]
fn plans_are_held_against_clauses(rt: HostRuntime) -> Result<(), Fail> {
    let table = small(rt.alloc())?;
    assert_eq!(rt; table.is_true(&[1, 0, 0, 0]), Ok(true));
    assert_eq!(rt; table.is_true(&[0, 1, 1, 0]), Ok(false));
    assert_eq!(rt; table.first_false(&[0, 1, 1, 0]), Ok(Some(0)));
    assert_eq!(rt; table.first_false(&[1, 0, 1, 0]), Ok(Some(1)));
    assert_eq!(rt; table.first_false(&[1, 1, 0, 0]), Ok(None));
    assert_eq!(rt; table.broken(&[1, 0, 1, 0]), Ok(1));
    assert_eq!(rt;
        table.broken(&[7, 9, 0, 0]),
        Ok(0),
        "a byte other than 0 counts as taken"
    );
    assert_eq!(rt; table.clause_true(&[0, 1, 0, 0], 0), Ok(Some(false)));
    assert_eq!(rt; table.clause_true(&[0, 1, 0, 0], 1), Ok(Some(true)));
    assert_eq!(rt; table.clause_true(&[0, 1, 0, 0], 2), Ok(None));
    assert_eq!(rt; table.agreeing(&[0, 1, 0, 0], 1), Ok(Some(2)));
    assert_eq!(rt; table.agreeing(&[0, 1, 0, 0], 0), Ok(None));
    Ok(())
}

#[test]
fn short_plans_and_far_literals_are_refused(rt: HostRuntime) -> Result<(), Fail> {
    let table = small(rt.alloc())?;
    let short = Fault {
        layer: 3,
        depth: 0,
        number: 31,
        place: 0,
        offset: 0,
    };
    let far = Fault {
        layer: 3,
        depth: 0,
        number: 12,
        place: 0,
        offset: 0,
    };
    assert_eq!(rt; table.is_true(&[1, 0, 0]), Err(short));
    assert_eq!(rt; table.first_false(&[]), Err(short));
    assert_eq!(rt; table.broken(&[1, 0, 0]), Err(short));
    assert_eq!(rt; table.clause_true(&[1, 0, 0], 9), Err(short));
    assert_eq!(rt; table.agreeing(&[1, 0, 0], 0), Err(short));
    assert_eq!(rt;
        table.agrees(&[1, 0, 0], 8),
        Err(short),
        "31 is asked before 12"
    );
    assert_eq!(rt; table.agrees(&[1, 0, 0, 0], 8), Err(far));
    assert_eq!(rt; table.agrees(&[1, 0, 0, 0], 0), Ok(true));
    assert_eq!(rt; table.agrees(&[1, 0, 0, 0], 7), Ok(true));
    assert_eq!(rt; table.agrees(&[1, 0, 0, 0, 1], 6), Ok(false));
    Ok(())
}

#[test]
fn choices_occur(rt: HostRuntime) -> Result<(), Fail> {
    let table = small(rt.alloc())?;
    assert!(rt; table.occurs(0));
    assert!(rt; table.occurs(1));
    assert!(rt; table.occurs(2));
    assert!(rt; !table.occurs(3));
    assert!(rt; !table.occurs(255));
    assert_eq!(rt; table.last(), 3);
    assert!(rt; table.clause(2).is_none());
    Ok(())
}
