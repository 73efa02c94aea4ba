// Operations on tables by examples, and where they point at nothing.
use edits::{append, copy, delete_at, drop_choice, remove_at, set, set_all};
use queries::{
    count_of, first_lone, is_blocked, is_trimmed, lies_in, negation_of, occurring_choices,
    occurring_count,
};
use resolvents::{clashes, resolvent, resolvents, resolvents_size};
use std::alloc::{AllocError, Global};
use std::test::Fail;
use table::{Clause, Error, Table};

// A table of these clauses.
fn table_of(heap: Global, last: u8, clauses: &[&[u16]]) -> Result<Table, Error> {
    let mut table = Table::new(heap, last);
    for codes in clauses {
        table.add(codes)?;
    }
    Ok(table)
}

// Whether clauses are these, in their order.
fn are(clauses: &[Clause], want: &[&[u16]]) -> bool {
    clauses.len() == want.len()
        && clauses
            .iter()
            .zip(want)
            .all(|(clause, codes)| clause.codes() == *codes)
}

fn clause_of(heap: Global, codes: &[u16]) -> Result<Clause, AllocError> {
    Ok(Clause {
        codes: Vec::from_slice(heap, codes)?,
    })
}

#[test]
fn setting_removes_and_deletes(rt: HostRuntime) -> Result<(), Fail> {
    let mut table = table_of(rt.alloc(), 2, &[&[0], &[1, 2], &[3, 4], &[0, 5]])?;
    set(&mut table, 0);
    assert!(rt; are(table.clauses.as_slice(), &[&[2], &[3, 4]]));
    set(&mut table, 6);
    assert!(rt;
        are(table.clauses.as_slice(), &[&[2], &[3, 4]]),
        "a literal above the largest"
    );
    set_all(&mut table, &[2, 5]);
    assert!(rt;
        are(table.clauses.as_slice(), &[&[]]),
        "an empty clause is left"
    );
    set_all(&mut table, &[]);
    assert_eq!(rt; table.clause_count(), 1);
    Ok(())
}

#[test]
fn removing_and_deleting_by_position(rt: HostRuntime) -> Result<(), Fail> {
    let mut table = table_of(rt.alloc(), 2, &[&[0, 2], &[1, 2], &[4]])?;
    remove_at(&mut table, 3);
    delete_at(&mut table, 3, 0);
    delete_at(&mut table, 1, 0);
    assert!(rt;
        are(table.clauses.as_slice(), &[&[0, 2], &[1, 2], &[4]]),
        "nothing is there"
    );
    delete_at(&mut table, 0, 0);
    assert!(rt; are(table.clauses.as_slice(), &[&[2], &[1, 2], &[4]]));
    remove_at(&mut table, 1);
    assert!(rt; are(table.clauses.as_slice(), &[&[2], &[4]]));
    Ok(())
}

#[test]
fn dropping_a_choice_and_copying(rt: HostRuntime) -> Result<(), Fail> {
    let mut table = table_of(rt.alloc(), 2, &[&[0, 2], &[4], &[1], &[3, 5]])?;
    let before = copy(&table)?;
    drop_choice(&mut table, 0);
    drop_choice(&mut table, 9);
    assert!(rt; are(table.clauses.as_slice(), &[&[4], &[3, 5]]));
    assert_eq!(rt; before.last(), 2);
    assert!(rt; are(before.clauses.as_slice(), &[&[0, 2], &[4], &[1], &[3, 5]],));
    Ok(())
}

#[test]
fn appending_keeps_a_table_lawful(rt: HostRuntime) -> Result<(), Fail> {
    let heap = rt.alloc();
    let mut table = Table::new(heap, 1);
    assert!(rt;
        append(&mut table, clause_of(heap, &[])?)?,
        "an empty clause"
    );
    assert!(rt; append(&mut table, clause_of(heap, &[0, 3])?)?);
    assert!(rt;
        !append(&mut table, clause_of(heap, &[4])?)?,
        "a literal above the largest"
    );
    assert!(rt;
        !append(&mut table, clause_of(heap, &[2, 0])?)?,
        "not ascending"
    );
    assert!(rt;
        !append(&mut table, clause_of(heap, &[0, 1])?)?,
        "a choice twice"
    );
    assert!(rt; are(table.clauses.as_slice(), &[&[], &[0, 3]]));
    for _ in 0..1022 {
        assert!(rt; append(&mut table, clause_of(heap, &[0])?)?);
    }
    assert!(rt;
        !append(&mut table, clause_of(heap, &[0])?)?,
        "1,024 clauses stand"
    );
    assert_eq!(rt; table.clause_count(), 1024);
    Ok(())
}

#[test]
fn one_literal_and_occurring(rt: HostRuntime) -> Result<(), Fail> {
    let heap = rt.alloc();
    let table = table_of(heap, 4, &[&[0, 2], &[7], &[2], &[1, 2]])?;
    assert_eq!(rt; first_lone(&table), Some(7));
    assert_eq!(rt; first_lone(&Table::new(heap, 4)), None);
    assert_eq!(rt; count_of(&table, 2), 3);
    assert_eq!(rt; count_of(&table, 4), 0);
    assert_eq!(rt; count_of(&table, 99), 0);
    assert_eq!(rt; occurring_count(&table), 3);
    let found = occurring_choices(&table)?;
    assert!(rt; found.as_slice() == [0, 1, 3].as_slice());
    Ok(())
}

#[test]
fn covered_trimmed_and_blocked(rt: HostRuntime) -> Result<(), Fail> {
    let heap = rt.alloc();
    assert!(rt; lies_in(&[0, 4], &[0, 2, 4]));
    assert!(rt; !lies_in(&[0, 5], &[0, 2, 4]));
    assert!(rt; lies_in(&[], &[]));
    assert_eq!(rt; negation_of(6), 7);
    assert_eq!(rt; negation_of(7), 6);
    let trim = table_of(heap, 1, &[&[0, 2], &[1, 2]])?;
    assert!(rt; is_trimmed(&trim, &[0, 2], 0));
    assert!(rt; !is_trimmed(&trim, &[0, 2], 2));
    let block = table_of(heap, 1, &[&[0, 2], &[1, 3]])?;
    assert!(rt; is_blocked(&block, &[0, 2], 0));
    assert!(rt; !is_blocked(&trim, &[0, 2], 0));
    assert!(rt;
        is_blocked(&trim, &[0, 2], 2),
        "no clause holds the negation"
    );
    Ok(())
}

#[test]
fn resolvents_in_their_order(rt: HostRuntime) -> Result<(), Fail> {
    let heap = rt.alloc();
    assert!(rt; clashes(0, &[0, 2], &[1, 3]));
    assert!(rt; !clashes(0, &[0, 2], &[1, 2]));
    let one = resolvent(heap, 0, &[0, 5, 6], &[1, 2, 6])?;
    assert!(rt; one.codes() == [2, 5, 6].as_slice());
    let table = table_of(
        heap,
        4,
        &[&[0, 2], &[1, 6], &[0, 4], &[1, 8], &[1, 3], &[5]],
    )?;
    let all = resolvents(&table, 0)?;
    assert!(rt;
        are(
            all.as_slice(),
            &[&[2, 6], &[2, 8], &[4, 6], &[4, 8], &[3, 4]],
        )
    );
    assert_eq!(rt; resolvents_size(&table, 0), (5, 10));
    assert_eq!(rt;
        resolvents_size(&table, 200),
        (0, 0),
        "a choice that does not occur"
    );
    Ok(())
}

#[test]
fn whether_a_choice_makes_the_table_grow(rt: HostRuntime) -> Result<(), Fail> {
    let heap = rt.alloc();
    let stays = table_of(heap, 5, &[&[0, 2], &[0, 4], &[1, 6], &[1, 8]])?;
    assert_eq!(rt; resolvents_size(&stays, 0), (4, 8));
    assert_eq!(rt; stays.literal_count(), 8);
    let grows = table_of(heap, 5, &[&[0, 2, 10], &[0, 4], &[1, 6], &[1, 8]])?;
    assert_eq!(rt; resolvents_size(&grows, 0), (4, 10));
    assert_eq!(rt; grows.literal_count(), 9);
    Ok(())
}
