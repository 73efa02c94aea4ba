// Whole audits: the shipped examples and their like, with the text that they print.
use laws::Fault;
use std::test::Fail;
use verdict::{Failure, Verdict, audit};

// The sheet and the answers that are shipped as examples.
const HOUR: [u8; 61] = [
    1, 0, 1, 7, 2, 0, 4, 0, 0, 0, 2, 2, 0, 4, 0, 3, 0, 9, 2, 0, 4, 0, 5, 0, 7, 2, 0, 4, 0, 5, 0,
    10, 2, 0, 4, 0, 8, 0, 10, 2, 0, 4, 0, 9, 0, 11, 2, 0, 4, 0, 12, 0, 14, 3, 0, 2, 0, 4, 15, 0, 0,
];

const GOOD: [u8; 15] = [0x21, 0, 12, 0, 0, 0, 0, 1, 0, 1, 0, 0, 1, 1, 0];

const BROKEN: [u8; 15] = [0x21, 0, 12, 0, 0, 0, 0, 1, 0, 0, 0, 1, 0, 0, 0];

const GOOD_TEXT: &str = "sheet: choices 8, clauses 7, literals 14, pins 1
clause 0: take 0 or take 1: true by take 0
clause 1: leave 1 or leave 4: true by leave 1
clause 2: leave 2 or leave 3: true by leave 3
clause 3: leave 2 or take 5: true by take 5
clause 4: take 4 or take 5: true by take 5
clause 5: leave 4 or leave 5: true by leave 4
clause 6: take 6 or take 7: true by take 6
pin 0: take 2: true by take 2
answer: a plan, work 0, taking 0 2 5 6
verdict: the plan keeps the sheet
";

const BROKEN_TEXT: &str = "sheet: choices 8, clauses 7, literals 14, pins 1
clause 0: take 0 or take 1: true by take 0
clause 1: leave 1 or leave 4: true by leave 1
clause 2: leave 2 or leave 3: true by leave 2
clause 3: leave 2 or take 5: true by leave 2
clause 4: take 4 or take 5: true by take 4
clause 5: leave 4 or leave 5: true by leave 5
clause 6: take 6 or take 7: FALSE
pin 0: take 2: FALSE
answer: a plan, work 0, taking 0 4
verdict: the plan breaks 2 of 8
";

#[test]
fn the_good_example(rt: HostRuntime) -> Result<(), Fail> {
    let out = audit(rt.alloc(), &HOUR, &GOOD)?;
    assert_eq!(rt; out.verdict, Verdict::Keeps);
    assert_eq!(rt; out.text.as_str(), GOOD_TEXT);
    Ok(())
}

#[test]
fn the_broken_example(rt: HostRuntime) -> Result<(), Fail> {
    let out = audit(rt.alloc(), &HOUR, &BROKEN)?;
    assert_eq!(rt; out.verdict, Verdict::Breaks { broken: 2, of: 8 });
    assert_eq!(rt; out.text.as_str(), BROKEN_TEXT);
    Ok(())
}

// The last choice 0, the clause {1}, the end.
const SMALL: [u8; 12] = [1, 0, 1, 0, 2, 0, 2, 0, 1, 15, 0, 0];

#[test]
fn none_and_refusals_hold_nothing(rt: HostRuntime) -> Result<(), Fail> {
    let none = audit(rt.alloc(), &SMALL, &[0x22, 0, 4, 0, 0, 1, 0])?;
    assert_eq!(rt; none.verdict, Verdict::Nothing);
    assert_eq!(rt;
        none.text.as_str(),
        "sheet: choices 1, clauses 1, literals 1, pins 0\nclause 0: leave 0\nanswer: none, work 256\nverdict: no plan, so there is nothing to hold\n"
    );
    let refused = audit(rt.alloc(), &SMALL, &[0x23, 0, 7, 3, 2, 42, 0, 17, 0, 0])?;
    assert_eq!(rt; refused.verdict, Verdict::Nothing);
    assert_eq!(rt;
        refused.text.as_str(),
        "sheet: choices 1, clauses 1, literals 1, pins 0\nclause 0: leave 0\nanswer: refused, layer 3, depth 2, number 42, place 17, offset 0\n42: more choices occur than the lister tries\nverdict: no plan, so there is nothing to hold\n"
    );
    Ok(())
}

fn failure(rt: &HostRuntime, sheet: &[u8], answer: &[u8]) -> Option<Failure> {
    audit(rt.alloc(), sheet, answer).err()
}

// Faults by number, since the test holds the code's names against the rules' numbers.
#[test]
fn what_cannot_be_held(rt: HostRuntime) {
    let long = failure(&rt, &SMALL, &GOOD);
    assert_eq!(rt; long, Some(Failure::PlanLength { has: 8, wants: 1 }));
    let cut = Fault {
        layer: 1,
        depth: 0,
        number: 51,
        place: 0,
        offset: 9,
    };
    assert_eq!(rt;
        failure(&rt, &SMALL[0..11], &GOOD),
        Some(Failure::Sheet(cut))
    );
    let far = Fault {
        layer: 3,
        depth: 0,
        number: 12,
        place: 1,
        offset: 4,
    };
    assert_eq!(rt;
        failure(&rt, &[1, 0, 1, 0, 2, 0, 4, 0, 1, 0, 2, 15, 0, 0], &GOOD),
        Some(Failure::Sheet(far))
    );
    let pin = Fault {
        layer: 3,
        depth: 0,
        number: 12,
        place: 0,
        offset: 4,
    };
    assert_eq!(rt;
        failure(&rt, &[1, 0, 1, 0, 3, 0, 2, 0, 2, 15, 0, 0], &GOOD),
        Some(Failure::Sheet(pin))
    );
    let early = Fault {
        layer: 3,
        depth: 0,
        number: 11,
        place: 0,
        offset: 4,
    };
    assert_eq!(rt;
        failure(&rt, &[1, 0, 1, 0, 2, 0, 0, 9], &GOOD),
        Some(Failure::Sheet(early))
    );
}
