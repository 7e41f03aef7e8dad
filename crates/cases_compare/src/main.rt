// Cases of two placements held beside each other, run over the call and compared; a line for each.
// The functions take the numbers that replies must have, as desk.h lays replies out with numbers.
#![tactic(auto)]

ghost use Rattle.desk.specs.Desks.{IsMade};

use call_compare::compare;
use cases_replies::{after_load, empty_desk, paper_p, planned, report};
use desk::Desk;
use std::io;

fn main(rt: HostRuntime) -> io::Result<()> {
    report(&rt, 1, case_1())?;
    report(&rt, 2, case_2())?;
    report(&rt, 3, case_3())?;
    report(&rt, 4, case_4())?;
    report(&rt, 5, case_5())?;
    report(&rt, 6, case_6())?;
    Ok(())
}

// P's key beside a placement with a barrier more in loop 0, one with a barrier more in loop 7, and no barrier at all,
// which is better and cuts nothing.
fn case_1() -> bool {
    let p = paper_p();
    weighs(p, b"2105\n210b\n", b"2103\n2109\n210d\n", true, false)
        && weighs(p, b"2103\n2109\n210d\n", b"2105\n210b\n", false, true)
        && weighs(p, b"2105\n210b\n", b"2105\n210a\n210b\n", true, false)
        && weighs(p, b"2105\n210b\n", b"", false, true)
}

// Two loops side by side, one barrier more in the one and one more in the other: neither is as good, whatever loop 0 has.
fn case_2() -> bool {
    let p = paper_p();
    weighs(
        p,
        b"2104\n2105\n210b\n",
        b"2105\n210a\n210b\n",
        false,
        false,
    ) && weighs(
        p,
        b"2105\n210a\n210b\n",
        b"2104\n2105\n210b\n",
        false,
        false,
    ) && weighs(
        p,
        b"2104\n2105\n210b\n210d\n",
        b"2105\n210a\n210b\n",
        false,
        false,
    ) && weighs(p, b"2105\n", b"210b\n", false, false)
}

// The same counts, so the same tree: the same gaps, others of the same loops, none at all. No key is wanted.
fn case_3() -> bool {
    let p = paper_p();
    let unplanned = after_load(p, b"01\n03\n03\n02\n110102\n1302\n");
    weighs(p, b"2105\n210b\n", b"2105\n210b\n", true, true)
        && weighs(p, b"2103\n2109\n", b"2105\n210b\n", true, true)
        && weighs(p, b"", b"", true, true)
        && weighs(unplanned, b"2101\n", b"2103\n", true, true)
        && weighs(unplanned, b"2101\n2103\n", b"2103\n", false, true)
}

// Q, from the inside out: where loop 3 has the same, fewer in loop 2 decides, though loop 0 has more; where loop 3 has
// fewer, the others are not looked at.
fn case_4() -> bool {
    let q = planned(b"01\n03\n01\n01\n03\n03\n02\n03\n02\n02\n110105\n12030504\n110407\n");
    weighs(q, b"2102\n2106\n", b"2104\n2107\n", true, false)
        && weighs(q, b"2101\n2102\n2106\n", b"2104\n2109\n", false, true)
        && weighs(q, b"2101\n2102\n2107\n2108\n", b"2104\n", true, false)
        && weighs(q, b"2104\n", b"2103\n", false, true)
}

// 10; then the faults of the first text, 1 with their line; then those of the second, 2 with theirs.
fn case_5() -> bool {
    let p = paper_p();
    let barred = planned(b"01\n03\n03\n02\n1301\n");
    weighs_not(empty_desk(), b"zz\n", b"zz\n", 10, 0, 0)
        && weighs_not(p, b"2105\nzz\n", b"21\n", 1, 1, 2)
        && weighs_not(p, b"2105\n", b"21\n", 2, 2, 1)
        && weighs_not(p, b"2105\n2105\n", b"2105\n210b\n210e\n", 8, 1, 2)
        && weighs_not(p, b"2105\n", b"2105\n210b\n210e\n", 8, 2, 3)
        && weighs_not(barred, b"2101\n", b"2100\n", 16, 1, 1)
        && weighs_not(barred, b"2102\n2103\n", b"2101\n", 16, 2, 1)
}

// The loops that decide, P's and Q's: side by side, whichever placement has more there; the outermost where all inside is
// the same; none around a loop that decides; none where all counts are the same.
fn case_6() -> bool {
    let p = paper_p();
    let q = planned(b"01\n03\n01\n01\n03\n03\n02\n03\n02\n02\n110105\n12030504\n110407\n");
    decide(p, b"2105\n210b\n", b"2105\n210a\n210b\n", 128)
        && decide(p, b"2104\n2105\n210b\n", b"2105\n210a\n210b\n", 2 + 128)
        && decide(p, b"2104\n2105\n210b\n210d\n", b"2105\n210b\n", 2)
        && decide(p, b"2105\n210b\n", b"2103\n2109\n210d\n", 1)
        && decide(p, b"2103\n2109\n", b"2105\n210b\n", 0)
        && decide(q, b"2102\n2106\n", b"2104\n2107\n", 4)
        && decide(q, b"2101\n2102\n2107\n2108\n", b"2104\n", 8)
        && decide(empty_desk(), b"", b"", 0)
        && decide(p, b"2105\n", b"210e\n", 0)
}

// The loops that decide between the two placements are these, DO 0 as the lowest bit.
fn decide(desk: Desk, a: &[u8], b: &[u8], loops: u64) -> bool
    requires { IsMade desk }
{
    let words = compare(desk, a, b).deciding.words;
    words[0] == loops && words[1] == 0 && words[2] == 0 && words[3] == 0
}

// Whether the first placement is as good or better than the second is `first`, the second than the first `second`: what
// the reply must say.
fn weighs(desk: Desk, a: &[u8], b: &[u8], first: bool, second: bool) -> bool
    requires { IsMade desk }
{
    let c = compare(desk, a, b);
    c.number == 0 && c.text == 0 && c.line == 0 && c.first == first && c.second == second
}

// The call refuses with this number, the text at fault and its line.
fn weighs_not(desk: Desk, a: &[u8], b: &[u8], number: u8, text: u8, line: usize) -> bool
    requires { IsMade desk }
{
    let c = compare(desk, a, b);
    c.number == number && c.text == text && c.line == line && !c.first && !c.second
}
