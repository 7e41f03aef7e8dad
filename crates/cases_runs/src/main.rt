// Cases of barrier calls in a run (change request 11), counted over the desk's calls and compared; a line for each.
// The functions take the numbers that replies must have, as desk.h lays replies out with numbers.
#![tactic(auto)]

ghost use Rattle.desk.specs.Desks.{IsMade};

use call_runs::{count_calls, placement_calls};
use cases_replies::{after_load, after_put, empty_desk, paper_p, planned, report};
use desk::Desk;
use std::io;

fn main(rt: HostRuntime) -> io::Result<()> {
    report(&rt, 1, case_1())?;
    report(&rt, 2, case_2())?;
    report(&rt, 3, case_3())?;
    report(&rt, 4, case_4())?;
    report(&rt, 5, case_5())?;
    report(&rt, 6, case_6())?;
    report(&rt, 7, case_7())?;
    report(&rt, 8, case_8())?;
    Ok(())
}

// The nest of WHY, whose key is 2, 7: both barriers lie in the outermost loop alone.
fn case_1() -> bool {
    let once = planned(b"01\n03\n01\n03\n03\n03\n02\n03\n02\n110104\n110307\n");
    let moved = after_put(once, 4);
    counts(once, &[3, 2], 6)
        && counts(once, &[3, 5], 6)
        && counts(once, &[1, 16], 2)
        && counts(once, &[16, 16], 32)
        && counts(moved, &[3, 2], 6)
}

// Q, whose key is 2, 6: one barrier in loop 0 alone, one in all three loops. P, whose barriers lie in loops 1 and 7,
// both inside loop 0.
fn case_2() -> bool {
    let q = planned(b"01\n03\n01\n01\n03\n03\n02\n03\n02\n02\n110105\n12030504\n110407\n");
    let p = paper_p();
    counts(q, &[1, 2, 3], 7)
        && counts(q, &[4, 2, 3], 28)
        && counts(q, &[4, 3, 2], 28)
        && counts(p, &[2, 3, 5], 16)
        && counts(p, &[2, 5, 3], 16)
}

// A barrier in 8 loops of 16 turns each; no barrier.
fn case_3() -> bool {
    let deep = planned(
        b"01\n01\n01\n01\n01\n01\n01\n01\n03\n02\n02\n02\n02\n02\n02\n02\n02\n12070808\n",
    );
    let blank = planned(b"");
    counts(deep, &[16; 8], 4294967296)
        && counts(deep, &[1, 2, 2, 2, 2, 2, 2, 2], 128)
        && counts(blank, &[16], 0)
}

// 17: a list too short or too long, no turn outside, one turn inside, 17 turns.
fn case_4() -> bool {
    let once = planned(b"01\n03\n01\n03\n03\n03\n02\n03\n02\n110104\n110307\n");
    counts_not(once, &[3], 17)
        && counts_not(once, &[3, 2, 2], 17)
        && counts_not(once, &[0, 2], 17)
        && counts_not(once, &[3, 1], 17)
        && counts_not(once, &[17, 2], 17)
        && counts_not(once, &[3, 17], 17)
        && counts_not(once, &[3, 0], 17)
}

// 10 and 11 come before 17.
fn case_5() -> bool {
    let p = paper_p();
    let unplanned = after_load(p, b"01\n02\n110001\n");
    counts_not(empty_desk(), &[0], 10)
        && counts_not(unplanned, &[0], 11)
        && counts_not(unplanned, &[2], 11)
}

// Papers with a barred gap or a flagged loop get no count, whatever the turns.
fn case_6() -> bool {
    counts(planned(b"01\n03\n02\n"), &[2], 0)
        && counts_not(planned(b"01\n03\n02\n1301\n"), &[2], 17)
        && counts_not(planned(b"04\n03\n02\n"), &[2], 17)
        && counts_not(planned(b"01\n04\n02\n02\n"), &[2, 2], 17)
}

// Any placement, with a key or without, and turns from 1: on the nest of WHY the gap 4 has fewer calls than the key where
// the inner loop runs once. Q's other placement; no gap at all; a placement that leaves dependences uncut.
fn case_7() -> bool {
    let once = planned(b"01\n03\n01\n03\n03\n03\n02\n03\n02\n110104\n110307\n");
    let unplanned = after_load(
        once,
        b"01\n03\n01\n01\n03\n03\n02\n03\n02\n02\n110105\n12030504\n110407\n",
    );
    has_calls(once, b"2104\n", &[3, 2], 6)
        && has_calls(once, b"2104\n", &[3, 3], 9)
        && has_calls(once, b"2104\n", &[3, 1], 3)
        && has_calls(once, b"2102\n2107\n", &[3, 1], 6)
        && has_calls(unplanned, b"2104\n2107\n", &[4, 2, 3], 32)
        && has_calls(unplanned, b"2102\n2106\n", &[4, 2, 3], 28)
        && has_calls(unplanned, b"", &[16, 16, 16], 0)
        && has_calls(unplanned, b"2105\n", &[1, 1, 1], 1)
}

// 10; then the faults of the text with their line; then 17 for the turns, for a barred gap anywhere, for a flagged loop.
fn case_8() -> bool {
    let once = planned(b"01\n03\n01\n03\n03\n03\n02\n03\n02\n110104\n110307\n");
    let barred = planned(b"01\n03\n03\n02\n1301\n");
    has_not(empty_desk(), b"zz\n", &[0], 10, 0)
        && has_not(once, b"2104\nzz\n", &[0], 1, 2)
        && has_not(once, b"1104\n", &[0], 2, 1)
        && has_not(once, b"2104\n2109\n", &[0], 8, 2)
        && has_not(barred, b"2101\n", &[0], 16, 1)
        && has_not(barred, b"2102\n", &[2], 17, 0)
        && has_not(planned(b"04\n03\n02\n"), b"", &[2], 17, 0)
        && has_not(once, b"2104\n", &[3], 17, 0)
        && has_not(once, b"2104\n", &[3, 2, 2], 17, 0)
        && has_not(once, b"2104\n", &[3, 0], 17, 0)
        && has_not(once, b"2104\n", &[3, 17], 17, 0)
}

// The key has so many calls under these turns.
fn counts(desk: Desk, turns: &[u8], calls: u64) -> bool
    requires { IsMade desk }
{
    let answer = count_calls(desk, turns);
    answer.number == 0 && answer.line == 0 && answer.calls == calls
}

// The call refuses these turns with this number.
fn counts_not(desk: Desk, turns: &[u8], number: u8) -> bool
    requires { IsMade desk }
{
    let answer = count_calls(desk, turns);
    answer.number == number && answer.line == 0 && answer.calls == 0
}

// The placement that the text spells has so many calls under these turns.
fn has_calls(desk: Desk, text: &[u8], turns: &[u8], calls: u64) -> bool
    requires { IsMade desk }
{
    let answer = placement_calls(desk, text, turns);
    answer.number == 0 && answer.line == 0 && answer.calls == calls
}

// The call refuses this text or these turns with this number and line.
fn has_not(desk: Desk, text: &[u8], turns: &[u8], number: u8, line: usize) -> bool
    requires { IsMade desk }
{
    let answer = placement_calls(desk, text, turns);
    answer.number == number && answer.line == line && answer.calls == 0
}
