// The cases of document 01, "Papers with known results", run over the desk's calls and compared; a line for each.
// The functions take the numbers that replies must have, as desk.h lays replies out with numbers.
#![tactic(auto)]

ghost use Rattle.desk.specs.Desks.{IsMade};

use cases_replies::{
    has_count, has_key, is_best, is_dearer, is_refused, is_uncut, is_unread, paper_p, paper_r,
    planned, repeat, report,
};
use desk::Desk;
use std::io;

fn main(rt: HostRuntime) -> io::Result<()> {
    let p = paper_p();
    let q = paper_q();
    report(&rt, 1, case_1(p))?;
    report(&rt, 2, is_uncut(p, b"2103\n2109\n", 4))?;
    report(&rt, 3, is_uncut(p, b"2103\n210b\n", 5))?;
    report(&rt, 4, is_dearer(p, b"2103\n2109\n210d\n", 0, 1, 0))?;
    report(&rt, 5, is_dearer(p, b"2105\n210a\n210b\n", 7, 2, 1))?;
    report(&rt, 6, case_6(q))?;
    report(&rt, 7, is_dearer(q, b"2104\n2107\n", 2, 1, 0))?;
    report(&rt, 8, case_8())?;
    report(&rt, 9, case_9())?;
    report(&rt, 10, case_10())?;
    report(&rt, 11, case_11())?;
    report(&rt, 12, case_12())?;
    report(&rt, 13, case_13())?;
    Ok(())
}

// P: key 5 and 11, counts 0, 1, 1 for loops 0, 1, 7.
fn case_1(p: Desk) -> bool
    requires { IsMade p }
{
    has_key(p, b"2105\n210b\n") && has_count(p, 0, 0) && has_count(p, 1, 1) && has_count(p, 7, 1)
}

// Q: key 2 and 6, counts 1, 0, 1 for loops 0, 2, 3.
fn case_6(q: Desk) -> bool
    requires { IsMade q }
{
    has_key(q, b"2102\n2106\n") && has_count(q, 0, 1) && has_count(q, 2, 0) && has_count(q, 3, 1)
}

// R: count 2. Each two intervals share a gap (2, 4 and 6), all three share none. Of its keys, 1 and 4 is the first.
fn case_8() -> bool {
    let r = paper_r();
    has_key(r, b"2101\n2104\n")
        && has_count(r, 0, 2)
        && is_uncut(r, b"2101\n", 0)
        && is_uncut(r, b"2102\n", 1)
        && is_uncut(r, b"2103\n", 1)
        && is_uncut(r, b"2104\n", 2)
        && is_uncut(r, b"2105\n", 0)
        && is_uncut(r, b"2106\n", 0)
        && is_uncut(r, b"2107\n", 0)
        && is_best(r, b"2102\n2105\n")
        && is_best(r, b"2104\n2107\n")
        && is_best(r, b"2103\n2106\n")
}

// A statement that depends on itself a turn before: gaps 1 and 2, count 1; either is a key, and 1 is the first.
fn case_9() -> bool {
    let desk = planned(b"01\n03\n02\n12000101\n");
    has_key(desk, b"2101\n")
        && has_count(desk, 0, 1)
        && is_uncut(desk, b"", 0)
        && is_best(desk, b"2101\n")
        && is_best(desk, b"2102\n")
}

// The least nest: an empty key.
fn case_10() -> bool {
    let desk = planned(b"01\n02\n");
    has_key(desk, b"") && has_count(desk, 0, 0)
}

// The empty text: the nest 01, 02, whose key is empty. A lone 0a is 1, a dependence first is 4.
fn case_11() -> bool {
    let blank = planned(b"");
    is_refused(b"", 0, 0)
        && has_key(blank, b"")
        && has_count(blank, 0, 0)
        && is_refused(b"\n", 1, 1)
        && is_refused(b"110001\n", 4, 1)
}

// The limits: accepted, and one more of each.
fn case_12() -> bool {
    is_full(254, 512, 0, 0)
        && is_full(254, 513, 5, 769)
        && is_full(255, 0, 5, 257)
        && is_refused(b"01\n02\n03\n", 4, 3)
        && is_deep(8, 0, 0)
        && is_deep(9, 5, 9)
}

// P: gap 13 is accepted, 14 gets number 8; the key needs 10 bytes, and 9 get number 9.
fn case_13() -> bool {
    let p = paper_p();
    let mut ten = [0u8; 10];
    let mut nine = [0u8; 9];
    let a = desk::write_key(p, &mut ten);
    let b = desk::write_key(p, &mut nine);
    is_uncut(p, b"210d\n", 0)
        && is_unread(p, b"210e\n", 8, 1)
        && a.number == 0
        && a.value == 10
        && b.number == 9
        && b.line == 0
        && check::same(&nine, &[0u8; 9])
}

fn paper_q() -> Desk
    ensures { IsMade result }
{
    planned(b"01\n03\n01\n01\n03\n03\n02\n03\n02\n02\n110105\n12030504\n110407\n")
}

// Load's number and line for a loop round so many statements, with so many dependences.
fn is_full(statements: usize, dependences: usize, number: u8, line: usize) -> bool {
    let mut text = [0u8; 8192];
    let a = repeat(&mut text, 0, b"01\n", 1);
    let b = repeat(&mut text, a, b"03\n", statements);
    let c = repeat(&mut text, b, b"02\n", 1);
    let n = repeat(&mut text, c, b"110001\n", dependences);
    is_refused(&text[..n], number, line)
}

// Load's number and line for loops so deep.
fn is_deep(loops: usize, number: u8, line: usize) -> bool {
    let mut text = [0u8; 8192];
    let a = repeat(&mut text, 0, b"01\n", loops);
    let n = repeat(&mut text, a, b"02\n", loops);
    is_refused(&text[..n], number, line)
}
