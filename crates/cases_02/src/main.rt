// Cases of the change requests, run over the desk's calls and compared; a line for each. Their numbers go on from those
// of document 01: 14 to 16 are of request 4, 17 to 19 of request 5, 20 of request 6, 21 to 23 of request 7.
#![tactic(auto)]

ghost use Rattle.desk.specs.Desks.{IsMade};

use cases_replies::{
    after_back, after_lift, after_load, after_plan, after_put, after_reset, empty_desk, gone_over,
    gone_over_with, has_count, has_key, has_sitting, is_best, is_refused, is_unread, lifts,
    paper_p, paper_r, planned, plans, puts, report, takes_back,
};
use desk::Desk;
use std::io;

fn main(rt: HostRuntime) -> io::Result<()> {
    report(&rt, 14, case_14())?;
    report(&rt, 15, case_15())?;
    report(&rt, 16, case_16())?;
    report(&rt, 17, case_17())?;
    report(&rt, 18, case_18())?;
    report(&rt, 19, case_19())?;
    report(&rt, 20, case_20())?;
    report(&rt, 21, case_21())?;
    report(&rt, 22, case_22())?;
    report(&rt, 23, case_23())?;
    Ok(())
}

// P at the screen: barriers put and lifted, how many dependences remain uncut, and the sitting as text.
fn case_14() -> bool {
    let p = paper_p();
    let one = after_put(p, 5);
    let two = after_put(one, 11);
    let left = after_lift(two, 5);
    puts(p, 5, 0, 3)
        && puts(one, 11, 0, 0)
        && lifts(two, 5, 0, 3)
        && lifts(left, 11, 0, 6)
        && puts(left, 3, 0, 1)
        && puts(two, 13, 0, 0)
        && has_sitting(p, 0, b"")
        && has_sitting(two, 0, b"2105\n210b\n")
        && has_sitting(left, 0, b"210b\n")
}

// Numbers at the screen: 10 before 8 before 12.
fn case_15() -> bool {
    let p = paper_p();
    let empty = empty_desk();
    let one = after_put(p, 5);
    puts(empty, 0, 10, 0)
        && lifts(empty, 0, 10, 0)
        && puts(one, 0, 8, 0)
        && puts(one, 14, 8, 0)
        && puts(one, 256, 8, 0)
        && lifts(one, 0, 8, 0)
        && lifts(one, 14, 8, 0)
        && puts(one, 5, 12, 0)
        && lifts(one, 4, 12, 0)
        && has_sitting(empty, 10, b"")
}

// No key is needed; Plan does not touch the sitting; Load empties it, refused it stays; a desk that goes over has nest
// and key, and an empty sitting.
fn case_16() -> bool {
    let p = paper_p();
    let least = after_load(p, b"01\n02\n110001\n");
    let one = after_put(least, 1);
    let planned = after_plan(one);
    let refused = after_load(planned, b"01\n");
    let again = after_load(refused, b"01\n02\n110001\n");
    puts(least, 1, 0, 0)
        && lifts(one, 1, 0, 1)
        && has_sitting(one, 0, b"2101\n")
        && has_key(planned, b"2101\n")
        && puts(planned, 1, 12, 0)
        && lifts(refused, 1, 0, 1)
        && lifts(again, 1, 12, 0)
        && puts(again, 1, 0, 0)
        && goes_over()
}

fn goes_over() -> bool {
    let p = paper_p();
    let one = after_put(p, 5);
    let gone = gone_over(one);
    has_key(gone, b"2105\n210b\n") && lifts(gone, 5, 12, 0) && puts(gone, 5, 0, 3)
}

// P at the screen: the latest move is taken back, a lift by putting, a put by lifting; a refused move is none.
fn case_17() -> bool {
    let p = paper_p();
    let one = after_put(p, 5);
    let two = after_put(one, 11);
    let left = after_lift(two, 5);
    let refused = after_put(left, 11);
    let back = after_back(refused);
    let first = after_back(back);
    let none = after_back(first);
    takes_back(refused, 0, 0)
        && lifts(back, 5, 0, 3)
        && takes_back(back, 0, 3)
        && puts(first, 11, 0, 0)
        && takes_back(first, 0, 6)
        && puts(none, 5, 0, 3)
        && takes_back(none, 13, 0)
}

// 10 before 13. Load clears the moves, refused it keeps them; Plan keeps them; a desk that goes over has none.
fn case_18() -> bool {
    let p = paper_p();
    let one = after_put(p, 5);
    let refused = after_load(one, b"01\n");
    let planned = after_plan(refused);
    let again = after_load(planned, b"01\n02\n110001\n");
    let gone = gone_over(one);
    takes_back(p, 13, 0)
        && takes_back(planned, 0, 6)
        && takes_back(again, 13, 0)
        && takes_back(gone, 13, 0)
        && takes_back(after_reset(one), 10, 0)
        && takes_back(empty_desk(), 10, 0)
}

// 65 moves and 65 take-backs: the first move is forgotten, so that its barrier stays and the last take-back gets 13.
fn case_19() -> bool {
    let p = paper_p();
    let moved = after_turns(p, 65);
    let last = after_backs(moved, 63);
    let forgotten = after_backs(moved, 64);
    lifts(moved, 5, 0, 6)
        && lifts(last, 5, 12, 0)
        && takes_back(last, 0, 3)
        && lifts(forgotten, 5, 0, 6)
        && takes_back(forgotten, 13, 0)
}

// One key for one paper: not the last of equals, 1 and 3; not what is first inside loop 1 only, 2 and 4. R goes over
// with another of its keys and gets the first.
fn case_20() -> bool {
    let either = planned(b"01\n03\n03\n02\n110001\n110103\n");
    let crossed = planned(b"01\n01\n03\n02\n02\n110002\n110103\n110204\n");
    let r = paper_r();
    let gone = gone_over_with(r, b"2104\n2107\n");
    has_key(either, b"2101\n2102\n")
        && is_best(either, b"2101\n2103\n")
        && has_key(crossed, b"2101\n2103\n")
        && is_best(crossed, b"2102\n2104\n")
        && is_best(r, b"2104\n2107\n")
        && has_key(gone, b"2101\n2104\n")
}

// Gaps 1, 2 and 4 barred: the key avoids them, and a placement with one of them has number 16, after 8.
fn case_21() -> bool {
    let paper = barred_paper();
    has_key(paper, b"2103\n2105\n")
        && has_count(paper, 0, 2)
        && is_best(paper, b"2105\n2106\n")
        && is_unread(paper, b"2103\n2104\n", 16, 2)
        && is_unread(paper, b"2104\n2104\n", 16, 1)
        && is_unread(paper, b"2105\n2104\n", 8, 2)
        && is_unread(paper, b"2107\n", 8, 1)
}

// Numbers on lines 13: 14 after 8 in a nest of several loops; 4 before all points, and 3 for a point behind. A dependence
// whose only gap is barred leaves no key: 15, after 10.
fn case_22() -> bool {
    let blocked = after_load(empty_desk(), b"01\n03\n03\n02\n1302\n110102\n");
    is_refused(b"01\n01\n02\n02\n1301\n", 14, 5)
        && is_refused(b"01\n01\n02\n02\n1304\n", 8, 5)
        && is_refused(b"01\n02\n1300\n", 8, 3)
        && is_refused(b"01\n1301\n", 4, 2)
        && is_refused(b"01\n02\n1301\n03\n", 3, 4)
        && is_refused(b"01\n02\n1301\n1301\n", 0, 0)
        && plans(blocked, 15)
        && is_unread(after_plan(blocked), b"2101\n", 11, 0)
        && plans(empty_desk(), 10)
}

// At the screen a barred gap is never there: Put gets 16, Lift 12.
fn case_23() -> bool {
    let paper = barred_paper();
    let one = after_put(paper, 3);
    puts(paper, 4, 16, 0)
        && lifts(paper, 4, 12, 0)
        && puts(paper, 7, 8, 0)
        && puts(paper, 3, 0, 1)
        && puts(one, 3, 12, 0)
        && puts(one, 5, 0, 0)
}

// 01, five times 03, 02 with 12000503, 12000401, 110005 and gaps 1, 2 and 4 barred.
fn barred_paper() -> Desk
    ensures { IsMade result }
{
    planned(b"01\n03\n03\n03\n03\n03\n02\n12000503\n1301\n12000401\n1302\n110005\n1304\n")
}

// The desk after so many moves of gap 5, put and lifted in turn.
fn after_turns(desk: Desk, many: usize) -> Desk
    requires { IsMade desk }
    ensures { IsMade result }
{
    let mut d = desk;
    for _ in 0..many {
        d = turned(d, 5);
    }
    d
}

// The desk with the gap put, or lifted where it is there.
fn turned(desk: Desk, gap: usize) -> Desk
    requires { IsMade desk }
    ensures { IsMade result }
{
    let moved = call_moves::put_gap(desk, gap);
    if moved.number == 0 {
        return moved.desk;
    }
    after_lift(desk, gap)
}

// The desk after so many take-backs.
fn after_backs(desk: Desk, many: usize) -> Desk
    requires { IsMade desk }
    ensures { IsMade result }
{
    let mut d = desk;
    for _ in 0..many {
        d = after_back(d);
    }
    d
}
