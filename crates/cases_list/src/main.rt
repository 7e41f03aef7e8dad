// Lists of records lent to a desk, run over the call and compared; a line for each case.
// The functions take the numbers that replies must have, as desk.h lays replies out with numbers.
#![tactic(auto)]

ghost use Rattle.desk.specs.Desks.{IsMade};
ghost use Rattle.desk.specs.Says.{ListSays};
ghost use Rattle.call_list.specs.Lists.{all_deps};

use cases_replies::{after_load, empty_desk, paper_p, report};
use desk::{Answer, Desk};
use paper_nests::{CARRIED, Dependence, INDEPENDENT};
use std::io;

fn main(rt: HostRuntime) -> io::Result<()> {
    let p = paper_p();
    report(&rt, 1, case_1(p))?;
    report(&rt, 2, case_2(p))?;
    report(&rt, 3, case_3(p))?;
    report(&rt, 4, case_4(p))?;
    report(&rt, 5, case_5(p))?;
    report(&rt, 6, case_6(p))?;
    report(&rt, 7, case_7(p))?;
    Ok(())
}

// P's key, 5 and 11, cuts P's own dependences.
fn case_1(p: Desk) -> bool
    requires { IsMade p }
{
    let list = [
        independent(0, 2, 5),
        carried(1, 4, 3),
        independent(0, 8, 11),
        carried(7, 10, 9),
        carried(0, 10, 2),
    ];
    replies(p, list, 0, 0, 0)
}

// The place of the first that the key doesn't cut; a carried record with s before t is cut at gap 5.
fn case_2(p: Desk) -> bool
    requires { IsMade p }
{
    let list = [
        independent(0, 4, 9),
        carried(1, 3, 4),
        independent(0, 11, 12),
        independent(0, 2, 3),
        carried(1, 4, 3),
    ];
    replies(p, list, 0, 0, 3)
}

// A faulty record comes before the reply, wherever it stands, and the first decides: 7 at place 4.
fn case_3(p: Desk) -> bool
    requires { IsMade p }
{
    let list = [
        independent(0, 2, 3),
        carried(1, 4, 3),
        independent(0, 11, 12),
        carried(1, 1, 6),
        carried(2, 4, 3),
    ];
    replies(p, list, 7, 4, 0)
}

// Of a record the lowest number: 2 for an unknown kind, whatever its points; 6 for a d that is no DO.
fn case_4(p: Desk) -> bool
    requires { IsMade p }
{
    let fair = independent(0, 2, 5);
    let unknown = Dependence {
        kind: 19,
        d: 0,
        s: 99,
        t: 1,
    };
    let six = carried(2, 4, 3);
    replies(p, [fair, unknown, six, fair, fair], 2, 2, 0)
        && replies(p, [fair, fair, six, unknown, fair], 6, 3, 0)
}

// In kind 11 the d is not read: an ENDDO, a statement, no point at all.
fn case_5(p: Desk) -> bool
    requires { IsMade p }
{
    let list = [
        independent(6, 4, 9),
        independent(3, 2, 5),
        independent(255, 8, 11),
        independent(14, 11, 12),
        independent(200, 2, 3),
    ];
    replies(p, list, 0, 0, 4)
}

// In kind 12 it is.
fn case_6(p: Desk) -> bool
    requires { IsMade p }
{
    let fair = independent(0, 2, 5);
    replies(p, [fair, fair, fair, fair, carried(255, 4, 3)], 6, 5, 0)
}

// 10 and 11 come before any fault of a record.
fn case_7(p: Desk) -> bool
    requires { IsMade p }
{
    let faulty = independent(0, 5, 5);
    let list = [faulty, faulty, faulty, faulty, faulty];
    let empty = empty_desk();
    let loaded = after_load(p, b"01\n02\n");
    replies(empty, list, 10, 0, 0) && replies(loaded, list, 11, 0, 0) && replies(p, list, 7, 1, 0)
}

// The list gets this number, place and value.
fn replies(desk: Desk, list: [Dependence; 5], number: u8, place: usize, value: usize) -> bool
    requires { IsMade desk }
{
    let answer = lend(desk, list);
    answer.number == number && answer.line == place && answer.value == value
}

// What the desk answers to the array, lent as a list.
fn lend(desk: Desk, list: [Dependence; 5]) -> Answer
    requires { IsMade desk }
    ensures { ListSays desk (all_deps list) result }
{
    call_list::check_list(desk, &list)
}

fn independent(d: u8, s: u8, t: u8) -> Dependence {
    Dependence {
        kind: INDEPENDENT,
        d,
        s,
        t,
    }
}

fn carried(d: u8, s: u8, t: u8) -> Dependence {
    Dependence {
        kind: CARRIED,
        d,
        s,
        t,
    }
}
