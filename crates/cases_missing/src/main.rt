// The cases of loops that may not run (change request 10), run over the desk's calls and compared; a line for each.
// The functions take the numbers that replies must have, as desk.h lays replies out with numbers.
#![tactic(auto)]

ghost use Rattle.desk.specs.Desks.{IsMade};

use call_missing::missing_runs;
use call_skipped::{one_end, relied_on};
use cases_replies::{
    after_load, after_put, empty_desk, has_count, has_key, is_best, is_chosen, is_refused, paper_p,
    planned, report,
};
use desk::{Chosen, Desk};
use std::io;

fn main(rt: HostRuntime) -> io::Result<()> {
    report(&rt, 1, case_1())?;
    report(&rt, 2, case_2())?;
    report(&rt, 3, case_3())?;
    report(&rt, 4, case_4())?;
    report(&rt, 5, case_5())?;
    report(&rt, 6, case_6())?;
    report(&rt, 7, case_7())?;
    Ok(())
}

// A dependence over loop 2, which only the key's barrier inside it cuts: listed. Not so where another barrier cuts it
// too, where it begins at the loop's own DO, or where the loop is not flagged.
fn case_1() -> bool {
    misses(
        planned(b"01\n03\n04\n03\n03\n02\n03\n02\n12020403\n110106\n"),
        4,
    ) && misses(
        planned(b"01\n03\n03\n04\n03\n03\n02\n03\n02\n12030504\n110102\n110107\n"),
        0,
    ) && misses(
        planned(b"01\n03\n04\n03\n03\n02\n03\n02\n12020403\n110206\n"),
        0,
    ) && misses(
        planned(b"01\n03\n01\n03\n03\n02\n03\n02\n12020403\n110106\n"),
        0,
    )
}

// Two loops, one inside the other, and two side by side: all foreign loops with a barrier that cuts are listed.
fn case_2() -> bool {
    misses(
        planned(b"01\n03\n04\n04\n03\n03\n02\n02\n03\n02\n12030504\n110108\n"),
        4 + 8,
    ) && misses(
        planned(b"01\n03\n01\n04\n03\n03\n02\n02\n03\n02\n12030504\n110108\n"),
        8,
    ) && misses(
        planned(b"01\n03\n04\n03\n02\n04\n03\n02\n03\n02\n12020303\n12050606\n110108\n"),
        4 + 32,
    ) && misses(
        planned(b"01\n03\n04\n03\n02\n01\n03\n02\n03\n02\n12020303\n12050606\n110108\n"),
        0,
    )
}

// In all else it is a DO: the key, the counts and the marks are as before, and the candidate's sitting changes nothing.
fn case_3() -> bool {
    let p = planned(
        b"04\n04\n03\n03\n03\n03\n02\n04\n03\n03\n03\n03\n02\n02\n110205\n12010403\n11080b\n12070a09\n12000a02\n110409\n",
    );
    let moved = after_put(p, 5);
    has_key(p, b"2105\n210b\n")
        && has_count(p, 0, 0)
        && has_count(p, 7, 1)
        && is_best(p, b"2105\n210b\n")
        && misses(p, 0)
        && misses(moved, 0)
        && misses(paper_p(), 0)
}

// With a barred gap, which it may have where it is the only loop.
fn case_4() -> bool {
    let one = planned(b"04\n03\n03\n02\n12000201\n1301\n");
    has_key(one, b"2103\n") && misses(one, 0) && is_refused(b"04\n04\n02\n02\n1301\n", 14, 5)
}

// 10 and 11; a flagged DO of two bytes, after a dependence, after the last ENDDO, nine deep; a loop left open.
fn case_5() -> bool {
    is_chosen(missing_runs(empty_desk()), 10, 0)
        && is_chosen(missing_runs(loaded(b"04\n02\n")), 11, 0)
        && is_refused(b"0400\n", 2, 1)
        && is_refused(b"04\n03\n02\n110001\n04\n", 3, 5)
        && is_refused(b"04\n02\n04\n", 4, 3)
        && is_refused(b"04\n04\n04\n04\n04\n04\n04\n04\n04\n", 5, 9)
        && is_refused(b"04\n04\n02\n", 4, 4)
}

// On which loops a placement relies: on both where each has one of the two barriers; on none where one stands outside,
// where the dependence has an end in the loop, or where none cuts it. A text that is refused, a dependence that is none.
fn case_6() -> bool {
    let desk = loaded(b"01\n03\n04\n03\n02\n04\n03\n02\n03\n02\n12020303\n110108\n");
    is_chosen(relied_on(desk, b"2103\n2106\n", 1), 0, 4 + 32)
        && is_chosen(relied_on(desk, b"2104\n", 1), 0, 4)
        && is_chosen(relied_on(desk, b"2103\n2105\n", 1), 0, 0)
        && is_chosen(relied_on(desk, b"2103\n", 0), 0, 0)
        && is_chosen(relied_on(desk, b"2109\n", 1), 0, 0)
        && is_chosen(relied_on(desk, b"2103\n", 2), 6, 0)
        && is_at_line(relied_on(desk, b"2103\n2103\n", 2), 8, 2)
        && is_chosen(relied_on(empty_desk(), b"00\n", 0), 10, 0)
}

// Which loops have one end alone: of a carried dependence with s before t, that ends or begins inside. Not where it goes
// back, nor within one turn, nor from the loop's own DO; where no dependence has the number; without a nest.
fn case_7() -> bool {
    let desk = loaded(
        b"01\n03\n04\n03\n02\n03\n02\n12000103\n12000305\n12000501\n110103\n12000205\n12000105\n",
    );
    is_chosen(one_end(desk, 0), 0, 4)
        && is_chosen(one_end(desk, 1), 0, 4)
        && is_chosen(one_end(desk, 2), 0, 0)
        && is_chosen(one_end(desk, 3), 0, 0)
        && is_chosen(one_end(desk, 4), 0, 0)
        && is_chosen(one_end(desk, 5), 0, 0)
        && is_chosen(one_end(desk, 6), 6, 0)
        && is_chosen(one_end(empty_desk(), 0), 10, 0)
}

fn loaded(text: &[u8]) -> Desk
    ensures { IsMade result }
{
    after_load(empty_desk(), text)
}

// The text is refused with this number, at this line.
fn is_at_line(reply: Chosen, number: u8, line: usize) -> bool {
    reply.number == number && reply.line == line
}

// The call gives the DOs of this word.
fn misses(desk: Desk, dos: u64) -> bool
    requires { IsMade desk }
{
    is_chosen(missing_runs(desk), 0, dos)
}
