// Cases of tries for fewer calls where loops run once (change request 13), run over the call and compared; a line for
// each.
#![tactic(auto)]

ghost use Rattle.desk.specs.Desks.{IsMade};

use call_improve::{BUDGET, ROUND, improve};
use cases_replies::{after_load, empty_desk, paper_p, planned, report};
use desk::Desk;
use std::io;

fn main(rt: HostRuntime) -> io::Result<()> {
    report(&rt, 1, case_1())?;
    report(&rt, 2, case_2())?;
    report(&rt, 3, case_3())?;
    report(&rt, 4, case_4())?;
    report(&rt, 5, case_5())?;
    Ok(())
}

// The nest of WHY, whose key is 2, 7, with both loops run once: the third try, gap 4 alone, has one call, and the round
// of seven tries after it changes nothing.
fn case_1() -> bool {
    let once = worked();
    improves(once, &[1, 1], 10, 16, 1, 10, ROUND, 1)
        && improves(once, &[1, 1], 0, 4 + 128, 2, 0, BUDGET, 1)
        && improves(once, &[1, 1], 2, 4 + 128, 2, 2, BUDGET, 1)
        && improves(once, &[1, 1], 3, 16, 1, 3, BUDGET, 1)
        && improves(once, &[1, 1], 9, 16, 1, 9, BUDGET, 1)
        && improves(once, &[1, 1], 11, 16, 1, 10, ROUND, 1)
        && improves(once, &[1, 1], 18446744073709551615, 16, 1, 10, ROUND, 1)
        && improves(once, &[2, 1], 10, 16, 2, 10, ROUND, 2)
}

// Equal calls are not taken: gap 4 alone has as many as the key, and more with more turns inside. P, whose key has the
// floor's calls.
fn case_2() -> bool {
    let once = worked();
    let p = paper_p();
    improves(once, &[3, 2], 10, 4 + 128, 6, 6, ROUND, 3)
        && improves(once, &[3, 2], 6, 4 + 128, 6, 6, ROUND, 3)
        && improves(once, &[3, 2], 5, 4 + 128, 6, 5, BUDGET, 3)
        && improves(once, &[1, 16], 100, 4 + 128, 2, 6, ROUND, 1)
        && improves(p, &[2, 3, 1], 100, 32 + 2048, 8, 11, ROUND, 8)
}

// A round with no gap to try is whole, also without a budget; a barrier that no dependence wants is not taken.
fn case_3() -> bool {
    let full = planned(b"01\n03\n02\n110001\n110102\n");
    let blank = planned(b"");
    improves(full, &[3], 0, 2 + 4, 6, 0, ROUND, 6)
        && improves(blank, &[16], 5, 0, 0, 1, ROUND, 0)
        && improves(blank, &[16], 0, 0, 0, 0, BUDGET, 0)
}

// 17: a list too short or too long, no turn, 17 turns, a barred gap, a loop that may not run.
fn case_4() -> bool {
    let once = worked();
    let barred = planned(b"01\n03\n03\n02\n110102\n1301\n");
    improves_not(once, &[1], 17)
        && improves_not(once, &[1, 1, 1], 17)
        && improves_not(once, &[0, 1], 17)
        && improves_not(once, &[1, 0], 17)
        && improves_not(once, &[17, 1], 17)
        && improves_not(once, &[1, 17], 17)
        && improves_not(barred, &[1], 17)
        && improves_not(planned(b"01\n04\n02\n02\n110003\n"), &[1, 1], 17)
}

// 10 and 11 come before 17.
fn case_5() -> bool {
    let p = paper_p();
    let unplanned = after_load(p, b"01\n02\n110001\n");
    improves_not(empty_desk(), &[0], 10)
        && improves_not(unplanned, &[0], 11)
        && improves_not(unplanned, &[1], 11)
}

// The nest of WHY in which loops that run once make the key dearer.
fn worked() -> Desk
    ensures { IsMade result }
{
    planned(b"01\n03\n01\n03\n03\n03\n02\n03\n02\n110104\n110307\n")
}

// The call gives the gaps of this word, their calls, the tries, what ended them, and the floor. Numbers and what ended
// the tries stand here as bytes: the C interface (desk.h) lays the reply out with them, and document 01 writes the
// numbers.
fn improves(
    desk: Desk,
    turns: &[u8],
    budget: usize,
    gaps: u64,
    calls: u64,
    tries: usize,
    ended: u8,
    floor: u64,
) -> bool
    requires { IsMade desk }
{
    let reply = improve(desk, turns, budget);
    let words = reply.placement.words;
    reply.number == 0
        && reply.line == 0
        && words[0] == gaps
        && words[1] == 0
        && words[2] == 0
        && words[3] == 0
        && reply.calls == calls
        && reply.tries == tries
        && reply.ended == ended
        && reply.floor == floor
}

// The call refuses these turns with this number, and all else is 0.
fn improves_not(desk: Desk, turns: &[u8], number: u8) -> bool
    requires { IsMade desk }
{
    let reply = improve(desk, turns, 1000);
    let words = reply.placement.words;
    reply.number == number
        && reply.line == 0
        && words[0] == 0
        && words[1] == 0
        && words[2] == 0
        && words[3] == 0
        && reply.calls == 0
        && reply.tries == 0
        && reply.ended == 0
        && reply.floor == 0
}
