// Cases of timing sheets (change request 14), run and compared; a line for each.
#![tactic(auto)]

use call_sheet::ends;
use cases_replies::report;
use std::io;

fn main(rt: HostRuntime) -> io::Result<()> {
    report(&rt, 1, case_1())?;
    report(&rt, 2, case_2())?;
    report(&rt, 3, case_3())?;
    report(&rt, 4, case_4())?;
    report(&rt, 5, case_5())?;
    Ok(())
}

// Two processors, two phases: each waits for itself, one waits for both, both do.
fn case_1() -> bool {
    let durations = [3, 1, 1, 3];
    let apart = [1, 2];
    let second = [1, 3];
    let first = [3, 2];
    let together = [3, 3];
    ends_at(2, 2, &durations, &apart, 4, 6)
        && ends_at(2, 2, &durations, &second, 6, 6)
        && ends_at(2, 2, &durations, &first, 4, 6)
        && ends_at(2, 2, &durations, &together, 6, 6)
}

// Three processors, three phases: a wait is passed on through a phase; one phase, one processor.
fn case_2() -> bool {
    let durations = [9, 1, 1, 1, 1, 1, 1, 1, 7];
    let chain = [1, 3, 4, 1, 2, 6];
    let alone = [1, 2, 4, 1, 2, 4];
    let line = [1, 1, 1, 1, 1, 1, 1, 1];
    ends_at(3, 3, &durations, &chain, 17, 17)
        && ends_at(3, 3, &durations, &alone, 11, 17)
        && ends_at(3, 1, &durations[..3], &chain[..0], 9, 9)
        && ends_at(1, 9, &durations, &line, 23, 23)
}

// The most processors, phases and durations.
fn case_3() -> bool {
    let durations = [65535; 1024];
    let waits = [65535; 1008];
    ends_at(16, 64, &durations, &waits, 4194240, 4194240)
}

// 19: a count out of range, a slice too short or too long.
fn case_4() -> bool {
    let durations = [1; 130];
    let waits = [1; 128];
    is_refused(0, 1, &durations[..0], &waits[..0], 19)
        && is_refused(17, 1, &durations[..17], &waits[..0], 19)
        && is_refused(1, 0, &durations[..0], &waits[..0], 19)
        && is_refused(1, 65, &durations[..65], &waits[..64], 19)
        && ends_at(1, 64, &durations[..64], &waits[..63], 64, 64)
        && is_refused(1, 64, &durations[..63], &waits[..63], 19)
        && is_refused(1, 64, &durations[..65], &waits[..63], 19)
        && is_refused(1, 64, &durations[..64], &waits[..62], 19)
        && is_refused(1, 64, &durations[..64], &waits[..64], 19)
}

// 20: a set without its own processor, or with one that does not exist; 19 comes before it.
fn case_5() -> bool {
    let durations = [3, 1, 1, 3];
    let without = [1, 1];
    let beyond = [5, 2];
    let nobody = [0, 2];
    is_refused(2, 2, &durations, &without, 20)
        && is_refused(2, 2, &durations, &beyond, 20)
        && is_refused(2, 2, &durations, &nobody, 20)
        && is_refused(2, 2, &durations[..3], &beyond, 19)
}

// The sheet has no fault, and its run ends so with its waits and with all barriers kept.
fn ends_at(
    processors: usize,
    phases: usize,
    durations: &[u16],
    waits: &[u16],
    waiting: u32,
    barriers: u32,
) -> bool {
    let r = ends(processors, phases, durations, waits);
    r.number == 0 && r.line == 0 && r.waiting == waiting && r.barriers == barriers
}

// The sheet gets the number, with zeros.
// Numbers stand here as bytes: the C interface (desk.h) lays the reply out with them, and document 01 writes them.
fn is_refused(
    processors: usize,
    phases: usize,
    durations: &[u16],
    waits: &[u16],
    number: u8,
) -> bool {
    let r = ends(processors, phases, durations, waits);
    r.number == number && r.line == 0 && r.waiting == 0 && r.barriers == 0
}
