// Cases of slips for two readers (change request 9), run over the desk's calls and compared; a line for each.
// The functions take the numbers that replies must have, as desk.h lays replies out with numbers.
#![tactic(auto)]

ghost use Rattle.desk.specs.Desks.{IsMade};

use call_slips::{candidate_slip, examiner_slip};
use cases_replies::{after_load, after_put, empty_desk, paper_p, paper_r, planned, report};
use desk::Desk;
use std::io;

fn main(rt: HostRuntime) -> io::Result<()> {
    report(&rt, 1, case_1())?;
    report(&rt, 2, case_2())?;
    report(&rt, 3, case_3())?;
    report(&rt, 4, case_4())?;
    report(&rt, 5, case_5())?;
    report(&rt, 6, case_6())?;
    report(&rt, 7, case_7())?;
    report(&rt, 8, case_8())?;
    report(&rt, 9, case_9())?;
    Ok(())
}

// P: its own key, two that leave a dependence uncut, no barrier at all.
fn case_1() -> bool {
    let p = paper_p();
    shows(p, b"2105\n210b\n", b"23ffff\n220000\n220101\n220701\n")
        && tells(
            p,
            b"2105\n210b\n",
            b"2402000000\n2505\n2505\n250b\n250b\n250b\n2505\n",
        )
        && shows(p, b"2103\n2109\n", b"230004\n220000\n220101\n220701\n")
        && tells(
            p,
            b"2103\n2109\n",
            b"2400000000\n2503\n2503\n2509\n2509\n2500\n2509\n",
        )
        && shows(p, b"2103\n210b\n", b"230005\n220000\n220101\n220701\n")
        && shows(p, b"", b"230000\n220000\n220100\n220700\n")
        && tells(p, b"", b"2400000000\n2500\n2500\n2500\n2500\n2500\n2500\n")
}

// P: dearer at loop 0, at loop 7; of two gaps that cut a dependence the lower is told.
fn case_2() -> bool {
    let p = paper_p();
    shows(
        p,
        b"2103\n2109\n210d\n",
        b"23ffff\n220001\n220101\n220701\n",
    ) && tells(
        p,
        b"2103\n2109\n210d\n",
        b"2401000100\n2503\n2503\n2509\n2509\n250d\n2509\n",
    ) && tells(
        p,
        b"2105\n210a\n210b\n",
        b"2401070201\n2505\n2505\n250a\n250b\n250b\n2505\n",
    )
}

// Q: loops in order of their DO, dearer at loop 2; its key.
fn case_3() -> bool {
    let q = planned(b"01\n03\n01\n01\n03\n03\n02\n03\n02\n02\n110105\n12030504\n110407\n");
    shows(q, b"2104\n2107\n", b"23ffff\n220000\n220201\n220301\n")
        && tells(q, b"2104\n2107\n", b"2401020100\n2504\n2504\n2507\n")
        && tells(q, b"2102\n2106\n", b"2402000000\n2502\n2506\n2506\n")
}

// R: another of its keys is best too; one gap leaves the last dependence uncut.
fn case_4() -> bool {
    let r = paper_r();
    shows(r, b"2104\n2107\n", b"23ffff\n220002\n")
        && tells(r, b"2104\n2107\n", b"2402000000\n2504\n2504\n2507\n")
        && shows(r, b"2104\n", b"230002\n220001\n")
        && tells(r, b"2104\n", b"2400000000\n2504\n2504\n2500\n")
}

// The candidate's slip needs no key, and no sitting changes it.
fn case_5() -> bool {
    let p = paper_p();
    let unplanned = after_load(p, b"01\n02\n110001\n");
    let moved = after_put(p, 5);
    shows(unplanned, b"2101\n", b"23ffff\n220001\n")
        && shows(unplanned, b"", b"230000\n220000\n")
        && shows(moved, b"2105\n210b\n", b"23ffff\n220000\n220101\n220701\n")
        && no_slip(unplanned, b"", 9, 0, 11, 0)
}

// Numbers in their order: 10, 11 for the examiner, the faults of the text with their line, 9.
fn case_6() -> bool {
    let p = paper_p();
    let empty = empty_desk();
    no_slip(empty, b"zz\n", 10, 0, 10, 0)
        && no_slip(p, b"2105\nzz\n", 1, 2, 1, 2)
        && no_slip(p, b"2205\n", 2, 1, 2, 1)
        && no_slip(p, b"2105\n210e\n", 8, 2, 8, 2)
        && no_slip(p, b"2105\n210b\n", 9, 0, 9, 0)
}

// A buffer of the slip's length, one longer, one shorter: later bytes stay, and refused all do.
fn case_7() -> bool {
    let p = paper_p();
    let slip = b"23ffff\n220000\n220101\n220701\n";
    let mut exact = [7; 28];
    let mut longer = [7; 29];
    let mut shorter = [7; 27];
    let whole = candidate_slip(p, b"2105\n210b\n", &mut exact);
    let more = candidate_slip(p, b"2105\n210b\n", &mut longer);
    let less = candidate_slip(p, b"2105\n210b\n", &mut shorter);
    whole.number == 0
        && check::same(&exact, slip)
        && more.value == 28
        && check::same(&longer[..28], slip)
        && longer[28] == 7
        && less.number == 9
        && check::same(&shorter, &[7; 27])
}

// The same of the examiner's: 69 bytes for P.
fn case_8() -> bool {
    let p = paper_p();
    let mut longer = [7; 70];
    let mut shorter = [7; 68];
    let more = examiner_slip(p, b"2105\n210b\n", &mut longer);
    let less = examiner_slip(p, b"2105\n210b\n", &mut shorter);
    more.number == 0
        && more.value == 69
        && longer[68] == 10
        && longer[69] == 7
        && less.number == 9
        && less.value == 0
        && check::same(&shorter, &[7; 68])
}

// Barred gaps: a text with one is 16 with its line, before 9; on a blocked paper, which has no key, the candidate's slip
// is to be had.
fn case_9() -> bool {
    let barred = planned(b"01\n03\n03\n03\n02\n110103\n1302\n");
    let blocked = after_load(empty_desk(), b"01\n03\n03\n02\n1302\n110102\n");
    shows(barred, b"2103\n", b"23ffff\n220001\n")
        && tells(barred, b"2103\n", b"2402000000\n2503\n")
        && no_slip(barred, b"2101\n2102\n", 16, 2, 16, 2)
        && shows(blocked, b"2101\n", b"230000\n220001\n")
        && no_slip(blocked, b"2102\n", 16, 1, 11, 0)
}

// The candidate's slip of the text is this.
fn shows(desk: Desk, text: &[u8], slip: &[u8]) -> bool
    requires { IsMade desk }
{
    let mut out = [0; 256];
    let answer = candidate_slip(desk, text, &mut out);
    let length = answer.value;
    if length <= out.len() {
        return answer.number == 0 && answer.line == 0 && check::same(&out[..length], slip);
    }
    false
}

// The examiner's slip goes on with this where the candidate's ends.
fn tells(desk: Desk, text: &[u8], rest: &[u8]) -> bool
    requires { IsMade desk }
{
    let mut out = [0; 256];
    let mut front = [0; 256];
    let whole = examiner_slip(desk, text, &mut out);
    let begins = candidate_slip(desk, text, &mut front);
    let length = whole.value;
    let at = begins.value;
    if length <= out.len() {
        if at <= length {
            return whole.number == 0
                && whole.line == 0
                && check::same(&out[..at], &front[..at])
                && check::same(&out[at..length], rest);
        }
    }
    false
}

// Into no room at all: the candidate's refusal and the examiner's, by number and line.
fn no_slip(
    desk: Desk,
    text: &[u8],
    number: u8,
    line: usize,
    examiner_number: u8,
    examiner_line: usize,
) -> bool
    requires { IsMade desk }
{
    let mut out = [0; 0];
    let one = candidate_slip(desk, text, &mut out);
    let other = examiner_slip(desk, text, &mut out);
    one.number == number
        && one.line == line
        && one.value == 0
        && other.number == examiner_number
        && other.line == examiner_line
        && other.value == 0
}
