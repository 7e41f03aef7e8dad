// Cases of arguments, weighed and given over the calls and compared; a line for each.
// The functions take the numbers that replies must have, as desk.h lays replies out with numbers.
#![tactic(auto)]

ghost use Rattle.desk.specs.Desks.{IsMade};

use call_argue::argue;
use call_argument::{weigh, weigh_placement};
use cases_replies::{after_load, empty_desk, paper_p, paper_r, planned, report};
use desk::Desk;
use std::io;

fn main(rt: HostRuntime) -> io::Result<()> {
    report(&rt, 1, case_1())?;
    report(&rt, 2, case_2())?;
    report(&rt, 3, case_3())?;
    report(&rt, 4, case_4())?;
    report(&rt, 5, case_5())?;
    report(&rt, 6, case_6())?;
    report(&rt, 7, case_7())?;
    report(&rt, 8, case_8())?;
    report(&rt, 9, case_9())?;
    Ok(())
}

// P: dependence 0 wants a barrier of loop 1, dependence 2 one of loop 7. The same argument shows less than a dearer
// placement has: loop 0 has a barrier and no claim.
fn case_1() -> bool {
    let p = paper_p();
    let argument = b"31010000\n330000\n31070000\n330002\n";
    holds(p, argument)
        && holds_of(p, b"2105\n210b\n", argument)
        && fails_of(p, b"2103\n2109\n210d\n", argument, 21, 2, 5)
        && fails_of(p, b"2104\n2105\n210b\n", argument, 21, 2, 1)
}

// Q: the step of line 8 is led by claim 1. Of 4, 7, which is dearer, it leaves gap 7 of another loop.
fn case_2() -> bool {
    let q = planned(b"01\n03\n01\n01\n03\n03\n02\n03\n02\n02\n110105\n12030504\n110407\n");
    let argument = b"31030000\n330001\n31030504\n34\n35\n31000000\n320001\n330002\n330000\n";
    holds(q, argument)
        && fails_of(q, b"2104\n2107\n", argument, 21, 2, 8)
        && fails(q, b"31030000\n330001\n31000000\n330002\n330000\n", 21, 4)
}

// R: three dependences, no gap in all three, so two barriers; with two of them one barrier would do.
fn case_3() -> bool {
    let r = planned(b"01\n03\n03\n03\n03\n03\n03\n02\n110104\n110306\n12000502\n");
    holds(r, b"31000000\n330001\n330002\n330000\n")
        && fails(r, b"31000000\n330001\n330002\n", 21, 1)
        && fails_of(
            r,
            b"2101\n2104\n2107\n",
            b"31000000\n330001\n330002\n330000\n",
            21,
            2,
            1,
        )
}

// Lines of P's argument that do not hold: a set that is not there, one that is not of the loop, a claim that leads
// nothing here, a claim of no loop; a claim too few has the line after the last.
fn case_4() -> bool {
    let p = paper_p();
    fails(p, b"31010000\n330006\n", 21, 2)
        && fails(p, b"31010000\n34\n", 21, 2)
        && fails(p, b"31010000\n330004\n", 21, 2)
        && fails(p, b"31010000\n320000\n330000\n", 21, 3)
        && fails(p, b"31020000\n330000\n", 21, 1)
        && fails(p, b"31010000\n330000\n", 21, 3)
        && fails(p, b"", 21, 1)
}

// Faults of the text: 1, 2, a step before any claim, a claim that waits for its step.
fn case_5() -> bool {
    let p = paper_p();
    fails(p, b"31010000\n33000\n", 1, 2)
        && fails(p, b"310100\n", 2, 1)
        && fails(p, b"36\n", 2, 1)
        && fails(p, b"330000\n", 4, 1)
        && fails(p, b"31010000\n320000\n31010000\n", 4, 3)
        && fails(p, b"31010000\n320000\n320000\n", 4, 3)
        && fails(p, b"31010000\n320000\n", 4, 3)
}

// 10, 11; then the placement's text, 1 with its line; the argument's, 2 with its line; then a placement that is not
// correct, 1 with line 0. No key is wanted for a placement text.
fn case_6() -> bool {
    let p = paper_p();
    let unplanned = after_load(p, b"01\n03\n03\n02\n110102\n1301\n");
    let argument = b"31000000\n330000\n";
    refuses(empty_desk(), b"zz\n", 10)
        && refuses(unplanned, b"zz\n", 11)
        && holds_of(unplanned, b"2102\n", argument)
        && fails_of(empty_desk(), b"zz\n", b"zz\n", 10, 0, 0)
        && fails_of(unplanned, b"2101\n", b"zz\n", 16, 1, 1)
        && fails_of(unplanned, b"2102\n2102\n", argument, 8, 1, 2)
        && fails_of(unplanned, b"2103\n", b"31000000\nzz\n", 1, 2, 2)
        && fails_of(unplanned, b"2103\n", argument, 21, 1, 0)
        && fails_of(unplanned, b"", argument, 21, 1, 0)
}

// The arguments that are given of P, Q, R and a paper with a barred gap. In Q's, steps of loop 2 are led by the claim
// on loop 3 that has both of its gaps.
fn case_7() -> bool {
    let p = paper_p();
    let q = planned(b"01\n03\n01\n01\n03\n03\n02\n03\n02\n02\n110105\n12030504\n110407\n");
    let barred = planned(b"01\n03\n03\n02\n110102\n1301\n");
    gives(
        p,
        b"31070000\n330002\n31070008\n330002\n35\n31070c00\n34\n330002\n31070a0a\n34\n330003\n35\n\
        31070808\n330002\n35\n31010000\n330000\n31010002\n330000\n35\n31010600\n34\n330000\n\
        31010404\n34\n330001\n35\n31010202\n330000\n35\n",
    ) && gives(
        q,
        b"31030000\n330001\n31030505\n34\n330001\n35\n31020005\n320001\n330002\n35\n31020700\n34\n\
            31020305\n320001\n330002\n35\n31000000\n330000\n",
    ) && gives(paper_r(), b"31000000\n330001\n330002\n330000\n")
        && gives(barred, b"31000000\n330000\n")
}

// A buffer of the length of R's argument, one longer, one shorter, one of no length: later bytes stay; refused all do,
// and the value is the length that is wanted.
fn case_8() -> bool {
    let r = paper_r();
    let text = b"31000000\n330001\n330002\n330000\n";
    let mut exact = [7; 30];
    let mut longer = [7; 31];
    let mut shorter = [7; 29];
    let mut none = [7; 0];
    let whole = argue(r, &mut exact);
    let more = argue(r, &mut longer);
    let less = argue(r, &mut shorter);
    let no = argue(r, &mut none);
    whole.number == 0
        && check::same(&exact, text)
        && more.value == 30
        && check::same(&longer[..30], text)
        && longer[30] == 7
        && less.number == 9
        && less.line == 0
        && less.value == 30
        && check::same(&shorter, &[7; 29])
        && no.number == 9
        && no.value == 30
}

// 10, 11, whatever the buffer; a paper that needs no barrier has an argument of no claim.
fn case_9() -> bool {
    let unplanned = after_load(paper_p(), b"01\n03\n03\n02\n110102\n1301\n");
    gives_none(empty_desk(), 10)
        && gives_none(unplanned, 11)
        && gives(planned(b"01\n03\n02\n"), b"")
}

// The argument holds of the key.
fn holds(desk: Desk, text: &[u8]) -> bool
    requires { IsMade desk }
{
    let w = weigh(desk, text);
    w.number == 0 && w.text == 0 && w.line == 0
}

// It does not: this number, and this line of the argument.
fn fails(desk: Desk, text: &[u8], number: u8, line: usize) -> bool
    requires { IsMade desk }
{
    let w = weigh(desk, text);
    w.number == number && w.text == 2 && w.line == line
}

// There is no nest, or no key.
fn refuses(desk: Desk, text: &[u8], number: u8) -> bool
    requires { IsMade desk }
{
    let w = weigh(desk, text);
    w.number == number && w.text == 0 && w.line == 0
}

// This is the argument that is given, and it holds.
fn gives(desk: Desk, text: &[u8]) -> bool
    requires { IsMade desk }
{
    let mut out = [0; 256];
    let answer = argue(desk, &mut out);
    let length = answer.value;
    if length <= out.len() {
        return answer.number == 0
            && answer.line == 0
            && check::same(&out[..length], text)
            && holds(desk, text);
    }
    false
}

// There is no nest, or no key, and the buffer stays.
fn gives_none(desk: Desk, number: u8) -> bool
    requires { IsMade desk }
{
    let mut out = [7; 40];
    let answer = argue(desk, &mut out);
    answer.number == number && answer.line == 0 && answer.value == 0 && check::same(&out, &[7; 40])
}

// The argument holds of the placement.
fn holds_of(desk: Desk, placement: &[u8], text: &[u8]) -> bool
    requires { IsMade desk }
{
    let w = weigh_placement(desk, placement, text);
    w.number == 0 && w.text == 0 && w.line == 0
}

// It does not: this number, the text at fault and its line.
fn fails_of(
    desk: Desk,
    placement: &[u8],
    argument: &[u8],
    number: u8,
    text: u8,
    line: usize,
) -> bool
    requires { IsMade desk }
{
    let w = weigh_placement(desk, placement, argument);
    w.number == number && w.text == text && w.line == line
}
