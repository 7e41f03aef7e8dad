// The cases of the textbook method (request 8), run over its call and compared; a line for each.
#![tactic(auto)]

ghost use Rattle.desk.specs.Desks.{IsMade};

use cases_replies::{
    after_load, empty_desk, has_key, is_chosen, paper_p, paper_r, planned, report,
};
use desk::Desk;
use std::io;

fn main(rt: HostRuntime) -> io::Result<()> {
    report(&rt, 24, case_24())?;
    report(&rt, 25, case_25())?;
    report(&rt, 26, case_26())?;
    Ok(())
}

// As many barriers as the key, and not always where it has them: 1 and 3, where the key is 1 and 2. R; a whole ring;
// equal ends.
fn case_24() -> bool {
    let either = planned(b"01\n03\n03\n02\n110001\n110103\n");
    has_key(either, b"2101\n2102\n")
        && chooses(either, 0, 2 + 8)
        && chooses(paper_r(), 0, 2 + 16)
        && chooses(loaded(b"01\n03\n02\n12000101\n"), 0, 2)
        && chooses(loaded(b"01\n03\n03\n02\n110002\n110102\n12000202\n"), 0, 4)
}

// Barred gaps are not tried, and a cut goes to the last gap that is not barred; without a dependence there is none.
fn case_25() -> bool {
    chooses(loaded(b"01\n03\n03\n03\n02\n110103\n1303\n"), 0, 4)
        && chooses(
            loaded(b"01\n03\n03\n03\n03\n03\n02\n12000503\n12000401\n110005\n1301\n1302\n1304\n"),
            0,
            8 + 64,
        )
        && chooses(loaded(b"01\n03\n02\n1301\n1302\n"), 0, 0)
        && chooses(loaded(b"01\n02\n"), 0, 0)
}

// 10, then 14, then 15; no key is wanted.
fn case_26() -> bool {
    chooses(empty_desk(), 10, 0)
        && chooses(paper_p(), 14, 0)
        && chooses(loaded(b"01\n03\n03\n02\n110102\n1302\n"), 15, 0)
}

fn loaded(text: &[u8]) -> Desk
    ensures { IsMade result }
{
    after_load(empty_desk(), text)
}

// The call replies this number, and the gaps of this word.
// Numbers stand here as bytes: the C interface (desk.h) lays the reply out with them, and document 01 writes them.
fn chooses(desk: Desk, number: u8, gaps: u64) -> bool
    requires { IsMade desk }
{
    is_chosen(call_textbook::textbook(desk), number, gaps)
}
