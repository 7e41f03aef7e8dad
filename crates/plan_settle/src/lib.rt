// Settling a loop: its row and the rows of all loops inside it, the inner ones first.
#![tactic(auto)]

ghost use Rattle.std.specs.Prelude.{◌≡◌, true, ◌≤◌, length};
ghost use Rattle.paper_nests.specs.Loops.{is_do, end_of};
ghost use Rattle.plan_rows.specs.Made.{ListsRoom};
ghost use Rattle.plan_settle.specs.Settled.{HasHeight, Charts, Room, Unset, QuietSays, SettleSays};

use plan_rows::Lines;
use plan_tables::{Chart, ROW};

// A loop's row is made after the rows of the loops directly inside it; all rows are made in the same four lists. Where
// nothing is to be cut in a loop nor inside it, all its rows stay 0. The lists that are written stay beside each other:
// a struct of them would need a clause for each field that it keeps its reference, which is no plainer.
#[tactic(auto, using(paper_nests::proofs::Loops::end_there))]
pub fn settle(
    chart: &Chart,
    lines: &Lines,
    left: &mut [u16],
    choice: &mut [u16],
    need: &mut [usize],
    cs: &mut [u16],
    fs: &mut [u16],
    link: &mut [u16],
    d: usize,
    h: usize,
)
    requires lists_room { ListsRoom need.old cs.old fs.old link.old }
    requires charts { Charts chart.now.points.now chart.now.own.now chart.now.ends.now }
    requires room { Room lines.now.reach.now lines.now.limit.now lines.now.has.now left.old choice.old }
    requires d_value { is_do chart.now.points.now d ≡ true }
    requires has_height { HasHeight chart.now.points.now d h }
    requires unset { Unset left.old d (end_of chart.now.points.now d) }
    requires unset_2 { Unset choice.old d (end_of chart.now.points.now d) }
    ensures { SettleSays chart.now.points.now lines.now.reach.now lines.now.limit.now lines.now.has.now
        left.old choice.old left.new choice.new d }
{
    let e = chart.ends[d];
    if is_quiet(lines.has, d, e) {
        return;
    }
    let base = h * ROW;
    let kids = base - ROW;
    let mut some = lines.has[d];
    let mut i = d + 1;
    // No range: after a loop inside the next point is the one behind its ENDDO, and a range would walk through it.
    while i < e {
        if chart.points[i] == paper_nests::DO {
            settle(chart, lines, left, choice, need, cs, fs, link, i, h - 1);
            let first = left[kids + (i + 1)] as usize;
            some = plan_sweeps::first_or(first, some);
            i = chart.ends[i] + 1;
        } else {
            i += 1;
        }
    }
    plan_rows::make_row(
        chart, lines, left, choice, need, cs, fs, link, base, d, e, some,
    );
}

// Whether no loop from d up to e is the home of a dependence.
fn is_quiet(has: &[usize], d: usize, e: usize) -> bool
    requires { e ≤ length has.now }
    ensures { QuietSays has.now d e result }
{
    for i in d..e {
        if has[i] != 0 {
            return false;
        }
    }
    true
}
