// Laying the key down: the sweep of a loop once more, which now puts its barriers and lays the loops inside.
#![tactic(auto)]

ghost use Rattle.std.specs.Prelude.{◌≡◌, true, ◌<◌, ◌≤◌, length};
ghost use Rattle.paper_nests.specs.Loops.{is_do, end_of};
ghost use Rattle.plan_starts.specs.Grounds.{Kept};
ghost use Rattle.plan_settle.specs.Settled.{HasHeight, Charts};
ghost use Rattle.plan_lay.specs.Laid.{LayRoom, Choices, PutSays, LaySays};

use paper_placements::Placement;
use plan_rows::Lines;
use plan_tables::{Chart, ROW};

// The rows of all loops: their fronts and their choices.
#[derive(Clone, Copy)]
pub struct Rows<'a> {
    pub left: &'a [u16],
    pub choice: &'a [u16],
}

// What the loop d lays for the suffix that starts at q, added to a placement. The loops inside write to their own part
// of the row that is swept, which the sweep has passed by then.
#[tactic(auto, using(paper_nests::proofs::Loops::end_there))]
pub fn lay(
    chart: &Chart,
    lines: &Lines,
    rows: &Rows,
    need: &mut [usize],
    d: usize,
    q: usize,
    h: usize,
    key: Placement,
) -> Placement
    requires in_bounds { 256 ≤ length need.old }
    requires charts { Charts chart.now.points.now chart.now.own.now chart.now.ends.now }
    requires lay_room { LayRoom lines.now.reach.now lines.now.limit.now rows.now.left.now rows.now.choice.now }
    requires d_value { is_do chart.now.points.now d ≡ true }
    requires has_height { HasHeight chart.now.points.now d h }
    requires d_lt_q { d < q }
    requires q_bound { q ≤ end_of chart.now.points.now d }
    requires choices { Choices chart.now.points.now rows.now.left.now rows.now.choice.now d
        (end_of chart.now.points.now d) }
    ensures lay_says { LaySays chart.now.points.now lines.now.reach.now lines.now.limit.now
        rows.now.left.now rows.now.choice.now d q key.words result.words }
    ensures kept { Kept need.old need.new d (end_of chart.now.points.now d) }
{
    let base = h * ROW;
    if rows.left[base + q] == 0 {
        return key;
    }
    let e = chart.ends[d];
    let last = rows.choice[base + q] as usize;
    plan_rows::copy_row(lines.reach, base, d, e, need);
    need[last] = need[last].min(e);
    let mut k = key;
    let mut c = 0;
    let mut f = e + 1;
    let mut p = e;
    // No range: after a loop inside the next point is its DO, and a range would walk through it.
    while d < p {
        let before = p - 1;
        if chart.points[before] == paper_nests::ENDDO {
            let l = chart.own[before];
            let s = plan_sweeps::step_child(need, rows.left, base - ROW, l, before, c, f);
            let more = put_where(k, c, s.c, p);
            k = lay(chart, lines, rows, need, l, s.ask, h - 1, more);
            c = s.c;
            f = s.f;
            p = l;
        } else {
            if need[p] < f {
                k = k.put(p);
                c += 1;
                f = p;
            }
            p = before;
        }
    }
    put_where(k, lines.limit[base + last] as usize, f, d + 1)
}

// The placement with gap g as well where a is below b.
fn put_where(key: Placement, a: usize, b: usize, g: usize) -> Placement
    requires { g < 256 }
    ensures { PutSays key.words a b g result.words }
{
    if a < b { key.put(g) } else { key }
}
