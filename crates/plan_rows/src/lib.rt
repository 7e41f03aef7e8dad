// The row of one loop: its values for each suffix, and from them the fronts and choices.
#![tactic(auto)]

ghost use Rattle.std.specs.Prelude.{◌+◌, ◌*◌, ◌<◌, length};
ghost use Rattle.plan_starts.specs.Grounds.{Kept};
ghost use Rattle.plan_rows.specs.Valued.{CloseSays, CeilingSays, ClosedSays, FrontsIn, ValuesRoom};
ghost use Rattle.plan_rows.specs.Made.{Copied, Cleared, RowsCleared, BetterSays, ChooseSays};
ghost use Rattle.plan_rows.specs.Made.{RowRoom, ListsRoom, RowMade};

use plan_starts::Front;
use plan_sweeps::Inside;
use plan_tables::{Chart, ROW};

// The lines of all loops: a row for each height of where they end and of their limits, and which loops have any.
#[derive(Clone, Copy)]
pub struct Lines<'a> {
    pub reach: &'a [u16],
    pub limit: &'a [u16],
    pub has: &'a [usize],
}

// The row of the loop d with its ENDDO e, from the row of the loops directly inside it, which is the one before; four
// lists are lent for what is made on the way. What is written stands beside each other for the reasons at `follow_all`.
pub fn make_row(
    chart: &Chart,
    lines: &Lines,
    left: &mut [u16],
    choice: &mut [u16],
    need: &mut [usize],
    cs: &mut [u16],
    fs: &mut [u16],
    link: &mut [u16],
    base: usize,
    d: usize,
    e: usize,
    some: usize,
)
    requires row_room { RowRoom chart.now.points.now chart.now.own.now lines.now.reach.now lines.now.limit.now
        left.old choice.old base d e }
    requires lists_room { ListsRoom need.old cs.old fs.old link.old }
    ensures { RowMade chart.now.points.now chart.now.own.now lines.now.reach.now lines.now.limit.now
        left.old choice.old left.new choice.new base d e some }
{
    if some == 0 {
        clear(left, base, d, e);
        clear(choice, base, d, e);
        return;
    }
    let inside = Inside {
        points: chart.points,
        own: chart.own,
        left,
        kids: base - ROW,
    };
    plan_starts::mark(&inside, lines.reach, base, d, e, need);
    let first = plan_starts::follow_all(&inside, need, d, e, cs, fs, link);
    let m = values(lines.limit, base, d, e, first, cs, fs);
    choose(cs, fs, m, left, choice, base, d, e);
}

// The entries from d + 1 to e of the row that starts at base.
// Bounds of numbers stand in clauses, here and below: a type for each would be taken apart at every index.
pub fn copy_row(from: &[u16], base: usize, d: usize, e: usize, xs: &mut [usize])
    requires e_in_bounds { base + e < length from.now }
    requires e_in_bounds_2 { e < length xs.old }
    requires d_lt_e { d < e }
    ensures copied { Copied from.now base d e xs.new }
    ensures kept { Kept xs.old xs.new d e }
{
    for q in d + 1..e + 1 {
        xs[q] = from[base + q] as usize;
    }
}

// The entries from 1 to e of the rows 1 to h set to 0.
pub fn clear_rows(xs: &mut [u16], h: usize, e: usize)
    requires e_in_bounds { h * 256 + e < length xs.old }
    requires e_nonzero { 0 < e }
    requires e_bound { e < 256 }
    ensures { RowsCleared xs.old xs.new h e }
{
    for r in 1..h + 1 {
        clear(xs, r * ROW, 0, e);
    }
}

// The entries from d + 1 to e of the row that starts at base set to 0.
fn clear(xs: &mut [u16], base: usize, d: usize, e: usize)
    requires e_in_bounds { base + e < length xs.old }
    requires d_lt_e { d < e }
    ensures { Cleared xs.old xs.new base d e }
{
    xs[base + d + 1..base + e + 1].fill(0);
}

// The leftmost front so far, and the suffix that gives it. 0 for none, as in the rows that it is written into.
#[derive(Clone, Copy)]
pub struct Leftmost {
    pub f: u16,
    pub at: u16,
}

// The fronts of the suffixes from e down to d + 1 with m barriers, and where they come from, into the loop's row.
fn choose(
    cs: &[u16],
    fs: &[u16],
    m: u16,
    left: &mut [u16],
    choice: &mut [u16],
    base: usize,
    d: usize,
    e: usize,
)
    requires e_in_bounds { e < length cs.now }
    requires e_in_bounds_2 { e < length fs.now }
    requires e_in_bounds_3 { base + e < length left.old }
    requires e_in_bounds_4 { base + e < length choice.old }
    requires d_lt_e { d < e }
    requires e_bound { e < 256 }
    ensures choose_says { ChooseSays cs.now fs.now m
        left.new choice.new base d e }
    ensures kept { Kept left.old left.new (base + d) (base + e) }
    ensures kept_2 { Kept choice.old choice.new (base + d) (base + e) }
{
    let mut best = Leftmost { f: 0, at: 0 };
    for q in (d + 1..e + 1).rev() {
        let v = Front { c: cs[q], f: fs[q] };
        best = better(best, m, q as u16, v);
        left[base + q] = best.f;
        choice[base + q] = best.at;
    }
}

// The front so far, or that of the suffix q where it has m barriers and its front is no further right.
#[tactic(auto, unfolding(plan_method::specs::Sweep::better))]
fn better(best: Leftmost, m: u16, q: u16, v: Front) -> Leftmost
    ensures { BetterSays best.f best.at m q v.c v.f result.f result.at }
{
    if v.c == m && (best.f == 0 || v.f <= best.f) {
        Leftmost { f: v.f, at: q }
    } else {
        best
    }
}

// The values of all suffixes, d + 1 to e, in place of what is made from each start on; gives the least number of
// barriers among them. The sweep for q starts at q, or at `first` if that lies further right: before it all have the
// barriers of `first`, or one more.
fn values(
    limit: &[u16],
    base: usize,
    d: usize,
    e: usize,
    first: usize,
    cs: &mut [u16],
    fs: &mut [u16],
) -> u16
    requires { ValuesRoom limit.now base d e first cs.old fs.old }
    ensures closed_says { ClosedSays limit.now base d e first cs.old fs.old
        cs.new fs.new e result }
    ensures fronts_in { FrontsIn d e fs.new e }
{
    let c = cs[first];
    let f = fs[first];
    let mut m = ceiling(c, d, e, first);
    let late = first.max(d + 1);
    for q in d + 1..late {
        if f <= limit[base + q] {
            cs[q] = c;
            fs[q] = f;
            m = c;
        } else {
            cs[q] = c + 1;
            fs[q] = (d + 1) as u16;
        }
    }
    for q in late..e + 1 {
        let v = closed(Front { c: cs[q], f: fs[q] }, limit[base + q], d);
        cs[q] = v.c;
        fs[q] = v.f;
        m = m.min(v.c);
    }
    m
}

// No less than the barriers of the first value: one more than those of `first` where it is read there, else more than
// there are gaps.
fn ceiling(c: u16, d: usize, e: usize, first: usize) -> u16
    requires c_bound { d + 1 < first → c < 256 }
    requires d_lt_e { d < e }
    requires e_bound { e < 256 }
    ensures { CeilingSays c d e first result }
{
    if d + 1 < first { c + 1 } else { (e + 1) as u16 }
}

// A sweep's barriers and front, with a barrier right after the DO where the front lies beyond the limit.
#[tactic(auto, unfolding(plan_method::specs::Sweep::close, plan_method::specs::Sweep::put))]
fn closed(v: Front, limit: u16, d: usize) -> Front
    requires c_bound { v.c < 256 }
    requires d_bound { d < 256 }
    ensures { CloseSays d limit v.c v.f result.c result.f }
{
    if v.f <= limit {
        v
    } else {
        Front {
            c: v.c + 1,
            f: (d + 1) as u16,
        }
    }
}
