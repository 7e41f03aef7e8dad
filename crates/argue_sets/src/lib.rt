// The sets that the steps of a lap name, by the numbers of their dependences: of each line that starts in a loop, and
// of the last that goes back.
#![tactic(auto)]

ghost use Rattle.std.specs.Prelude.{◌≡◌, ◌+◌, ◌≤◌, length};
ghost use Rattle.paper_nests.specs.Stored.{dep_in, nest_in, IsCounted};
ghost use Rattle.paper_nests.proofs.Deps.{Fits};
ghost use Rattle.plan_method.specs.Home.{reach_of};
ghost use Rattle.plan_method.proofs.Instance.{AllFit};
ghost use Rattle.plan_tables.specs.Charts.{TABLE, Points, Charted, ChartRoom, Rows};
ghost use Rattle.argue_key.specs.Laps.{starting, last_back};
ghost use Rattle.argue_sets.specs.Numbered.{line_set, Unnumbered, NumberSays, LaterSays};

use paper_nests::{Dependence, Nest};
use plan_tables::{Chart, ROW};

// A start, and the number of the dependence that has it.
// at is 0 and no Option where there is none: 0 lies before every start, and the later of two is asked for.
#[derive(Clone, Copy)]
pub struct Start {
    pub at: usize,
    pub num: usize,
}

// Of each loop and each gap of its range the set of the first line that starts there and ends where the reach does, in
// a table in which nothing is numbered.
// What holds of the chart stands in clauses, here and in `number_line`: a type with an invariant would ask more.
pub fn number_lines(nest: Nest, chart: &Chart, reach: &[u16], sets: &mut [u16])
    requires counted { IsCounted nest }
    requires points { Points chart.now.points.now }
    requires all_fit { AllFit chart.now.points.now (nest_in nest).deps }
    requires charted { Charted chart.now.points.now chart.now.own.now chart.now.ends.now chart.now.heights.now }
    requires chart_room { ChartRoom chart.now.own.now chart.now.ends.now chart.now.heights.now }
    requires in_bounds { (TABLE ≤ length reach.now) × (TABLE ≤ length sets.old) }
    requires rows { Rows chart.now.points.now chart.now.heights.now reach.now
        (reach_of chart.now.points.now (nest_in nest).deps) }
    requires unnumbered { Unnumbered nest.many sets.old }
    ensures { Rows chart.now.points.now chart.now.heights.now sets.new
        (line_set chart.now.points.now (nest_in nest).deps) }
{
    // By index, as the laws go from the last dependence down, and its number is wanted.
    for i in (0..nest.many).rev() {
        let e = nest.deps[i];
        number_line(chart, reach, sets, e, (i + 2) as u16);
    }
}

// Of what d carries with t before the front f one with the greatest s, by its start s + 1 and its number; start 0 for
// none.
pub fn last_back(nest: Nest, d: usize, f: usize) -> Start
    requires { IsCounted nest }
    ensures { starting result.at result.num ≡ last_back (nest_in nest).points d f (nest_in nest).deps }
{
    let mut last = Start {
        at: 0,
        num: nest.many,
    };
    // By index, as the laws go from the last dependence down, and its number is wanted.
    for i in (0..nest.many).rev() {
        last = later(last, nest.deps[i], i, d, f);
    }
    last
}

// One dependence, which takes its line's place if it ends where the reach does.
fn number_line(chart: &Chart, reach: &[u16], sets: &mut [u16], e: Dependence, set: u16)
    requires points { Points chart.now.points.now }
    requires charted { Charted chart.now.points.now chart.now.own.now chart.now.ends.now chart.now.heights.now }
    requires chart_room { ChartRoom chart.now.own.now chart.now.ends.now chart.now.heights.now }
    requires in_bounds { (TABLE ≤ length reach.now) × (TABLE ≤ length sets.old) }
    requires fits { Fits chart.now.points.now (dep_in e) }
    ensures { NumberSays chart.now.points.now chart.now.heights.now reach.now (dep_in e) set
        sets.old sets.new }
{
    if e.kind != paper_nests::INDEPENDENT {
        return;
    }
    let s = e.s as usize;
    let t = e.t as usize;
    let home = plan_tables::home_of(chart, s, t);
    let place = chart.heights[home] * ROW + (s + 1);
    if reach[place] as usize == t {
        sets[place] = set;
    }
}

// The later start of two, that of the dependence i only if d carries it and its t lies before f.
fn later(last: Start, e: Dependence, i: usize, d: usize, f: usize) -> Start
    ensures { LaterSays d f last.at last.num (dep_in e) i result.at result.num }
{
    // One test after the other: every dependence passes here, and most are let go by the first.
    if e.kind == paper_nests::INDEPENDENT {
        return last;
    }
    if e.d as usize != d {
        return last;
    }
    let s = e.s as usize;
    if (e.t as usize) < f && last.at <= s {
        Start { at: s + 1, num: i }
    } else {
        last
    }
}
