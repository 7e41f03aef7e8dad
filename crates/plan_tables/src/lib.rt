// The tables that the planner's sweeps read, made from a nest: its loops, and its dependences by their homes.
#![tactic(auto)]

ghost use Rattle.std.specs.Prelude.{◌≡◌, suc, ◌+◌, ◌<◌, ◌≤◌, min, length, set};
ghost use Rattle.laws.specs.Entries.{at};
ghost use Rattle.paper_nests.specs.Kinds.{POINTS};
ghost use Rattle.paper_nests.specs.Loops.{owner_from};
ghost use Rattle.paper_nests.specs.Stored.{dep_in, nest_in, IsCounted};
ghost use Rattle.paper_nests.proofs.Deps.{Fits};
ghost use Rattle.plan_method.proofs.Instance.{AllFit};
ghost use Rattle.plan_tables.specs.Charts.{TABLE, Points, OwnIs, EndsAre, HeightsAre, Charted, ChartRoom, Unowned};
ghost use Rattle.plan_tables.specs.Collected.{Collected, Entered, LinesRoom, Blank, Narrowed, Limited};
ghost use Rattle.plan_tables.specs.Prepared.{Prepared};

use paper_nests::{Dependence, Nest};

// The entries of a row, one for each point.
pub const ROW: usize = 256;

// The entries of a table: a row for each height, and one that is spare.
pub const TABLE: usize = 2304;

// The points of a nest with the tables of its loops: of each gap its loop, of each DO its ENDDO and its height.
// What holds of them stands in clauses and is no invariant: `number_lines` of argue_sets takes a Chart, and may ask no
// more than it asked of the slices.
#[derive(Clone, Copy)]
pub struct Chart<'a> {
    pub points: &'a [u8],
    pub own: &'a [usize],
    pub ends: &'a [usize],
    pub heights: &'a [usize],
}

// All tables of a nest, in lists that nothing is noted in.
// The lists that are written stay beside each other, here and below: a struct of them would need in each function a
// clause for each field that it keeps its reference, which is no plainer.
pub fn prepare(
    nest: Nest,
    own: &mut [usize],
    ends: &mut [usize],
    heights: &mut [usize],
    reach: &mut [u16],
    limit: &mut [u16],
    has: &mut [usize],
)
    requires counted { IsCounted nest }
    requires points { Points (nest_in nest).points }
    requires all_fit { AllFit (nest_in nest).points (nest_in nest).deps }
    requires chart_room { ChartRoom own.old ends.old heights.old }
    requires lines_room { LinesRoom reach.old limit.old has.old }
    requires unowned { Unowned own.old }
    requires blank { Blank (length (nest_in nest).points) reach.old limit.old has.old }
    ensures { Prepared (nest_in nest).points (nest_in nest).deps own.new ends.new
        heights.new reach.new limit.new has.new }
{
    let points = nest.points();
    chart_loops(points, own, ends, heights);
    let chart = Chart {
        points,
        own,
        ends,
        heights,
    };
    collect(nest, &chart, reach, limit, has);
    narrow(&chart, limit);
}

// Of each gap its loop, of each DO its ENDDO and its height.
fn chart_loops(points: &[u8], own: &mut [usize], ends: &mut [usize], heights: &mut [usize])
    requires points { Points points.now }
    requires chart_room { ChartRoom own.old ends.old heights.old }
    requires unowned { Unowned own.old }
    ensures { Charted points.now own.new ends.new heights.new }
{
    let mut o = 0;
    let mut h = Nest::DEPTH;
    for (i, &kind) in points.iter().enumerate() {
        own[i] = o;
        if kind == paper_nests::DO {
            heights[i] = h;
            h -= 1;
            o = i;
        } else if kind == paper_nests::ENDDO {
            ends[o] = i;
            h += 1;
            o = own[o];
        }
    }
}

// All dependences, each in the row of its home: independent ones in `reach`, carried ones in `back`.
fn collect(nest: Nest, chart: &Chart, reach: &mut [u16], back: &mut [u16], has: &mut [usize])
    requires points { Points chart.now.points.now }
    requires charted { Charted chart.now.points.now chart.now.own.now chart.now.ends.now chart.now.heights.now }
    requires chart_room { ChartRoom chart.now.own.now chart.now.ends.now chart.now.heights.now }
    requires lines_room { LinesRoom reach.old back.old has.old }
    requires counted { IsCounted nest }
    requires all_fit { AllFit chart.now.points.now (nest_in nest).deps }
    requires blank { Blank (length chart.now.points.now) reach.old back.old has.old }
    ensures { Collected chart.now.points.now (nest_in nest).deps chart.now.heights.now
        reach.new back.new has.new }
{
    // By index, from the last dependence to the first, as the laws go.
    for i in (0..nest.many).rev() {
        enter(chart, reach, back, has, nest.deps[i]);
    }
}

// One dependence more.
fn enter(chart: &Chart, reach: &mut [u16], back: &mut [u16], has: &mut [usize], e: Dependence)
    requires points { Points chart.now.points.now }
    requires charted { Charted chart.now.points.now chart.now.own.now chart.now.ends.now chart.now.heights.now }
    requires chart_room { ChartRoom chart.now.own.now chart.now.ends.now chart.now.heights.now }
    requires lines_room { LinesRoom reach.old back.old has.old }
    requires fits { Fits chart.now.points.now (dep_in e) }
    ensures { Entered chart.now.points.now chart.now.heights.now (dep_in e)
        reach.old back.old has.old
        reach.new back.new has.new }
{
    let s = e.s as usize;
    let t = e.t as usize;
    if e.kind == paper_nests::INDEPENDENT {
        let home = home_of(chart, s, t);
        lower(reach, chart.heights[home] * ROW + (s + 1), t as u16);
        has[home] = 1;
    } else {
        let d = e.d as usize;
        lower(back, chart.heights[d] * ROW + s, t as u16);
        has[d] = 1;
    }
}

// The innermost loop that holds all gaps from s + 1 to t.
pub fn home_of(chart: &Chart, s: usize, t: usize) -> usize
    requires points { Points chart.now.points.now }
    requires own_is { OwnIs chart.now.points.now chart.now.own.now }
    requires ends_are { EndsAre chart.now.points.now chart.now.ends.now }
    requires in_bounds { POINTS ≤ length chart.now.own.now }
    requires in_bounds_2 { POINTS ≤ length chart.now.ends.now }
    requires s_lt_t { s < t }
    requires t_in_bounds { t < length chart.now.points.now }
    ensures { result ≡ owner_from (suc s) t chart.now.points.now }
{
    let mut l = if chart.points[s] == paper_nests::DO {
        s
    } else {
        chart.own[s]
    };
    while chart.ends[l] < t {
        l = chart.own[l];
    }
    l
}

// From what goes back in each loop's row, its limits.
fn narrow(chart: &Chart, limit: &mut [u16])
    requires points { Points chart.now.points.now }
    requires ends_are { EndsAre chart.now.points.now chart.now.ends.now }
    requires heights_are { HeightsAre chart.now.points.now chart.now.heights.now }
    requires in_bounds { POINTS ≤ length chart.now.ends.now }
    requires in_bounds_2 { POINTS ≤ length chart.now.heights.now }
    requires in_bounds_3 { TABLE ≤ length limit.old }
    ensures { Limited chart.now.points.now chart.now.heights.now limit.old limit.new }
{
    for (d, &kind) in chart.points.iter().enumerate() {
        if kind == paper_nests::DO {
            narrow_row(limit, chart.heights[d] * ROW, d, chart.ends[d]);
        }
    }
}

// In one loop's row, from right to left: at each place the least from there to the ENDDO e, and at most e.
fn narrow_row(xs: &mut [u16], base: usize, d: usize, e: usize)
    requires d_le_e { d ≤ e }
    requires e_bound { e < POINTS }
    requires e_in_bounds { base + e < length xs.old }
    ensures { Narrowed xs.old base d e xs.new }
{
    let mut m = e as u16;
    for q in (d + 1..e + 1).rev() {
        let place = base + q;
        m = m.min(xs[place]);
        xs[place] = m;
    }
}

// The entry at the place is t, if it was more.
fn lower(xs: &mut [u16], place: usize, t: u16)
    requires { place < length xs.old }
    ensures { xs.new ≡ set xs.old place (min t (at xs.old place)) }
{
    xs[place] = xs[place].min(t);
}
