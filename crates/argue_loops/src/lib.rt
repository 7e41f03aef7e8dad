// The claims of all loops, from the planner's tables, spelled into a buffer from the last DO to the first.
#![tactic(auto)]

ghost use Rattle.std.specs.Prelude.{◌+◌, ◌*◌, ◌≤◌, ◌<◌, length};
ghost use Rattle.paper_nests.specs.Stored.{nest_in};
ghost use Rattle.argue_key.specs.Laps.{loop_heads};
ghost use Rattle.argue_give.specs.Given.{BYTES, Gives};
ghost use Rattle.argue_loops.specs.Whole.{GiveTables, ListsRoom, TableGround, GivenAll};

use argue_give::{Row, Sofar};
use argue_texts::Claimed;
use paper_nests::Nest;
use plan_sweeps::Inside;
use plan_tables::{Chart, ROW};

// What the claims are given from, beside the chart: a row for each height of the fronts and of where the lines end, and
// the cost of each loop. The numbers of the lines go beside it: that each fits in two bytes, as a step's set has to,
// the check knows of a slice that is a parameter, and not of one in a struct.
#[derive(Clone, Copy)]
pub struct Tables<'a> {
    pub left: &'a [u16],
    pub reach: &'a [u16],
    pub costs: &'a [usize],
}

// All claims of all loops, from the last DO to the first, from the start of the buffer on. Rows of needs and of sets
// are made in two lent lists; one holds what the claims say.
pub fn give_loops(
    nest: Nest,
    chart: &Chart,
    tables: &Tables,
    numbers: &[u16],
    need: &mut [usize],
    sets: &mut [usize],
    claims: &mut [Claimed],
    out: &mut [u8],
) -> Sofar
    requires give_tables { GiveTables nest chart.now.points.now chart.now.own.now chart.now.ends.now
        chart.now.heights.now tables.now.left.now tables.now.reach.now numbers.now tables.now.costs.now }
    requires lists_room { ListsRoom need.old sets.old claims.old }
    ensures { GivenAll nest chart.now.points.now chart.now.own.now tables.now.left.now tables.now.reach.now
        numbers.now tables.now.costs.now out.old out.new result.many result.at }
{
    let mut s = Sofar { many: 0, at: 0 };
    for d in (0..chart.points.len()).rev() {
        s = give_point(nest, chart, tables, numbers, need, sets, claims, d, out, s);
    }
    s
}

// The claims of the loop whose DO is point d, if it is one and has something to cut.
fn give_point(
    nest: Nest,
    chart: &Chart,
    tables: &Tables,
    numbers: &[u16],
    need: &mut [usize],
    sets: &mut [usize],
    claims: &mut [Claimed],
    d: usize,
    out: &mut [u8],
    sofar: Sofar,
) -> Sofar
    requires give_tables { GiveTables nest chart.now.points.now chart.now.own.now chart.now.ends.now
        chart.now.heights.now tables.now.left.now tables.now.reach.now numbers.now tables.now.costs.now }
    requires lists_room { ListsRoom need.old sets.old claims.old }
    requires d_in_bounds { d < length chart.now.points.now }
    requires at_bound { (sofar.at ≤ BYTES * sofar.many) × (sofar.many + 258 ≤ 131072) }
    ensures gives { Gives chart.now.points.now (nest_in nest).deps
        (TableGround nest chart.now.points.now chart.now.own.now tables.now.left.now tables.now.reach.now
        numbers.now tables.now.costs.now) (λ T. loop_heads chart.now.points.now T d)
        out.old sofar.at claims.old sofar.many out.new result.at claims.new result.many }
    ensures lists_room_2 { ListsRoom need.new sets.new claims.new × (result.many ≤ sofar.many + 258) }
{
    if chart.points[d] != paper_nests::DO {
        return sofar;
    }
    let e = chart.ends[d];
    let base = chart.heights[d] * ROW;
    let first = tables.left[base + (d + 1)] as usize;
    if first == 0 {
        return sofar;
    }
    plan_rows::copy_row(tables.reach, base, d, e, need);
    plan_rows::copy_row(numbers, base, d, e, sets);
    let inside = Inside {
        points: chart.points,
        own: chart.own,
        left: tables.left,
        kids: base - ROW,
    };
    let row = Row {
        d,
        e,
        base,
        cost: tables.costs[d],
    };
    argue_give::give_heads(nest, &inside, need, sets, claims, row, out, sofar)
}
