// The argument of a paper's key, spelled into a buffer: the planner's tables, the costs of its loops, and their claims.
#![tactic(auto)]

ghost use Rattle.std.specs.Prelude.{◌≡◌, true, false, ◌≤◌, length};
ghost use Rattle.laws.specs.Entries.{at};
ghost use Rattle.paper_nests.specs.Valid.{is_valid};
ghost use Rattle.paper_nests.specs.Stored.{nest_in, IsCounted};
ghost use Rattle.paper_barred.specs.Reduced.{is_blocked};
ghost use Rattle.plan_tables.specs.Charts.{TABLE};
ghost use Rattle.argue_key.specs.Laps.{plain_argument, argument_of};
ghost use Rattle.argue_paper.specs.Spelled.{CostsAre, Spelled};

use argue_give::Sofar;
use argue_loops::Tables;
use argue_texts::{CLAIMS, Claimed};
use paper_nests::Nest;
use plan_rows::Lines;
use plan_tables::{Chart, ROW, TABLE};

// The argument of a nest that is not blocked; where gaps are barred, that of the nest of the others.
pub fn give_argument(nest: Nest, out: &mut [u8]) -> Sofar
    requires counted { IsCounted nest }
    requires nest_value { is_valid (nest_in nest) ≡ true }
    requires nest_value_2 { is_blocked (nest_in nest) ≡ false }
    ensures { Spelled (argument_of (nest_in nest)) out.old out.new result.many result.at }
{
    if nest.bars == 0 {
        return give_plain(nest, out);
    }
    let ranks = plan_paper::ranks_of(nest);
    let ring = plan_paper::reduce(nest, &ranks).unwrap();
    give_plain(ring, out)
}

// The argument of a nest, without regard to what is barred.
fn give_plain(nest: Nest, out: &mut [u8]) -> Sofar
    requires counted { IsCounted nest }
    requires nest_value { is_valid (nest_in nest) ≡ true }
    ensures { Spelled (plain_argument (nest_in nest).points (nest_in nest).deps) out.old
        out.new result.many result.at }
{
    let costs = costs_of(nest);
    give_tables(nest, &costs, out)
}

// The costs of the loops: their counts in the planner's key.
fn costs_of(nest: Nest) -> [usize; Nest::POINTS]
    requires counted { IsCounted nest }
    requires nest_value { is_valid (nest_in nest) ≡ true }
    ensures { CostsAre (nest_in nest) result }
{
    paper_counts::counts_of(nest.points(), plan_nest::plan(nest))
}

// The tables of the nest, the rows of all loops, the numbers of the lines, and the claims of all loops. Not within its
// caller, whose frame would then hold these tables while the planner is called for the costs.
#[inline(never)]
fn give_tables(nest: Nest, costs: &[usize], out: &mut [u8]) -> Sofar
    requires counted { IsCounted nest }
    requires nest_value { is_valid (nest_in nest) ≡ true }
    requires in_bounds { (256 ≤ length costs.now) × CostsAre (nest_in nest) costs.now }
    ensures { Spelled (plain_argument (nest_in nest).points (nest_in nest).deps) out.old
        out.new result.many result.at }
{
    // The count is above every gap, and no dependence has the number behind the last.
    let high = nest.count as u16;
    let beyond = (nest.many + 2) as u16;
    let mut own = [0; ROW];
    let mut ends = [0; ROW];
    let mut heights = [0; ROW];
    let mut has = [0; ROW];
    let mut reach = [high; TABLE];
    let mut limit = [high; TABLE];
    plan_tables::prepare(
        nest,
        &mut own,
        &mut ends,
        &mut heights,
        &mut reach,
        &mut limit,
        &mut has,
    );
    let chart = Chart {
        points: nest.points(),
        own: &own,
        ends: &ends,
        heights: &heights,
    };
    let lines = Lines {
        reach: &reach,
        limit: &limit,
        has: &has,
    };
    let mut left = [0; TABLE];
    let mut choice = [0; TABLE];
    let mut need = [0; ROW];
    let mut cs = [0; ROW];
    let mut fs = [0; ROW];
    let mut link = [0; ROW];
    plan_settle::settle(
        &chart,
        &lines,
        &mut left,
        &mut choice,
        &mut need,
        &mut cs,
        &mut fs,
        &mut link,
        0,
        Nest::DEPTH,
    );
    // The choice has served: the numbers of the lines take its place.
    choice.fill(beyond);
    argue_sets::number_lines(nest, &chart, &reach, &mut choice);
    let tables = Tables {
        left: &left,
        reach: &reach,
        costs,
    };
    let mut sets = [0; ROW];
    let mut claims = [Claimed { d: 0, a: 0, b: 0 }; CLAIMS];
    argue_loops::give_loops(
        nest,
        &chart,
        &tables,
        &choice,
        &mut need,
        &mut sets,
        &mut claims,
        out,
    )
}
