// The planner: the key of a nest.
#![tactic(auto)]

ghost use Rattle.std.specs.Prelude.{◌≡◌, true};
ghost use Rattle.paper_nests.specs.Valid.{is_valid};
ghost use Rattle.paper_nests.specs.Stored.{nest_in, IsCounted};
ghost use Rattle.plan_nest.specs.Planned.{PlanSays};

use paper_nests::Nest;
use paper_placements::Placement;
use plan_lay::Rows;
use plan_rows::Lines;
use plan_tables::{Chart, ROW, TABLE};

// The tables of the nest, the rows of all loops, and what the outermost loop lays. As in argue_paper, the tables are
// borrowed from arrays of the function, so no function can make them and hand them out.
pub fn plan(nest: Nest) -> Placement
    requires counted { IsCounted nest }
    requires nest_value { is_valid (nest_in nest) ≡ true }
    ensures { PlanSays (nest_in nest) result.words }
{
    // n is above every gap. A filling with a variable is no call of memset.
    let n = nest.count;
    let high = n as u16;
    let mut own = [0; ROW];
    let mut ends = [0; ROW];
    let mut heights = [0; ROW];
    let mut has = [0; ROW];
    let mut reach = [high; TABLE];
    let mut limit = [high; TABLE];
    plan_tables::prepare(
        nest,
        &mut own,
        &mut ends,
        &mut heights,
        &mut reach,
        &mut limit,
        &mut has,
    );
    let chart = Chart {
        points: nest.points(),
        own: &own,
        ends: &ends,
        heights: &heights,
    };
    let lines = Lines {
        reach: &reach,
        limit: &limit,
        has: &has,
    };
    // Of a loop with nothing to cut these are 0, as far as the points go.
    let mut left = [high; TABLE];
    let mut choice = [high; TABLE];
    plan_rows::clear_rows(&mut left, Nest::DEPTH, n - 1);
    plan_rows::clear_rows(&mut choice, Nest::DEPTH, n - 1);
    // The lists that the rows are made in, and the row that is swept.
    let mut need = [0; ROW];
    let mut cs = [0; ROW];
    let mut fs = [0; ROW];
    let mut link = [0; ROW];
    plan_settle::settle(
        &chart,
        &lines,
        &mut left,
        &mut choice,
        &mut need,
        &mut cs,
        &mut fs,
        &mut link,
        0,
        Nest::DEPTH,
    );
    let none = Placement::empty();
    let rows = Rows {
        left: &left,
        choice: &choice,
    };
    plan_lay::lay(&chart, &lines, &rows, &mut need, 0, 1, Nest::DEPTH, none)
}
