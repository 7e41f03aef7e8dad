// Loops that may not run, and which of them need a barrier for their missing run.
#![tactic(auto)]

ghost use Rattle.std.specs.Prelude.{◌≡◌, true, ◌+◌, ◌≤◌, ◌<◌, length};
ghost use Rattle.laws.specs.Choice.{pick, between};
ghost use Rattle.laws.specs.Members.{Among};
ghost use Rattle.paper_nests.specs.Valid.{is_valid};
ghost use Rattle.paper_nests.specs.Stored.{dep_in, nest_in, IsCounted};
ghost use Rattle.paper_placements.specs.Words.{GAPS, gaps_in};
ghost use Rattle.desk.specs.Desks.{IsMade};
ghost use Rattle.call_missing.specs.Listed.{listed_by};
ghost use Rattle.call_missing.specs.Says.{AreDos, ListedSays, MissingSays};
ghost use Rattle.call_missing.specs.Covering.{is_apart, AreLoops, WithBarrier, CoverSays, RangeListed, ListedBySays};

use desk::{Chosen, Desk, key_fault, not_chosen};
use paper_nests::{Dependence, Nest};
use paper_placements::{Placement, set_of};

// The set of the loops that need a barrier for their missing run, by their DOs. Numbers 10, 11.
pub fn missing_runs(desk: Desk) -> Chosen
    requires { IsMade desk }
    ensures { MissingSays desk result }
{
    if let Err(refusal) = key_fault(desk.loaded, desk.planned) {
        return not_chosen(refusal);
    }
    let nest = desk.nest;
    let flagged = set_of(nest.flagged_loops());
    Chosen {
        number: 0,
        line: 0,
        set: listed_loops(nest, flagged, desk.key),
    }
}

// The loops that one of the dependences has listed for a placement, by their DOs.
pub fn listed_by(nest: Nest, p: Placement, e: Dependence) -> Placement
    requires counted { IsCounted nest }
    requires nest_value { is_valid (nest_in nest) ≡ true }
    requires among { Among (dep_in e) (nest_in nest).deps }
    ensures { gaps_in result.words ≡ listed_by (nest_in nest) (gaps_in p.words) (dep_in e) }
{
    let ends = paper_nests::ends_of(nest.points());
    let loops = with_barrier(&ends, set_of(nest.flagged_loops()), p);
    list_by(&ends, loops, p, Placement::empty(), e)
}

// The loops that are listed for the key; `flagged` has the loops that may not run. Of both, bit d is the loop of DO d.
fn listed_loops(nest: Nest, flagged: Placement, key: Placement) -> Placement
    requires counted { IsCounted nest }
    requires nest_value { is_valid (nest_in nest) ≡ true }
    requires are_dos { AreDos (nest_in nest).points flagged.words }
    ensures { ListedSays (nest_in nest).points (nest_in nest).deps flagged.words key.words result.words }
{
    let ends = paper_nests::ends_of(nest.points());
    let loops = with_barrier(&ends, flagged, key);
    let mut listed = Placement::empty();
    for i in (0..nest.many).rev() {
        listed = list_by(&ends, loops, key, listed, nest.deps[i]);
    }
    listed
}

// Those of the flagged loops that have a barrier inside. A table that is longer than a nest's will do here and below,
// so that its length is a clause.
fn with_barrier(ends: &[usize], flagged: Placement, key: Placement) -> Placement
    requires { GAPS ≤ length ends.now }
    ensures { WithBarrier ends.now flagged.words key.words result.words }
{
    let mut loops = Placement::empty();
    let mut d = flagged.lowest_from(0);
    while d < Placement::GAPS {
        let here = d;
        let g = key.lowest_in(here + 1, ends[here]);
        d = flagged.lowest_from(here + 1);
        if g < Placement::GAPS {
            loops = loops.put(here);
        }
    }
    loops
}

// The listed loops, with those that one dependence has listed: where every barrier that cuts it is inside a foreign
// loop, all foreign loops with a barrier that cuts it.
fn list_by(
    ends: &[usize],
    loops: Placement,
    key: Placement,
    listed: Placement,
    e: Dependence,
) -> Placement
    requires in_bounds { GAPS ≤ length ends.now }
    requires are_loops { AreLoops ends.now loops.words }
    ensures { ListedBySays ends.now loops.words key.words listed.words e result.words }
{
    let s = e.s as usize;
    let t = e.t as usize;
    if e.kind == paper_nests::INDEPENDENT {
        if is_covered(ends, loops, key, s, t, s + 1, t) {
            return list_range(ends, loops, listed, s, t, s + 1, t);
        }
        return listed;
    }
    let d = e.d as usize;
    let end = ends[d];
    if is_covered(ends, loops, key, s, t, d + 1, t)
        && is_covered(ends, loops, key, s, t, s + 1, end)
    {
        let front = list_range(ends, loops, listed, s, t, d + 1, t);
        return list_range(ends, loops, front, s, t, s + 1, end);
    }
    listed
}

// Each barrier from lo to hi is inside one of the loops to which neither s nor t belongs, with a DO at lo or later.
fn is_covered(
    ends: &[usize],
    loops: Placement,
    key: Placement,
    s: usize,
    t: usize,
    lo: usize,
    hi: usize,
) -> bool
    requires in_bounds { GAPS ≤ length ends.now }
    requires are_loops { AreLoops ends.now loops.words }
    ensures { CoverSays ends.now loops.words key.words s t lo hi result }
{
    let mut p = lo;
    let mut g = key.lowest_in(p, hi);
    while g < Placement::GAPS {
        let d = loops.lowest_from(p);
        if g <= d {
            return false;
        }
        p = after(d, ends[d], s, t);
        g = key.lowest_in(p, hi);
    }
    true
}

// The listed loops, with those of the loops with a DO from lo to hi to which neither s nor t belongs.
fn list_range(
    ends: &[usize],
    loops: Placement,
    listed: Placement,
    s: usize,
    t: usize,
    lo: usize,
    hi: usize,
) -> Placement
    requires { GAPS ≤ length ends.now }
    ensures { RangeListed ends.now loops.words listed.words s t lo hi result.words }
{
    let mut all = listed;
    let mut d = loops.lowest_in(lo, hi);
    while d < Placement::GAPS {
        let here = d;
        let foreign = is_apart(here, ends[here], s, t);
        d = loops.lowest_in(here + 1, hi);
        if foreign {
            all = all.put(here);
        }
    }
    all
}

// The first point after a loop to which neither s nor t belongs; of another loop the first after its DO.
fn after(d: usize, end: usize, s: usize, t: usize) -> usize
    requires { (d < GAPS) × (end < GAPS) }
    ensures { result ≡ pick (is_apart d end s t) (end + 1) (d + 1) }
{
    if is_apart(d, end, s, t) {
        end + 1
    } else {
        d + 1
    }
}

// Neither s nor t lies from the DO d to the ENDDO. The points of a loop and of a dependence stay four numbers: a struct
// of them would be made for each call.
fn is_apart(d: usize, end: usize, s: usize, t: usize) -> bool
    ensures { result ≡ is_apart d end s t }
{
    !belongs(d, end, s) && !belongs(d, end, t)
}

// The point lies from the DO d to the ENDDO.
fn belongs(d: usize, end: usize, p: usize) -> bool
    ensures { result ≡ between d p end }
{
    d <= p && p <= end
}
