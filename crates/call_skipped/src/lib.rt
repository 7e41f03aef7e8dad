// Loops that may not run, of one dependence: those on which a placement relies to cut it, and those that have one of
// its ends alone.
#![tactic(auto)]

ghost use Rattle.std.specs.Prelude.{◌≡◌, true, not, ◌≤◌, ◌<◌, length};
ghost use Rattle.laws.specs.Choice.{between};
ghost use Rattle.paper_refusals.specs.Numbers.{number_of};
ghost use Rattle.paper_nests.specs.Valid.{is_valid};
ghost use Rattle.paper_nests.specs.Stored.{dep_in, nest_in, IsCounted};
ghost use Rattle.paper_placements.specs.Words.{GAPS, gaps_in};
ghost use Rattle.desk.specs.Desks.{IsMade};
ghost use Rattle.call_skipped.specs.OneEnd.{one_end_by, goes_on, is_one_end, WithOneEnd};
ghost use Rattle.call_skipped.specs.Says.{NoneChosen, ReliedSays, OneEndSays};

use call_missing::listed_by;
use desk::{Chosen, Desk, key_fault, not_chosen};
use paper_nests::{Dependence, Nest, is_inside};
use paper_placements::{Placement, set_of};
use paper_refusals::{Fault, Refusal};

// The set of the loops on which the placement that the text spells relies for the dependence of that number: where they
// are skipped, it is not cut. Numbers 10, then 1, 2, 8, 16 with their line, then 6.
pub fn relied_on(desk: Desk, text: &[u8], dependence: usize) -> Chosen
    requires { IsMade desk }
    ensures { ReliedSays desk text.now dependence result }
{
    if let Err(refusal) = key_fault(desk.loaded, true) {
        return none_chosen(Fault::from(refusal));
    }
    let nest = desk.nest;
    let barred = paper_barred::barred_of(nest);
    let placement = match paper_texts::read_placement(nest.count, barred, text) {
        Ok(placement) => placement,
        Err(fault) => return none_chosen(fault),
    };
    if nest.many <= dependence {
        return none_chosen(Fault::from(Refusal::WrongPoint));
    }
    Chosen {
        number: 0,
        line: 0,
        set: listed_by(nest, placement, nest.deps[dependence]),
    }
}

// The set of the loops that have one end alone of the dependence of that number, where it goes forward into the next
// turn. Numbers 10, 6.
pub fn one_end(desk: Desk, dependence: usize) -> Chosen
    requires { IsMade desk }
    ensures { OneEndSays desk dependence result }
{
    if !desk.loaded {
        return not_chosen(Refusal::NoNest);
    }
    let nest = desk.nest;
    if nest.many <= dependence {
        return not_chosen(Refusal::WrongPoint);
    }
    Chosen {
        number: 0,
        line: 0,
        set: with_end_of(nest, nest.deps[dependence]),
    }
}

// The flagged loops that have one end of the dependence alone, where it goes forward into the next turn.
fn with_end_of(nest: Nest, e: Dependence) -> Placement
    requires counted { IsCounted nest }
    requires nest_value { is_valid (nest_in nest) ≡ true }
    ensures { gaps_in result.words ≡ one_end_by (nest_in nest).points (nest_in nest).flagged (dep_in e) }
{
    if !goes_on(e) {
        return Placement::empty();
    }
    let ends = paper_nests::ends_of(nest.points());
    let flagged = set_of(nest.flagged_loops());
    with_one_end(&ends, flagged, e.s as usize, e.t as usize)
}

// The dependence is carried, with s before t: it goes forward into the next turn.
fn goes_on(e: Dependence) -> bool
    ensures { result ≡ goes_on (dep_in e) }
{
    e.kind == paper_nests::CARRIED && e.s < e.t
}

// Those of the loops that have one of s and t alone. A table that is longer than a nest's will do, so that its length
// is a clause.
fn with_one_end(ends: &[usize], loops: Placement, s: usize, t: usize) -> Placement
    requires { GAPS ≤ length ends.now }
    ensures { WithOneEnd ends.now loops.words s t result.words }
{
    let mut split = Placement::empty();
    let mut d = loops.lowest_from(0);
    while d < Placement::GAPS {
        let here = d;
        let one = has_one_end(here, ends[here], s, t);
        d = loops.lowest_from(here + 1);
        if one {
            split = split.put(here);
        }
    }
    split
}

// One of s and t lies inside the loop, and the other before its DO or behind its ENDDO. The points of a loop and of a
// dependence stay four numbers: a struct of them would be made for each call.
fn has_one_end(d: usize, end: usize, s: usize, t: usize) -> bool
    ensures { result ≡ is_one_end d end s t }
{
    is_inside(d, end, s) && is_beyond(d, end, t) || is_inside(d, end, t) && is_beyond(d, end, s)
}

// The point lies before the DO d or behind the ENDDO.
fn is_beyond(d: usize, end: usize, p: usize) -> bool
    ensures { result ≡ not (between d p end) }
{
    p < d || end < p
}

// The reply that chooses nothing. With the line of a text, which not_chosen of desk has not.
fn none_chosen(fault: Fault) -> Chosen
    ensures { NoneChosen (number_of fault.refusal) fault.line result }
{
    Chosen {
        number: u8::from(fault.refusal),
        line: fault.line,
        set: Placement::empty(),
    }
}
