// The gaps of a dependence: those where a barrier cuts it.
#![tactic(auto)]

ghost use Rattle.desk.specs.Desks.{IsMade};
ghost use Rattle.call_gaps.specs.Says.{GapsSays};

use desk::{Chosen, Desk, not_chosen};
use paper_gaps::with_gaps;
use paper_placements::Placement;
use paper_refusals::Refusal;

// All gaps of the dependence of that number, barred ones too. Numbers 10, 6.
pub fn dependence_gaps(desk: Desk, dependence: usize) -> Chosen
    requires { IsMade desk }
    ensures { GapsSays desk dependence result }
{
    if !desk.loaded {
        return not_chosen(Refusal::NoNest);
    }
    let nest = desk.nest;
    if dependence >= nest.many {
        return not_chosen(Refusal::WrongPoint);
    }
    let ends = paper_nests::ends_of(nest.points());
    let e = nest.deps[dependence];
    Chosen {
        number: 0,
        line: 0,
        set: with_gaps(Placement::empty(), ends[e.d as usize], e),
    }
}
