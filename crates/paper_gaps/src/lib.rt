// The gaps of a dependence, and ranges of gaps, put into placements.
#![tactic(auto)]

ghost use Rattle.std.specs.Prelude.{◌≡◌, ◌||◌, ℕ, ◌<◌, ◌≤◌};
ghost use Rattle.laws.specs.Choice.{between};
ghost use Rattle.paper_placements.specs.Words.{GAPS, holds};
ghost use Rattle.paper_gaps.specs.Lies.{LiesTo, GapsPut};

use paper_nests::Dependence;
use paper_placements::Placement;

// The placement with all gaps of the dependence as well, where `end` is the ENDDO of the loop that carries it.
// The dependence and its ENDDO stay two: cut_in and dep_fault take any, and a type with LiesTo would ask more.
pub fn with_gaps(p: Placement, end: usize, e: Dependence) -> Placement
    requires { LiesTo e end }
    ensures { GapsPut end e p.words result.words }
{
    let s = e.s as usize;
    let t = e.t as usize;
    if e.kind == paper_nests::INDEPENDENT {
        return with_range(p, s + 1, t);
    }
    let d = e.d as usize;
    let q = with_range(p, d + 1, t);
    with_range(q, s + 1, end)
}

// The placement with the gaps from lo to hi as well.
pub fn with_range(p: Placement, lo: usize, hi: usize) -> Placement
    requires { (lo ≤ hi) × (hi < GAPS) }
    ensures { (g : ℕ) → holds result.words g ≡ (between lo g hi || holds p.words g) }
{
    let mut q = p;
    for g in lo..=hi {
        q = q.put(g);
    }
    q
}
