// The loop of every gap, and the counts of all loops, each in one pass over the points.
#![tactic(auto)]

ghost use Rattle.std.specs.Prelude.{◌≡◌, true, ◌≤◌, length};
ghost use Rattle.paper_nests.specs.Kinds.{POINTS};
ghost use Rattle.paper_nests.specs.Valid.{is_shape};
ghost use Rattle.paper_placements.specs.Placements.{are_gaps_from};
ghost use Rattle.paper_placements.specs.Words.{gaps_in};
ghost use Rattle.paper_counts.specs.Tables.{OwnersAre, CountsAre};

use paper_nests::Nest;
use paper_placements::Placement;

// The loop of every gap. The points are a part of a nest's array, lent as it is: that they have a shape is a clause
// here and in other crates, as a type that holds it would be made anew for each call.
pub fn owners_of(points: &[u8]) -> [usize; Nest::POINTS]
    requires { (is_shape points.now ≡ true) × (length points.now ≤ POINTS) }
    ensures { OwnersAre points.now result }
{
    let mut owners = [0; Nest::POINTS];
    let mut around = 0;
    for (g, &kind) in points.iter().enumerate() {
        owners[g] = around;
        match kind {
            paper_nests::DO => around = g,
            paper_nests::ENDDO => around = owners[around],
            _ => {}
        }
    }
    owners
}

// The count of every loop in the placement, by its DO.
pub fn counts_of(points: &[u8], p: Placement) -> [usize; Nest::POINTS]
    requires points_value { (is_shape points.now ≡ true) × (length points.now ≤ POINTS) }
    requires words_value { are_gaps_from 0 (length points.now) (gaps_in p.words) ≡ true }
    ensures { CountsAre points.now (gaps_in p.words) result }
{
    let owners = owners_of(points);
    let mut counts = [0; Nest::POINTS];
    for g in 0..points.len() {
        counts[owners[g]] += usize::from(p.holds(g));
    }
    counts
}
