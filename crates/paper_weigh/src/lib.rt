// Which of two placements is better, loop by loop.
#![tactic(auto)]

ghost use Rattle.std.specs.Prelude.{◌≡◌, true, ◌≤◌, length};
ghost use Rattle.paper_nests.specs.Kinds.{POINTS};
ghost use Rattle.paper_nests.specs.Valid.{is_shape};
ghost use Rattle.paper_placements.specs.Placements.{are_gaps_from};
ghost use Rattle.paper_placements.specs.Words.{gaps_in};
ghost use Rattle.paper_weigh.specs.Weighed.{WeighedSays};

use paper_counts::{counts_of, owners_of};
use paper_placements::Placement;

// How two placements stand to each other: whether the first is as good or better than the second, whether the second is
// as good or better than the first, and the loops that decide between them, by their DOs.
#[derive(Clone, Copy)]
pub struct Standing {
    pub first: bool,
    pub second: bool,
    pub deciding: Placement,
}

// Holds two placements beside each other, in one pass over the loops by their ENDDOs. The loops inside one are those
// that ended before it and begin behind its DO: `latest` is the last DO of a loop that ended with different counts, so
// the counts in all the loops inside one are the same if its DO is not before that. Where then its own differ, it
// decides.
pub fn weigh(points: &[u8], a: Placement, b: Placement) -> Standing
    requires points_value { (is_shape points.now ≡ true) × (length points.now ≤ POINTS) }
    requires words_value { are_gaps_from 0 (length points.now) (gaps_in a.words) ≡ true }
    requires words_value_2 { are_gaps_from 0 (length points.now) (gaps_in b.words) ≡ true }
    ensures { WeighedSays points.now a.words b.words result }
{
    let owners = owners_of(points);
    let of_a = counts_of(points, a);
    let of_b = counts_of(points, b);
    let mut first = true;
    let mut second = true;
    let mut deciding = Placement::empty();
    let mut latest = 0;
    for (e, &point) in points.iter().enumerate() {
        if point == paper_nests::ENDDO {
            let d = owners[e];
            if latest <= d && of_a[d] != of_b[d] {
                if of_a[d] < of_b[d] {
                    second = false;
                } else {
                    first = false;
                }
                latest = d;
                deciding = deciding.put(d);
            }
        }
    }
    Standing {
        first,
        second,
        deciding,
    }
}
