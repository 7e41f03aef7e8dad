// Turns of a nest's loops: whether a list of them fits, and how many barrier calls a placement has under them.
#![tactic(auto)]

ghost use Rattle.std.specs.Prelude.{◌≡◌, true, ◌^◌, ◌<◌, ◌≤◌, length};
ghost use Rattle.paper_nests.specs.Kinds.{POINTS};
ghost use Rattle.paper_nests.specs.Valid.{is_shape};
ghost use Rattle.paper_placements.specs.Placements.{are_gaps_from};
ghost use Rattle.paper_placements.specs.Words.{gaps_in};
ghost use Rattle.run_barriers.specs.Calls.{dos_before, are_turns, fit_in, calls_in};
ghost use Rattle.run_count.specs.Times.{HasTimes, sum_in};

use paper_counts::owners_of;
use paper_nests::Nest;
use paper_placements::Placement;

// The most turns of a loop, and the fewest of one inside another and of the outermost.
pub const MOST: u8 = 16;

pub const INNER: u8 = 2;

pub const OUTER: u8 = 1;

// As many turns as there are loops, the first from `first`, the others from `inner`, none above 16. Both are bounds
// that turns are compared with, and choose no step.
pub fn turns_fit(points: &[u8], turns: &[u8], first: u8, inner: u8) -> bool
    ensures { result ≡ fit_in first inner points.now turns.now }
{
    turns.len() == loops_in(points) && are_turns(turns, first, inner)
}

// The placement's barrier calls: each barrier counts the product of the turns of the loops around it.
pub fn calls_of(points: &[u8], p: Placement, turns: &[u8]) -> u64
    requires points_value { (is_shape points.now ≡ true) × (length points.now ≤ POINTS) }
    requires words_value { are_gaps_from 0 (length points.now) (gaps_in p.words) ≡ true }
    requires turns_value { fit_in 0 0 points.now turns.now ≡ true }
    ensures { result ≡ calls_in points.now turns.now (gaps_in p.words) }
{
    let times = times_of(points, turns);
    sum_at(&times, p)
}

// How often each gap is passed in a run: the product of the turns of the loops around it.
pub fn times_of(points: &[u8], turns: &[u8]) -> [u64; Nest::POINTS]
    requires points_value { (is_shape points.now ≡ true) × (length points.now ≤ POINTS) }
    requires turns_value { fit_in 0 0 points.now turns.now ≡ true }
    ensures { HasTimes points.now turns.now result }
{
    let owners = owners_of(points);
    let mut times = [1; Nest::POINTS];
    let mut next: usize = 0;
    for i in 0..points.len() - 1 {
        if points[i] == paper_nests::DO {
            times[i + 1] = turns[next] as u64 * times[i];
            next += 1;
        } else {
            let d = owners[i + 1];
            times[i + 1] = times[d + 1];
        }
    }
    times
}

// The sum of the table's entries at the gaps of a placement.
pub fn sum_at(times: &[u64; Nest::POINTS], p: Placement) -> u64
    requires { sum_in times.now (gaps_in p.words) < 2 ^ 64 }
    ensures { result ≡ sum_in times.now (gaps_in p.words) }
{
    let mut calls: u64 = 0;
    for g in 0..Placement::GAPS {
        if p.holds(g) {
            calls += times[g];
        }
    }
    calls
}

// How many loops there are.
fn loops_in(points: &[u8]) -> usize
    ensures { result ≡ dos_before points.now (length points.now) }
{
    points.iter().filter(|&&p| p == paper_nests::DO).count()
}

// All turns are within their bounds.
fn are_turns(turns: &[u8], first: u8, inner: u8) -> bool
    ensures { result ≡ are_turns first inner turns.now }
{
    let mut low = first;
    for &t in turns {
        if t < low || MOST < t {
            return false;
        }
        low = inner;
    }
    true
}
