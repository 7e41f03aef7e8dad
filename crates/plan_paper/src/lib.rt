// Papers with barred gaps: the gaps that are not barred are renumbered, the nest that they make is planned, and its key
// is taken back.
#![tactic(auto)]

ghost use Rattle.std.specs.Prelude.{◌≡◌, true, ◌-◌};
ghost use Rattle.paper_nests.specs.Kinds.{INDEPENDENT};
ghost use Rattle.paper_nests.specs.Nests.{dep};
ghost use Rattle.paper_nests.specs.Ring.{one_loop};
ghost use Rattle.paper_nests.specs.Stored.{dep_in, nest_in, IsCounted};
ghost use Rattle.paper_nests.specs.Valid.{is_valid};
ghost use Rattle.paper_placements.specs.Words.{gaps_in};
ghost use Rattle.paper_barred.specs.Ranks.{unranked};
ghost use Rattle.paper_barred.specs.Reduced.{is_blocked};
ghost use Rattle.plan_paper.specs.Tables.{HasFree, HasRanks};
ghost use Rattle.plan_paper.specs.Renumbering.{is_shut_at, stays, stretch, ring_end, ReduceSays};
ghost use Rattle.plan_paper.specs.Papers.{PaperSays};

use paper_nests::{Dependence, Nest};
use paper_placements::Placement;

// The key of a paper; none where some dependence has all its gaps barred.
pub fn plan_paper(nest: Nest) -> Option<Placement>
    requires counted { IsCounted nest }
    requires nest_value { is_valid (nest_in nest) ≡ true }
    ensures { PaperSays (nest_in nest) result }
{
    if nest.bars == 0 {
        return Some(plan_nest::plan(nest));
    }
    let ranks = ranks_of(nest);
    let ring = reduce(nest, &ranks)?;
    let key = plan_nest::plan(ring);
    Some(taken_back(nest, &ranks, key))
}

// Some dependence has all its gaps barred.
pub fn is_blocked(nest: Nest) -> bool
    requires counted { IsCounted nest }
    requires nest_value { is_valid (nest_in nest) ≡ true }
    ensures { result ≡ is_blocked (nest_in nest) }
{
    nest.bars != 0 && reduce(nest, &ranks_of(nest)).is_none()
}

// Of each gap how many up to it are not barred.
#[inline(never)]
pub fn ranks_of(nest: Nest) -> [u8; Nest::POINTS]
    requires { IsCounted nest }
    ensures { HasRanks (nest_in nest).barred result }
{
    let mut ranks = free_of(nest);
    let mut rank: u8 = 0;
    ranks[0] = rank;
    for g in 1..Nest::POINTS {
        rank += ranks[g];
        ranks[g] = rank;
    }
    ranks
}

// Of each gap 1 where it is not barred, else 0.
fn free_of(nest: Nest) -> [u8; Nest::POINTS]
    requires { IsCounted nest }
    ensures { HasFree (nest_in nest).barred result }
{
    let mut free = [1; Nest::POINTS];
    for i in (0..nest.bars).rev() {
        let g = nest.barred[i] as usize;
        free[g] = 0;
    }
    free
}

// The nest of the unbarred gaps of a nest of one loop, renumbered by their ranks; none where it is blocked. Its points
// are there already, but for the ENDDO; of a dependence that stays only the two points are new.
#[inline(never)]
pub fn reduce(nest: Nest, ranks: &[u8; Nest::POINTS]) -> Option<Nest>
    requires counted { IsCounted nest }
    requires nest_value { is_valid (nest_in nest) ≡ true }
    requires nest_value_2 { one_loop (nest_in nest).points ≡ true }
    requires has_ranks { HasRanks (nest_in nest).barred ranks.now }
    ensures { ReduceSays (nest_in nest) result }
{
    let last = nest.count - 1;
    let top = ranks[last];
    let end = ring_end(top);
    let mut ring = nest;
    ring.points[end] = paper_nests::ENDDO;
    ring.count = end + 1;
    ring.bars = 0;
    ring.flags = 0;
    // By index, from the last dependence to the first, as the laws go.
    for i in (0..nest.many).rev() {
        let dep = nest.deps[i];
        let kind = dep.kind;
        let s = ranks[dep.s as usize];
        let t = ranks[dep.t as usize];
        if stays(kind, top, s, t) {
            ring.deps[i].s = s;
            ring.deps[i].t = t;
        } else if is_shut(kind, top, s, t) {
            return None;
        } else {
            ring.deps[i] = stretch(top, s, t);
        }
    }
    Some(ring)
}

// The ENDDO of a loop with the gaps 1 to top.
fn ring_end(top: u8) -> usize
    ensures { result ≡ ring_end top }
{
    usize::from(top).max(1)
}

// The dependence has unbarred gaps and keeps its kind; s and t are the ranks of its points, top is the greatest.
fn stays(kind: u8, top: u8, s: u8, t: u8) -> bool
    ensures { result ≡ stays kind top s t }
{
    if kind == paper_nests::INDEPENDENT {
        s != t
    } else {
        t < s && 0 < t && s < top
    }
}

// All gaps of the dependence are barred.
fn is_shut(kind: u8, top: u8, s: u8, t: u8) -> bool
    ensures { result ≡ is_shut_at kind top s t }
{
    if kind == paper_nests::INDEPENDENT {
        s == t
    } else {
        t == 0 && s == top
    }
}

// What becomes of a carried dependence that does not stay: an independent one.
fn stretch(top: u8, s: u8, t: u8) -> Dependence
    ensures { dep_in result ≡ stretch top s t }
{
    if s <= t {
        line(0, top)
    } else if t == 0 {
        line(s, top)
    } else {
        line(0, t)
    }
}

// An independent dependence.
fn line(s: u8, t: u8) -> Dependence
    ensures { dep_in result ≡ dep INDEPENDENT 0 s t }
{
    Dependence {
        kind: paper_nests::INDEPENDENT,
        d: 0,
        s,
        t,
    }
}

// The gaps that are not barred and whose rank the key holds.
#[inline(never)]
pub fn taken_back(nest: Nest, ranks: &[u8; Nest::POINTS], key: Placement) -> Placement
    requires counted { IsCounted nest }
    requires has_ranks { HasRanks (nest_in nest).barred ranks.now }
    ensures { gaps_in result.words ≡ unranked (nest_in nest).barred (nest.count - 1) (gaps_in key.words) }
{
    let mut back = Placement::empty();
    let mut rank = key.lowest_from(1);
    for g in 1..nest.count {
        if ranks[g] as usize == rank {
            back = back.put(g);
            rank = key.lowest_from(rank + 1);
        }
    }
    back
}
