// The call of the textbook method for a nest of one loop: each gap is tried as a first barrier, the line behind it is cut
// greedily at each first interval end, and the smallest result is kept.
#![tactic(auto)]

ghost use Rattle.std.specs.Prelude.{◌≡◌, true, ◌+◌, ◌<◌, ◌≤◌, length, IfSome};
ghost use Rattle.std.specs.Option.{unwrap_or};
ghost use Rattle.laws.specs.Entries.{at};
ghost use Rattle.paper_nests.specs.Ring.{one_loop};
ghost use Rattle.paper_nests.specs.Valid.{is_valid};
ghost use Rattle.paper_nests.specs.Stored.{dep_in, nest_in, IsCounted};
ghost use Rattle.paper_placements.specs.Placements.{is_free};
ghost use Rattle.paper_placements.specs.Words.{GAPS, gaps_of, gaps_in};
ghost use Rattle.desk.specs.Desks.{IsMade};
ghost use Rattle.call_textbook.specs.Places.{PLACES, gap_at, last_place, cuts_behind, least_from};
ghost use Rattle.call_textbook.specs.Steps.{SmallestSays, Placed, AllPlaced, FreeSays, LatestSays};
ghost use Rattle.call_textbook.specs.Steps.{EnterSays, RaiseSays, LaySays};
ghost use Rattle.call_textbook.specs.Says.{TextbookSays};

use desk::{Chosen, Desk, not_chosen};
use paper_nests::{Dependence, Nest};
use paper_placements::Placement;
use paper_refusals::Refusal;

// As many places as a table has: those of the longest ring, laid out twice, and place 0.
const PLACES: usize = 512;

// A ring of m gaps laid out twice: of each place the latest start of the dependences that end there; 0 for none: no
// start is at or before it.
#[derive(Clone, Copy)]
struct Ring<'a> {
    m: usize,
    latest: &'a [usize; PLACES],
    ghost few: { m < GAPS },
}

// The placement of the textbook method for the desk's nest. Numbers 10, 14, 15.
pub fn textbook(desk: Desk) -> Chosen
    requires { IsMade desk }
    ensures { TextbookSays desk result }
{
    if !desk.loaded {
        return not_chosen(Refusal::NoNest);
    }
    let nest = desk.nest;
    if !paper_nests::is_one_loop(nest.points()) {
        return not_chosen(Refusal::NotOneLoop);
    }
    if plan_paper::is_blocked(nest) {
        return not_chosen(Refusal::Blocked);
    }
    Chosen {
        number: 0,
        line: 0,
        set: smallest(nest, paper_barred::barred_of(nest)),
    }
}

// The placement of the textbook method for a nest of one loop, where `barred` holds the barred gaps.
fn smallest(nest: Nest, barred: Placement) -> Placement
    requires counted { IsCounted nest }
    requires nest_value { is_valid (nest_in nest) ≡ true }
    requires nest_value_2 { one_loop (nest_in nest).points ≡ true }
    ensures { SmallestSays (nest_in nest).points (nest_in nest).deps barred.words result.words }
{
    if nest.many == 0 {
        return Placement::empty();
    }
    let m = nest.count - 1;
    let latest = latest_starts(nest, barred, m);
    let ring = Ring { m, latest: &latest };
    match first_barrier(&ring, barred) {
        None => Placement::empty(),
        Some(g) => lay(&ring, g),
    }
}

// The gap at a place of a ring of m gaps laid out twice.
fn gap_at(m: usize, p: usize) -> usize
    ensures { result ≡ gap_at m p }
{
    if p <= m { p } else { p - m }
}

// The last place of a dependence's gaps on a ring of m; the first is the one after its source.
fn last_place(m: usize, e: Dependence) -> usize
    requires { m < GAPS }
    ensures { result ≡ last_place m (dep_in e) }
{
    let s = e.s as usize;
    let t = e.t as usize;
    if e.kind == paper_nests::INDEPENDENT {
        t
    } else {
        m + s.min(t)
    }
}

// Of each place the last unbarred place at or before it; 0 for none: no start is at or before it.
fn last_free(barred: Placement, m: usize) -> [usize; PLACES]
    requires { m < GAPS }
    ensures { FreeSays (gaps_in barred.words) m result }
{
    let mut free = [0; PLACES];
    for p in 1..m + m + 1 {
        free[p] = if barred.holds(gap_at(m, p)) {
            free[p - 1]
        } else {
            p
        };
    }
    free
}

// Of each place the latest start of the dependences that end there; 0 for none: no start is at or before it.
fn latest_starts(nest: Nest, barred: Placement, m: usize) -> [usize; PLACES]
    requires counted { IsCounted nest }
    requires m_bound { m < GAPS }
    requires all_placed { AllPlaced m (nest_in nest).deps }
    ensures { LatestSays (gaps_in barred.words) m (nest_in nest).deps result }
{
    let free = last_free(barred, m);
    let mut latest = [0; PLACES];
    for &e in nest.dependences() {
        enter(&mut latest, &free, m, e);
    }
    latest
}

// One dependence more. It ends at its last unbarred place, and again once round the ring.
fn enter(latest: &mut [usize], free: &[usize; PLACES], m: usize, e: Dependence)
    requires m_bound { m < GAPS }
    requires placed { Placed m (dep_in e) }
    requires e_bound { at free.now (last_place m (dep_in e)) ≤ m + m }
    requires latest_len { length latest.old ≡ PLACES }
    ensures { EnterSays free.now m (dep_in e) latest.old latest.new }
{
    let start = e.s as usize + 1;
    let end = last_place(m, e);
    let last = free[end];
    if start <= last {
        raise(latest, last, start);
        if last <= m {
            raise(latest, last + m, start + m);
        }
    }
}

// The start at place p becomes no earlier than this one.
fn raise(latest: &mut [usize], p: usize, start: usize)
    requires { p < length latest.old }
    ensures { RaiseSays p start latest.old latest.new }
{
    latest[p] = latest[p].max(start);
}

// The first barrier whose line takes the fewest cuts, the first of equals.
fn first_barrier(ring: &Ring, barred: Placement) -> Option<usize>
    ensures first { unwrap_or result 0 ≡ least_from (cuts_behind (at ring.now.latest.now) ring.now.m) 0 PLACES
        (gaps_of (is_free (gaps_in barred.words)) ring.now.m 1) }
    ensures found { IfSome result (λ g. 0 < g) }
{
    let mut best = None;
    let mut least = PLACES;
    for g in 1..ring.m + 1 {
        if barred.holds(g) {
            continue;
        }
        let cuts = count_cuts(ring, g);
        if cuts < least {
            least = cuts;
            best = Some(g);
        }
    }
    best
}

// How many cuts the line behind g takes. `lay` walks the same way: a closure for both would have to carry the placement.
fn count_cuts(ring: &Ring, g: usize) -> usize
    requires { (0 < g) × (g ≤ ring.now.m) }
    ensures { result ≡ cuts_behind (at ring.now.latest.now) ring.now.m g }
{
    let mut cuts = 0;
    let mut last = g;
    for p in g + 1..g + ring.m {
        if last < ring.latest[p] {
            cuts += 1;
            last = p;
        }
    }
    cuts
}

// The first barrier g and the cuts of the line behind it.
fn lay(ring: &Ring, g: usize) -> Placement
    requires { (0 < g) × (g ≤ ring.now.m) }
    ensures { LaySays (at ring.now.latest.now) ring.now.m g result.words }
{
    let mut placement = Placement::empty().put(g);
    let mut last = g;
    for p in g + 1..g + ring.m {
        if last < ring.latest[p] {
            placement = placement.put(gap_at(ring.m, p));
            last = p;
        }
    }
    placement
}
