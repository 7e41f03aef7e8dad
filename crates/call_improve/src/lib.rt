// Fewer calls where loops run once: tries from the key within a budget, and a floor under the calls of every correct
// placement.
#![tactic(auto)]

ghost use Rattle.std.specs.Prelude.{◌≡◌, true, ◌<◌, ◌≤◌};
ghost use Rattle.paper_refusals.specs.Numbers.{number_of};
ghost use Rattle.paper_nests.specs.Kinds.{POINTS};
ghost use Rattle.paper_nests.specs.Stored.{nest_in};
ghost use Rattle.paper_placements.specs.Placements.{uncut, are_gaps};
ghost use Rattle.paper_placements.specs.Words.{GAPS, holds, gaps_in};
ghost use Rattle.paper_gaps.specs.Lies.{WithEnds, LiesTo};
ghost use Rattle.desk.specs.Desks.{IsMade};
ghost use Rattle.call_improve.specs.Places.{FreeFrom, HasLatest};
ghost use Rattle.call_improve.specs.Tops.{HighestSays};
ghost use Rattle.call_improve.specs.Cheapest.{LeastIn, CheapestSays};
ghost use Rattle.call_improve.specs.Steps.{FewTimes, reached, CurrentSays, TryAsks, TrySays, FloorSays};
ghost use Rattle.call_improve.specs.Steps.{SearchAsks, SearchSays};
ghost use Rattle.call_improve.specs.Says.{reply_in, refusal, ImproveSays};

use call_runs::can_count;
use desk::{Desk, key_fault};
use paper_gaps::with_gaps;
use paper_nests::{Dependence, Nest};
use paper_placements::{Placement, cut_in};
use paper_refusals::Refusal;
use run_count::{OUTER, sum_at, times_of};

// What ended the tries: a round through all gaps in which none was taken, or the budget before the round was through.
// The C interface: desk.h lays it out.
pub const ROUND: u8 = 0;

pub const BUDGET: u8 = 1;

// The number and the line of a refusal, 0 and 0 for none; where the tries lead, its calls, how many tries were made and
// what ended them; the floor. The C interface: desk.h lays it out.
#[repr(C)]
#[derive(Clone, Copy)]
pub struct Improved {
    pub number: u8,
    pub line: usize,
    pub placement: Placement,
    pub calls: u64,
    pub tries: usize,
    pub ended: u8,
    pub floor: u64,
}

// A nest with its tables: the ENDDO of each DO, and how often each gap is passed.
#[derive(Clone, Copy)]
struct Tables<'a> {
    nest: &'a Nest,
    ends: &'a [usize; Nest::POINTS],
    times: &'a [u64; Nest::POINTS],
    ghost with_ends: { WithEnds nest.now ends.now },
}

// A placement with its calls and, in chains, the dependences by the highest barrier that cuts them: the first of each
// barrier's, and after each dependence the next of the same barrier; the number of dependences for none.
// No heap: chains of indices.
#[derive(Clone, Copy)]
struct Current {
    placement: Placement,
    calls: u64,
    first: [usize; Nest::POINTS],
    next: [usize; Nest::DEPENDENCES],
}

// What a try leaves, with its calls.
#[derive(Clone, Copy)]
struct Try {
    placement: Placement,
    calls: u64,
}

// Tries from the key for fewer calls, given a number of turns, from 1, for each loop in order of its DO and a budget of
// tries; and the floor. Numbers 10, 11, 17.
pub fn improve(desk: Desk, turns: &[u8], budget: usize) -> Improved
    requires { IsMade desk }
    ensures { ImproveSays desk turns.now budget result }
{
    if let Err(refusal) = key_fault(desk.loaded, desk.planned) {
        return refused(refusal);
    }
    if !can_count(desk.nest, turns, OUTER) {
        return refused(Refusal::WrongTurns);
    }
    improve_key(desk.nest, desk.key, turns, budget)
}

// The reply that refuses.
fn refused(reason: Refusal) -> Improved
    ensures { reply_in result ≡ refusal (number_of reason) }
{
    Improved {
        number: u8::from(reason),
        line: 0,
        placement: Placement::empty(),
        calls: 0,
        tries: 0,
        ended: 0,
        floor: 0,
    }
}

// Tries from the key, and the floor. It ends for every budget, also 2⁶⁴ - 1: each turn of the loop is a try that the
// budget counts. Long before that a whole round changes nothing, since each try that is taken has fewer calls than the
// placement before it, the key at most 255 · 16⁸, and a round has at most 255 tries.
fn improve_key(nest: Nest, key: Placement, turns: &[u8], budget: usize) -> Improved
    requires { SearchAsks nest key turns.now }
    ensures { SearchSays (nest_in nest) turns.now (gaps_in key.words) budget result }
{
    let count = nest.count;
    let points = nest.points();
    let times = times_of(points, turns);
    let ends = paper_nests::ends_of(points);
    let tables = Tables {
        nest: &nest,
        ends: &ends,
        times: &times,
    };
    let floor = floor_of(&tables);
    let calls = sum_at(&times, key);
    let mut current = current_of(&tables, key, calls);
    let mut tries: usize = 0;
    let mut g = free_from(key, 1, count);
    while g < count {
        if tries == budget {
            return outcome_of(current, tries, BUDGET, floor);
        }
        let tried = try_at(&tables, &current, g);
        tries += 1;
        if tried.calls < current.calls {
            current = current_of(&tables, tried.placement, tried.calls);
            g = free_from(tried.placement, 1, count);
        } else {
            g = free_from(current.placement, g + 1, count);
        }
    }
    outcome_of(current, tries, ROUND, floor)
}

// The current placement and its calls, with the other answers. What ended the tries is a byte: the C interface (desk.h)
// lays the reply out with it.
fn outcome_of(current: Current, tries: usize, ended: u8, floor: u64) -> Improved
    ensures { reply_in result ≡ reached current tries ended floor }
{
    Improved {
        number: 0,
        line: 0,
        placement: current.placement,
        calls: current.calls,
        tries,
        ended,
        floor,
    }
}

// The lowest gap from lo on without a barrier; `count` for none: the walk over the gaps ends with it.
fn free_from(p: Placement, lo: usize, count: usize) -> usize
    requires { (lo ≤ count) × (count ≤ GAPS) }
    ensures { FreeFrom p.words lo count result }
{
    for g in lo..count {
        if !p.holds(g) {
            return g;
        }
    }
    count
}

// For each gap the highest barrier up to it; 0 for none: it is below every gap.
fn latest_of(p: Placement) -> [usize; Nest::POINTS]
    ensures { HasLatest p.words result }
{
    let mut latest = [0; Nest::POINTS];
    let mut last: usize = 0;
    for g in 0..Placement::GAPS {
        if p.holds(g) {
            last = g;
        }
        latest[g] = last;
    }
    latest
}

// The highest barrier that cuts the dependence, where `end` is the ENDDO of the loop that carries it.
fn highest(latest: &[usize; Nest::POINTS], end: usize, e: Dependence) -> usize
    requires { LiesTo e end }
    ensures { HighestSays latest.now end e result }
{
    let s = e.s as usize;
    let t = e.t as usize;
    if e.kind == paper_nests::INDEPENDENT {
        return latest[t];
    }
    let h = latest[end];
    if s < h {
        return h;
    }
    latest[t]
}

// The placement, which cuts every dependence, with its calls and chains. The loop goes by index, as the chains are of
// indices.
fn current_of(tables: &Tables, p: Placement, calls: u64) -> Current
    requires words_value { are_gaps (nest_in tables.now.nest.now) (gaps_in p.words) ≡ true }
    requires words_value_2 { uncut (nest_in tables.now.nest.now) (gaps_in p.words) ≡ 0 }
    ensures { CurrentSays (nest_in tables.now.nest.now) p calls result }
{
    let many = tables.nest.many;
    let latest = latest_of(p);
    let mut first = [many; Nest::POINTS];
    let mut next = [many; Nest::DEPENDENCES];
    for i in (0..many).rev() {
        let e = tables.nest.deps[i];
        let h = highest(&latest, tables.ends[e.d as usize], e);
        next[i] = first[h];
        first[h] = i;
    }
    Current {
        placement: p,
        calls,
        first,
        next,
    }
}

// A try at gap g: the new barrier and, from the lowest on, each other barrier that is needed, as it is the highest of a
// dependence that no barrier kept so far cuts.
fn try_at(tables: &Tables, current: &Current, g: usize) -> Try
    requires { TryAsks tables.now.nest.now current.now tables.now.times.now g }
    ensures { TrySays (nest_in tables.now.nest.now) (gaps_in current.now.placement.words) tables.now.times.now g
        result }
{
    let count = tables.nest.count;
    let many = tables.nest.many;
    let none = Placement::empty();
    let mut placement = none.put(g);
    let mut calls = tables.times[g];
    let mut h: usize = 0;
    let mut i = many;
    loop {
        if i < many {
            let e = tables.nest.deps[i];
            if cut_in(tables.ends[e.d as usize], placement, e).is_some() {
                i = current.next[i];
            } else {
                placement = placement.put(h);
                calls += tables.times[h];
                i = many;
            }
        } else {
            h += 1;
            if count <= h {
                return Try { placement, calls };
            }
            i = current.first[h];
        }
    }
}

// Through the dependences in order, the calls of the cheapest gap of each that shares none with those taken before.
fn floor_of(tables: &Tables) -> u64
    requires { FewTimes tables.now.nest.now.count tables.now.times.now }
    ensures { FloorSays (nest_in tables.now.nest.now) tables.now.times.now result }
{
    let mut taken = Placement::empty();
    let mut floor: u64 = 0;
    for &e in tables.nest.dependences() {
        let end = tables.ends[e.d as usize];
        if cut_in(end, taken, e).is_none() {
            floor += cheapest_of(tables.times, end, e);
            taken = with_gaps(taken, end, e);
        }
    }
    floor
}

// The calls of the dependence's cheapest gap, where `end` is the ENDDO of the loop that carries it.
fn cheapest_of(times: &[u64; Nest::POINTS], end: usize, e: Dependence) -> u64
    requires { LiesTo e end }
    ensures { CheapestSays times.now end e result }
{
    let s = e.s as usize;
    let t = e.t as usize;
    if e.kind == paper_nests::INDEPENDENT {
        return least_in(times, s + 1, t);
    }
    let d = e.d as usize;
    let a = least_in(times, d + 1, t);
    let b = least_in(times, s + 1, end);
    a.min(b)
}

// The least entry from lo to hi.
fn least_in(times: &[u64; Nest::POINTS], lo: usize, hi: usize) -> u64
    requires { (lo ≤ hi) × (hi < POINTS) }
    ensures { LeastIn times.now lo hi result }
{
    let mut least = times[lo];
    for &w in &times[lo + 1..hi + 1] {
        least = least.min(w);
    }
    least
}
