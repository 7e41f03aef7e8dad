// An argument judged: the claims of a text in turn, each by its steps, over tables of the nest.
#![tactic(auto)]

ghost use Rattle.std.specs.Prelude.{◌≡◌, true, ◌&&◌, ◌||◌, not, ℕ, ◌+◌, ◌≤◌, ◌<◌, eqb, length, is_some, IfSome};
ghost use Rattle.laws.specs.Choice.{pick};
ghost use Rattle.laws.specs.Entries.{at};
ghost use Rattle.paper_nests.specs.Kinds.{POINTS};
ghost use Rattle.paper_nests.specs.Stored.{nest_in, IsCounted};
ghost use Rattle.paper_nests.specs.Valid.{is_valid};
ghost use Rattle.paper_lines.specs.Lines.{lines_of};
ghost use Rattle.paper_placements.specs.Placements.{are_gaps};
ghost use Rattle.paper_placements.specs.Words.{holds, gaps_in};
ghost use Rattle.argue_claims.specs.Arguments.{greatest};
ghost use Rattle.argue_texts.specs.ArgumentTexts.{CLAIMS, argument_fault, parts_of};
ghost use Rattle.argue_texts.specs.Judged.{judged};
ghost use Rattle.argue_weigh.specs.Striking.{StrikingRoom};
ghost use Rattle.argue_judge.specs.Starts.{first_at, FirstRoom, FirstStruck};
ghost use Rattle.argue_judge.specs.Ends.{low_by, shown_by, exact_by, ShownRoom, ClosingRoom, Closed};
ghost use Rattle.argue_judge.specs.Ends.{low_at, all_low_in};
ghost use Rattle.argue_judge.specs.Opened.{open_of, asked_of, dependence_of};
ghost use Rattle.argue_judge.specs.Judging.{Judgeable, JudgedBy, line_in};

use argue_texts::{CLAIMS, Claimed, Part, Set, part_of};
use argue_weigh::{Asked, Ended, Open, most_of, strike, take_step};
use paper_counts::{counts_of, owners_of};
use paper_lines::{digit_values, read_line};
use paper_nests::{Dependence, Nest, ends_of, is_do};
use paper_placements::{Placement, set_of};

// The first line of an argument text that does not hold, for a nest and a placement of its gaps, if there is one. The
// text is one without fault.
pub fn judge(nest: Nest, key: Placement, text: &[u8]) -> Option<usize>
    requires counted { IsCounted nest }
    requires nest_value { is_valid (nest_in nest) ≡ true }
    requires words_value { are_gaps (nest_in nest) (gaps_in key.words) ≡ true }
    requires text_value { (argument_fault text.now).number ≡ 0 }
    ensures first { line_in result ≡ judged (nest_in nest) (gaps_in key.words) (parts_of (lines_of text.now)) }
    ensures found { IfSome result (λ l. 0 < l) }
{
    let points = nest.points();
    let owners = owners_of(points);
    let ends = ends_of(points);
    let counts = counts_of(points, key);
    let barred = set_of(nest.barred_gaps());
    judge_lines(nest, points, &owners, &ends, &counts, barred, text)
}

// The same over tables of the nest: the loop of every gap, the ENDDO and the count of every loop, the barred gaps. Of a
// text without fault no line is refused, and no part unknown.
fn judge_lines(
    nest: Nest,
    points: &[u8],
    owners: &[usize],
    ends: &[usize],
    counts: &[usize],
    barred: Placement,
    text: &[u8],
) -> Option<usize>
    requires judgeable { Judgeable nest points.now owners.now ends.now counts.now barred.words }
    requires text_value { (argument_fault text.now).number ≡ 0 }
    ensures first { JudgedBy nest points.now owners.now ends.now counts.now
        text.now result }
    ensures found { IfSome result (λ l. 0 < l) }
{
    let values = digit_values();
    let deps = nest.dependences();
    let last = points.len() - 1;
    let mut struck = first_struck(points.len(), barred, owners, counts);
    let mut times = no_times();
    // No heap: a list of fixed room, and how many it has.
    let mut claims = no_claims();
    let mut low = Placement::empty();
    let mut gone = Placement::empty();
    let mut head = Claimed { d: 0, a: 0, b: 0 };
    let mut opened: Option<usize> = None;
    let mut c: usize = 0;
    let mut by: Option<usize> = None;
    let mut known: usize = 0;
    let mut at: usize = 0;
    let mut line: usize = 1;
    loop {
        let claim = open_of(head, ends);
        let barriers = counts[claim.d];
        match read_line(text, at, &values) {
            Ok(None) => {
                if !close(
                    opened,
                    claim,
                    c,
                    barriers,
                    last,
                    owners,
                    &times,
                    &mut struck,
                ) {
                    return opened;
                }
                let lows = with_low(opened, head, low);
                if !all_low(points, counts, lows) {
                    return Some(line);
                }
                return None;
            }
            Err(_) => return Some(line),
            Ok(Some(f)) => {
                match part_of(f) {
                    Part::Claims(k) => {
                        if !close(
                            opened,
                            claim,
                            c,
                            barriers,
                            last,
                            owners,
                            &times,
                            &mut struck,
                        ) {
                            return opened;
                        }
                        if !is_do(points, k.d as usize) {
                            return Some(line);
                        }
                        claims[known] = head;
                        low = with_low(opened, head, low);
                        known = with_known(opened, known);
                        times = no_times();
                        gone = Placement::empty();
                        head = k;
                        opened = Some(line);
                        c = 0;
                        by = None;
                    }
                    Part::By(m) => by = Some(m as usize),
                    Part::Names(s) => {
                        let asked = asked_of(s, by, deps, ends);
                        let Some(taken) = take_step(
                            last,
                            claim,
                            asked,
                            c,
                            gone,
                            &claims[..known],
                            ends,
                            owners,
                            &struck,
                            &mut times,
                        ) else {
                            return Some(line);
                        };
                        c = taken.c;
                        gone = taken.gone;
                        by = None;
                    }
                    Part::Unknown => return Some(line),
                }
                at = f.next;
                line += 1;
            }
        }
    }
}

// A step as it is asked.
fn asked_of(set: Set, by: Option<usize>, deps: &[Dependence], ends: &[usize]) -> Asked
    requires { length ends.now ≡ POINTS }
    ensures { result ≡ asked_of set by deps.now ends.now }
{
    Asked {
        set,
        by,
        dependence: dependence_of(set, deps, ends),
    }
}

// The dependence of a set, where it is one's and is there, with the ENDDO of the loop that carries it.
fn dependence_of(set: Set, deps: &[Dependence], ends: &[usize]) -> Option<Ended>
    requires { length ends.now ≡ POINTS }
    ensures { result ≡ dependence_of set deps.now ends.now }
{
    match set {
        Set::Dependence(k) if k < deps.len() => {
            let e = deps[k];
            Some(Ended {
                e,
                end: ends[e.d as usize],
            })
        }
        _ => None,
    }
}

// No gap named.
fn no_times() -> [usize; Nest::POINTS]
    ensures by_index { (g : ℕ) → at result g ≡ 0 }
    ensures result_len { length result ≡ POINTS }
{
    [0; Nest::POINTS]
}

// Room for every claim.
fn no_claims() -> [Claimed; CLAIMS]
    ensures { length result ≡ CLAIMS }
{
    [Claimed { d: 0, a: 0, b: 0 }; CLAIMS]
}

// A claim with the ENDDO of its loop.
fn open_of(k: Claimed, ends: &[usize]) -> Open
    requires { length ends.now ≡ POINTS }
    ensures value { result ≡ open_of ends.now k }
    ensures a_bound { (result.a < POINTS) × (result.b < POINTS) }
{
    let d = k.d as usize;
    Open {
        d,
        e: ends[d],
        a: k.a as usize,
        b: k.b as usize,
    }
}

// The claims known once the open one is; where none is open, as before.
fn with_known(line: Option<usize>, known: usize) -> usize
    requires { known < CLAIMS }
    ensures { result ≡ pick (is_some line) (known + 1) known }
{
    known + usize::from(line.is_some())
}

// The loops with a low claim, once the open claim is known.
fn with_low(line: Option<usize>, k: Claimed, low: Placement) -> Placement
    ensures { (i : ℕ) → holds result.words i
        ≡ ((is_some line && (low_by k.a k.b && eqb i k.d)) || holds low.words i) }
{
    if line.is_some() && is_low(k.a as usize, k.b as usize) {
        return low.put(k.d as usize);
    }
    low
}

// What is excluded before any claim, as one number a gap: of a barred gap one above every loop, of a gap of a loop with
// count 0 one more than the loop.
fn first_struck(
    count: usize,
    barred: Placement,
    owners: &[usize],
    counts: &[usize],
) -> [usize; Nest::POINTS]
    requires { FirstRoom count owners.now counts.now }
    ensures { FirstStruck count barred.words owners.now counts.now result }
{
    let mut struck = [0; Nest::POINTS];
    for g in 0..count {
        let d = owners[g];
        struck[g] = first_at(barred.holds(g), d, counts[d]);
    }
    struck
}

// The number of one gap.
fn first_at(barred: bool, owner: usize, count: usize) -> usize
    requires { owner < POINTS }
    ensures { result ≡ first_at barred owner count }
{
    if barred {
        Nest::POINTS + 1
    } else if count == 0 {
        owner + 1
    } else {
        0
    }
}

// The open claim ends: whether its steps show it; what it excludes is then noted. Where none is open, nothing is.
fn close(
    line: Option<usize>,
    claim: Open,
    c: usize,
    count: usize,
    last: usize,
    owners: &[usize],
    times: &[usize],
    struck: &mut [usize],
) -> bool
    requires striking_room { StrikingRoom claim.d claim.e owners.now times.now struck.old }
    requires closing_room { ClosingRoom last c count times.now }
    ensures value { result
        ≡ (not (is_some line) || shown_by (low_by claim.a claim.b) c (greatest (at times.now) last) count) }
    ensures closed { result ≡ true → Closed line claim.d claim.e claim.a claim.b c count last owners.now
        times.now struck.old struck.new }
{
    if line.is_none() {
        return true;
    }
    let most = most_of(last, times);
    if !is_shown(claim, c, most, count) {
        return false;
    }
    let exact = is_exact(claim, c, most, count);
    strike(claim, exact, most, owners, times, struck);
    true
}

// The claim is low.
fn is_low(a: usize, b: usize) -> bool
    ensures { result ≡ low_by a b }
{
    a == 0 && b == 0
}

// So many sets show the claim, with no gap in more than `most` of them.
fn is_shown(claim: Open, c: usize, most: usize, count: usize) -> bool
    requires { ShownRoom c most count }
    ensures { result ≡ shown_by (low_by claim.a claim.b) c most count }
{
    if is_low(claim.a, claim.b) {
        count * most < c + most
    } else {
        count * most < c
    }
}

// The claim is low, and exact: as many sets as the count times the most.
fn is_exact(claim: Open, c: usize, most: usize, count: usize) -> bool
    requires { ShownRoom c most count }
    ensures { result ≡ exact_by (low_by claim.a claim.b) c most count }
{
    is_low(claim.a, claim.b) && c == count * most
}

// Every loop with a count has its low claim.
fn all_low(points: &[u8], counts: &[usize], low: Placement) -> bool
    requires { (length points.now ≤ POINTS) × (length counts.now ≡ POINTS) }
    ensures { result ≡ all_low_in points.now counts.now low.words (length points.now) }
{
    for d in (0..points.len()).rev() {
        if !has_low(points, counts, low, d) {
            return false;
        }
    }
    true
}

// The point is no loop's DO, or the loop has count 0, or its low claim is among those known.
fn has_low(points: &[u8], counts: &[usize], low: Placement, d: usize) -> bool
    requires d_bound { d < POINTS }
    requires counts_len { length counts.now ≡ POINTS }
    ensures { result ≡ low_at points.now counts.now low.words d }
{
    !is_do(points, d) || counts[d] == 0 || low.holds(d)
}
