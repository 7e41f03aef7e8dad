// A claim of an argument, over tables: its steps, each of which names what is left of a set of gaps, and what it
// excludes once it holds.
#![tactic(auto)]

ghost use Rattle.std.specs.Prelude.{◌≡◌, true, false, ◌||◌, ℕ, ◌≤◌, ◌<◌, length};
ghost use Rattle.std.specs.Option.{is_some};
ghost use Rattle.laws.specs.Choice.{between};
ghost use Rattle.laws.specs.Entries.{at};
ghost use Rattle.paper_nests.specs.Kinds.{POINTS};
ghost use Rattle.paper_placements.specs.Words.{GAPS, holds};
ghost use Rattle.argue_claims.specs.Arguments.{every, greatest, counted};
ghost use Rattle.argue_texts.specs.ArgumentTexts.{STEPS};
ghost use Rattle.argue_texts.specs.Parts.{set_in, led_in};
ghost use Rattle.argue_weigh.specs.Naming.{left_at, within_at, lies_at, fine_at, NamingRoom, Named};
ghost use Rattle.argue_weigh.specs.Striking.{beyond_at, excludes_at, StrikingRoom, Struck};
ghost use Rattle.argue_weigh.specs.Taking.{set_fits, leads_on, led_at, SetRoom, IsSetOf, leads_at, gone_after};
ghost use Rattle.argue_weigh.specs.Taking.{LeadRoom, StepRoom, StepSays};

use argue_texts::{Claimed, Set};
use paper_gaps::{with_gaps, with_range};
use paper_nests::{Dependence, is_inside};
use paper_placements::Placement;

// The claim that is open: its loop's DO and ENDDO, its a and its b.
#[derive(Clone, Copy)]
pub struct Open {
    pub d: usize,
    pub e: usize,
    pub a: usize,
    pub b: usize,
}

// A dependence, and the ENDDO of the loop that carries it, where one does.
// The ENDDO is handed along: that it is the table's would be one thing more to ask of callers.
#[derive(Clone, Copy)]
pub struct Ended {
    pub e: Dependence,
    pub end: usize,
}

// A step: its set, and the claim that leads it, if one does; where the set is a dependence's, that dependence, if the
// nest has it.
#[derive(Clone, Copy)]
pub struct Asked {
    pub set: Set,
    pub by: Option<usize>,
    pub dependence: Option<Ended>,
}

// How many sets were counted, and what is gone, after a step that holds.
#[derive(Clone, Copy)]
pub struct Taken {
    pub c: usize,
    pub gone: Placement,
}

// One step of the claim that is open, behind these claims; nothing where it does not hold.
// name_gaps writes times and strike writes struck, so no struct lends all three lists.
pub fn take_step(
    last: usize,
    claim: Open,
    step: Asked,
    c: usize,
    gone: Placement,
    claims: &[Claimed],
    ends: &[usize],
    owners: &[usize],
    struck: &[usize],
    times: &mut [usize],
) -> Option<Taken>
    requires { StepRoom last claim step c claims.now ends.now owners.now struck.now times.old }
    ensures { StepSays last claim step c gone claims.now ends.now owners.now struck.now times.old
        times.new result }
{
    if !set_fits(claim, step) || !is_led(claim, claims, step.by) {
        return None;
    }
    let set = set_of(claim, step);
    let led = with_led(gone, claims, ends, step.by);
    if !name_gaps(last, claim.d, claim.e, set, led, owners, struck, times) {
        return None;
    }
    Some(Taken {
        c: counted(step.by, c),
        gone: gone_after(gone, claims, ends, step.by),
    })
}

// One step of a claim of the loop with DO d and ENDDO e: whether its set lies in the loop, and what is left of it are
// the loop's own gaps; each of these is then named once more.
pub fn name_gaps(
    last: usize,
    d: usize,
    e: usize,
    set: Placement,
    gone: Placement,
    owners: &[usize],
    struck: &[usize],
    times: &mut [usize],
) -> bool
    requires d_bound { d < POINTS }
    requires naming_room { NamingRoom last owners.now struck.now times.old }
    ensures value { result
        ≡ every (fine_at set.words gone.words owners.now struck.now d e) last }
    ensures named { result ≡ true → Named (left_at set.words gone.words struck.now d) last
        times.old times.new }
{
    for g in (1..last + 1).rev() {
        let left = left_at(set, gone, struck, d, g);
        if !lies_at(set, left, owners, d, e, g) {
            return false;
        }
        times[g] += usize::from(left);
    }
    true
}

// The most times that a gap was named, at least 1.
pub fn most_of(last: usize, times: &[usize]) -> usize
    requires { (last < POINTS) × (length times.now ≡ POINTS) }
    ensures { result ≡ greatest (at times.now) last }
{
    let mut most: usize = 1;
    for &named in &times[1..last + 1] {
        most = most.max(named);
    }
    most
}

// Notes what a claim excludes, now that it holds. `exact` is a fact of the claim, on which what it excludes depends.
pub fn strike(
    claim: Open,
    exact: bool,
    most: usize,
    owners: &[usize],
    times: &[usize],
    struck: &mut [usize],
)
    requires { StrikingRoom claim.d claim.e owners.now times.now struck.old }
    ensures { Struck (excludes_at claim.a claim.b exact most owners.now times.now claim.d) claim.d claim.e
        struck.old struck.new }
{
    for g in (claim.d + 1..claim.e + 1).rev() {
        if excludes(claim, exact, most, owners, times, g) {
            struck[g] = struck[g].max(claim.d + 1);
        }
    }
}

// The set is there, and where it goes up to b it ends in the loop.
fn set_fits(claim: Open, step: Asked) -> bool
    ensures { result ≡ set_fits claim (is_some step.dependence) (set_in step.set) }
{
    match step.set {
        Set::From => 0 < claim.a,
        Set::Upto => 0 < claim.b && claim.b <= claim.e,
        Set::Dependence(_) => step.dependence.is_some(),
    }
}

// What leads is nothing, or an earlier claim of a loop inside, with an a and a b.
fn is_led(claim: Open, claims: &[Claimed], by: Option<usize>) -> bool
    ensures { result ≡ led_at claim claims.now (led_in by) }
{
    match by {
        None => true,
        Some(m) => m < claims.len() && leads(claim, claims[m]),
    }
}

// The claim is one of a loop inside, with an a and a b.
fn leads(claim: Open, k: Claimed) -> bool
    ensures { result ≡ leads_on claim k }
{
    is_inside(claim.d, claim.e, k.d as usize) && 0 < k.a && 0 < k.b
}

// The set of a step.
fn set_of(claim: Open, step: Asked) -> Placement
    requires { SetRoom claim step }
    ensures { IsSetOf claim step result.words }
{
    let none = Placement::empty();
    match (step.set, step.dependence) {
        (Set::From, _) => with_span(none, claim.a, claim.e),
        (Set::Upto, _) => with_span(none, claim.d + 1, claim.b),
        (Set::Dependence(_), Some(x)) => with_gaps(none, x.end, x.e),
        (Set::Dependence(_), None) => none,
    }
}

// What is gone, and the gaps from which a claim leads on.
fn with_led(gone: Placement, claims: &[Claimed], ends: &[usize], by: Option<usize>) -> Placement
    requires { LeadRoom (led_in by) claims.now ends.now }
    ensures { (g : ℕ) → holds result.words g ≡ (leads_at claims.now ends.now (led_in by) g || holds gone.words g) }
{
    let Some(m) = by else {
        return gone;
    };
    let k = claims[m];
    let d = k.d as usize;
    with_span(gone, (d + 1).max(k.a as usize), ends[d])
}

// What is gone after a step: what a claim that leads says that there is none of, and all that was gone; else nothing.
fn gone_after(gone: Placement, claims: &[Claimed], ends: &[usize], by: Option<usize>) -> Placement
    requires { LeadRoom (led_in by) claims.now ends.now }
    ensures { (g : ℕ) → holds result.words g ≡ gone_after gone.words claims.now ends.now (led_in by) g }
{
    let Some(m) = by else {
        return Placement::empty();
    };
    let k = claims[m];
    let d = k.d as usize;
    with_span(gone, d + 1, (k.b as usize).min(ends[d]))
}

// The placement with the gaps from lo to hi as well, if there are any.
fn with_span(p: Placement, lo: usize, hi: usize) -> Placement
    requires { hi < GAPS }
    ensures { (g : ℕ) → holds result.words g ≡ (between lo g hi || holds p.words g) }
{
    if lo <= hi { with_range(p, lo, hi) } else { p }
}

// How many sets were counted after a step.
fn counted(by: Option<usize>, c: usize) -> usize
    requires { c ≤ STEPS }
    ensures { result ≡ counted (led_in by) c }
{
    c + usize::from(by.is_none())
}

// The gap is in the set, and neither excluded inside the loop nor gone.
fn left_at(set: Placement, gone: Placement, struck: &[usize], d: usize, g: usize) -> bool
    requires d_bound { (d < POINTS) × (g < POINTS) }
    requires struck_len { length struck.now ≡ POINTS }
    ensures { result ≡ left_at set.words gone.words struck.now d g }
{
    set.holds(g) && struck[g] <= d + 1 && !gone.holds(g)
}

// Where the gap is in the set it lies in the loop, and where it is left it is the loop's own.
fn lies_at(set: Placement, left: bool, owners: &[usize], d: usize, e: usize, g: usize) -> bool
    requires g_bound { g < POINTS }
    requires owners_len { length owners.now ≡ POINTS }
    ensures { result ≡ lies_at set.words left owners.now d e g }
{
    is_within(set, d, e, g) && (!left || owners[g] == d)
}

// Where the gap is in the set it is one of d + 1 to e.
fn is_within(set: Placement, d: usize, e: usize, g: usize) -> bool
    requires { g < POINTS }
    ensures { result ≡ within_at set.words d e g }
{
    !set.holds(g) || (d < g && g <= e)
}

// The claim excludes the gap. `exact` is a fact of the claim, on which the answer depends.
fn excludes(
    claim: Open,
    exact: bool,
    most: usize,
    owners: &[usize],
    times: &[usize],
    g: usize,
) -> bool
    requires g_bound { g < POINTS }
    requires owners_len { (length owners.now ≡ POINTS) × (length times.now ≡ POINTS) }
    ensures { result ≡ excludes_at claim.a claim.b exact most owners.now times.now claim.d g }
{
    is_beyond(claim.a, claim.b, g) || (owners[g] == claim.d && exact && times[g] != most)
}

// The gap lies up to b where no a is given, or from a on where no b is.
fn is_beyond(a: usize, b: usize, g: usize) -> bool
    ensures { result ≡ beyond_at a b g }
{
    (a == 0 && g <= b) || (b == 0 && 0 < a && a <= g)
}
