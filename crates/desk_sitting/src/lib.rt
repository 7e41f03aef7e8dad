// The candidate's own placement at the screen, with the kept number of barriers that cut each dependence.
#![tactic(auto)]

ghost use Rattle.std.specs.Prelude.{◌≡◌, true, false, ◌&&◌, not, ℕ, ◌<◌, ◌≤◌, eqb, length};
ghost use Rattle.paper_nests.specs.Kinds.{POINTS};
ghost use Rattle.paper_nests.specs.Valid.{is_shape};
ghost use Rattle.paper_nests.specs.Stored.{nest_in};
ghost use Rattle.paper_placements.specs.Words.{GAPS, holds, gaps_in};
ghost use Rattle.desk_sitting.specs.Around.{AreAround, GapSays};
ghost use Rattle.desk_sitting.specs.Kept.{barriers, Ready, EmptySays, PutSays, LiftSays};
ghost use Rattle.desk_sitting.specs.Recounts.{Steps, CountsAre};

use paper_nests::{Dependence, Nest};
use paper_placements::Placement;

// The placement; for each dependence how many of its barriers cut it; how many dependences none cuts. A dependence has
// at most the gaps 1 to 255, so that its count fits a byte.
// The C interface: desk.h lays it out, and it may hold anything, so that `Ready` is a clause.
#[repr(C)]
#[derive(Clone, Copy)]
pub struct Sitting {
    pub placement: Placement,
    pub counts: [u8; Nest::DEPENDENCES],
    pub uncut: usize,
}

impl Sitting {
    // The sitting with no barrier, for a nest of `many` dependences.
    pub fn empty(many: usize) -> Sitting
        ensures { EmptySays many result }
    {
        Sitting {
            placement: Placement::empty(),
            counts: [0; Nest::DEPENDENCES],
            uncut: many,
        }
    }
}

// The sitting with a barrier at gap g as well.
pub fn put(nest: Nest, s: Sitting, g: usize) -> Sitting
    requires ready { Ready nest s g }
    requires g_value { holds s.placement.words g ≡ false }
    ensures { PutSays (nest_in nest) g s result }
{
    recounted(&nest, s, g, s.placement.put(g), |c| c + 1)
}

// The sitting without the barrier at gap g.
pub fn lift(nest: Nest, s: Sitting, g: usize) -> Sitting
    requires ready { Ready nest s g }
    requires g_value { holds s.placement.words g ≡ true }
    ensures { LiftSays (nest_in nest) g s result }
{
    recounted(&nest, s, g, lifted(s.placement, g), |c| c - 1)
}

// The sitting with this placement, which differs at gap g: `step` makes the new count of each dependence that has the
// gap. The loop goes by index, as the count of the same index is written.
fn recounted<F: Fn(u8) -> u8>(
    nest: &Nest,
    s: Sitting,
    g: usize,
    placement: Placement,
    step: F,
) -> Sitting
    requires ready { Ready nest.now s g }
    requires steps { Steps (nest_in nest.now) g (barriers s) (gaps_in placement.words) (F.pre step) (F.post step) }
    ensures { CountsAre (nest_in nest.now) placement result }
{
    let around = loops_around(nest.points(), g);
    let mut counts = s.counts;
    let mut uncut = s.uncut;
    for i in (0..nest.many).rev() {
        let e = nest.deps[i];
        if has_gap(e, g, around[e.d as usize]) {
            let c = counts[i];
            let next = step(c);
            counts[i] = next;
            uncut = uncut + usize::from(next == 0) - usize::from(c == 0);
        }
    }
    Sitting {
        placement,
        counts,
        uncut,
    }
}

// Of each DO before gap g, whether its loop is around the gap: one walk back from the gap.
fn loops_around(points: &[u8], g: usize) -> [bool; Nest::POINTS]
    requires points_value { (is_shape points.now ≡ true) × (length points.now ≤ POINTS) }
    requires g_nonzero { (0 < g) × (g < length points.now) }
    ensures { AreAround points.now g result }
{
    let mut around = [false; Nest::POINTS];
    let mut depth: usize = 0;
    for i in (0..g).rev() {
        match points[i] {
            paper_nests::DO if depth == 0 => around[i] = true,
            paper_nests::DO => depth -= 1,
            paper_nests::ENDDO => depth += 1,
            _ => {}
        }
    }
    around
}

// The dependence has gap g, where `around` says whether the loop that carries it is around the gap.
fn has_gap(e: Dependence, g: usize, around: bool) -> bool
    ensures { GapSays e g around result }
{
    let s = e.s as usize;
    let t = e.t as usize;
    if e.kind == paper_nests::INDEPENDENT {
        return s < g && g <= t;
    }
    if s < g {
        return around || g <= t;
    }
    let d = e.d as usize;
    d < g && g <= t
}

// The placement without gap g, which it holds.
fn lifted(p: Placement, g: usize) -> Placement
    requires g_bound { g < GAPS }
    requires g_value { holds p.words g ≡ true }
    ensures { (i : ℕ) → holds result.words i ≡ (not (eqb i g) && holds p.words i) }
{
    let mut q = p;
    q.words[g / 64] ^= 1 << (g % 64);
    q
}
