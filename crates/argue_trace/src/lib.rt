// One sweep of a lap, with the steps of its claim: one for each barrier that it counts and one for each child that it
// enters, spelled into a buffer.
#![tactic(auto)]

ghost use Rattle.std.specs.Prelude.{◌≡◌, ◌+◌, ◌*◌, ◌≤◌, ◌<◌, length};
ghost use Rattle.laws.specs.Entries.{at};
ghost use Rattle.plan_sweeps.specs.Listed.{row, SweepRoom};
ghost use Rattle.argue_texts.specs.ArgumentTexts.{CLAIMS, steps_text};
ghost use Rattle.argue_key.specs.Laps.{is_from, find_claim, event_at};
ghost use Rattle.argue_spell.specs.Added.{FAR, Added};
ghost use Rattle.argue_trace.specs.Traced.{claim_in, claims_in, lead_at, SetsRoom, TraceSays};

use argue_spell::put_step;
use argue_texts::Claimed;
use plan_sweeps::Inside;

// How a sweep ends: its barriers and its front, and the place behind its steps.
#[derive(Clone, Copy)]
pub struct Swept {
    pub c: usize,
    pub f: usize,
    pub at: usize,
}

// The sweep of the loop d with its ENDDO e, after the claims so far, its steps spelled from a place on.
pub fn trace(
    inside: &Inside,
    need: &[usize],
    sets: &[usize],
    claims: &[Claimed],
    d: usize,
    e: usize,
    out: &mut [u8],
    start: usize,
) -> Swept
    requires sweep_room { SweepRoom inside.now.points.now inside.now.own.now need.now inside.now.left.now
        inside.now.kids e }
    requires sets_room { SetsRoom sets.now e }
    requires few_claims { length claims.now ≤ CLAIMS }
    requires e_bound { (e < 256) × (start + 14 * e ≤ FAR) }
    ensures { TraceSays inside.now.points.now inside.now.own.now inside.now.left.now inside.now.kids
        need.now sets.now claims.now d e out.old start out.new result.c result.f result.at }
{
    let mut c = 0;
    let mut f = e + 1;
    let mut at = start;
    let mut p = e;
    // No range: after a loop inside the next point is its DO, and a range would walk through it.
    while d < p {
        let before = p - 1;
        if inside.points[before] == paper_nests::ENDDO {
            let l = inside.own[before];
            let b = plan_sweeps::last_need(need, f, l, p);
            at = put_child(inside, sets, claims, l, before, b, out, at);
            let s = plan_sweeps::step_child(need, inside.left, inside.kids, l, before, c, f);
            c = s.c;
            f = s.f;
            p = l;
        } else {
            if need[p] < f {
                at = put_step(out, at, sets[p], 0);
                c += 1;
                f = p;
            }
            p = before;
        }
    }
    Swept { c, f, at }
}

// The number of the first claim that says of loop l: if there is one from some gap up to a on, none before t; how many
// there are for none.
// No Option: the definition find_claim gives how many there are for none.
pub fn find_claim(claims: &[Claimed], l: usize, a: usize, t: usize) -> usize
    ensures value { result ≡ find_claim (claims_in claims.now) l a t }
    ensures upper_bound { result ≤ length claims.now }
{
    for (i, &claim) in claims.iter().enumerate() {
        if is_from(claim, l, a, t) {
            return i;
        }
    }
    claims.len()
}

// The steps at the child l with its ENDDO p, where the last line to cut starts at b, 0 for none.
fn put_child(
    inside: &Inside,
    sets: &[usize],
    claims: &[Claimed],
    l: usize,
    p: usize,
    b: usize,
    out: &mut [u8],
    start: usize,
) -> usize
    requires l_le_p { (l ≤ p) × (p < 256) }
    requires b_bound { (b ≤ p + 1) × (inside.now.kids + p < length inside.now.left.now) }
    requires sets_room { SetsRoom sets.now (p + 1) }
    requires few_claims { length claims.now ≤ CLAIMS }
    requires start_bound { start ≤ FAR }
    ensures added { Added (steps_text (event_at (row inside.now.left.now inside.now.kids) (at sets.now)
        (lead_at inside.now.left.now inside.now.kids claims.now l) l p b))
        start out.old out.new result }
    ensures upper_bound { result ≤ start + 14 }
{
    if b == 0 {
        return start;
    }
    if b <= p {
        let g = inside.left[inside.kids + b] as usize;
        if 0 < g {
            if l + 1 < g {
                let m = find_claim(claims, l, b, g);
                return put_step(out, start, sets[b], m + 1);
            }
            return start;
        }
    }
    put_step(out, start, sets[b], 0)
}

// The claim says of loop l: if there is one from some gap up to a on, none before t.
fn is_from(claim: Claimed, l: usize, a: usize, t: usize) -> bool
    ensures { result ≡ is_from (claim_in claim) l a t }
{
    let from = claim.a as usize;
    let upto = claim.b as usize;
    claim.d as usize == l && 0 < from && from <= a && upto + 1 == t
}
