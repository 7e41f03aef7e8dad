// The laps of a claim: sweeps of its loop, each from the front that the one before it left, until one counts more than
// wanted.
#![tactic(auto)]

ghost use Rattle.std.specs.Prelude.{◌≡◌, ◌+◌, ◌*◌, ◌≤◌, ◌<◌, ltb};
ghost use Rattle.laws.specs.Choice.{pick};
ghost use Rattle.argue_key.specs.Laps.{starting};
ghost use Rattle.argue_spell.specs.Added.{FAR};
ghost use Rattle.argue_laps.specs.Lapped.{LAP, LapRoom, suffix_for, CloseSays, LapSays, LapsSay};

use argue_sets::Start;
use argue_spell::put_step;
use argue_texts::Claimed;
use argue_trace::Swept;
use paper_nests::Nest;
use plan_sweeps::Inside;

// A claim to be given: of the loop d with its ENDDO e, with a gap supposed from `from` on and one up to `upto`, 0 for
// none; its laps end with the first that counts more than `few`.
#[derive(Clone, Copy)]
pub struct Head {
    pub d: usize,
    pub e: usize,
    pub from: usize,
    pub upto: usize,
    pub few: usize,
}

// All laps, with their steps spelled from a place on; gives the place behind them. The needs and the sets of the gaps
// stay two lists: plan_sweeps reads the needs alone, and a list of pairs would have to be copied for it.
pub fn laps(
    nest: Nest,
    inside: &Inside,
    need: &mut [usize],
    sets: &mut [usize],
    claims: &[Claimed],
    head: Head,
    out: &mut [u8],
    start: usize,
) -> usize
    requires lap_room { LapRoom nest inside.now.points.now inside.now.own.now inside.now.left.now inside.now.kids
        need.old sets.old claims.now head.d head.e head.from }
    requires e_bound { start + LAP * (head.e + 2) ≤ FAR }
    ensures laps_say { LapsSay nest inside.now.points.now inside.now.own.now inside.now.left.now inside.now.kids
        need.old sets.old claims.now head.d head.e head.from head.upto head.few out.old start out.new result }
    ensures need_unchanged { (need.new ≡ need.old) × (sets.new ≡ sets.old) }
{
    let mut f = head.d + 1;
    let mut at = start;
    for _ in 0..head.e + 2 {
        let s = lap(nest, inside, need, sets, claims, head, f, out, at);
        at = s.at;
        if head.few < s.c {
            return at;
        }
        f = s.f;
    }
    at
}

// One lap from the front f: the sweep for the suffix that this front leaves uncut, which is put into the two rows and
// taken out of them again.
fn lap(
    nest: Nest,
    inside: &Inside,
    need: &mut [usize],
    sets: &mut [usize],
    claims: &[Claimed],
    head: Head,
    f: usize,
    out: &mut [u8],
    start: usize,
) -> Swept
    requires lap_room { LapRoom nest inside.now.points.now inside.now.own.now inside.now.left.now inside.now.kids
        need.old sets.old claims.now head.d head.e head.from }
    requires start_bound { start + LAP ≤ FAR }
    ensures lap_says { LapSays nest inside.now.points.now inside.now.own.now inside.now.left.now inside.now.kids
        need.old sets.old claims.now head.d head.e head.from head.upto f out.old start
        out.new result.c result.f result.at }
    ensures need_unchanged { (need.new ≡ need.old) × (sets.new ≡ sets.old) }
{
    let last = argue_sets::last_back(nest, head.d, f);
    let suffix = suffix_of(last, head.from);
    let q = suffix.at;
    let reach = need[q];
    let line = sets[q];
    need[q] = reach.min(head.e);
    sets[q] = where_less(head.e, reach, suffix.num, line);
    let s = argue_trace::trace(inside, need, sets, claims, head.d, head.e, out, start);
    need[q] = reach;
    sets[q] = line;
    close_up(s, head.d, head.upto, out)
}

// The suffix that is left: of what goes back, or the one supposed.
fn suffix_of(last: Start, from: usize) -> Start
    requires { last.num < 65536 }
    ensures { starting result.at result.num ≡ suffix_for (starting last.at last.num) from }
{
    if from < last.at {
        Start {
            at: last.at,
            num: last.num + 2,
        }
    } else {
        Start { at: from, num: 0 }
    }
}

// The third number where a is below b, else the fourth.
fn where_less(a: usize, b: usize, x: usize, y: usize) -> usize
    ensures { result ≡ pick (ltb a b) x y }
{
    if a < b { x } else { y }
}

// At the end of a sweep the supposed gap up to `upto`, where the front lies beyond.
fn close_up(s: Swept, d: usize, upto: usize, out: &mut [u8]) -> Swept
    requires c_bound { (s.c < 256) × (d < 256) }
    requires at_bound { s.at ≤ FAR }
    ensures { CloseSays d upto s.c s.f s.at out.old out.new result.c result.f
        result.at }
{
    if upto == 0 || s.f <= upto {
        return s;
    }
    let next = put_step(out, s.at, 1, 0);
    Swept {
        c: s.c + 1,
        f: d + 1,
        at: next,
    }
}
