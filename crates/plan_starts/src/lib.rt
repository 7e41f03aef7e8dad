// The starts of one loop: what a sweep makes from each of them on, for all of them at once.
// Between two barriers a sweep changes nothing, and what follows a barrier depends on the start that made it alone. So
// each start has one event, a number of own barriers and a front, and each front a link, the start at which the sweep
// goes on.
#![tactic(auto)]

ghost use Rattle.std.specs.Prelude.{◌≡◌, ◌+◌, ◌<◌, length};
ghost use Rattle.laws.specs.Entries.{at};
ghost use Rattle.plan_method.specs.Sweep.{seek};
ghost use Rattle.plan_sweeps.specs.Listed.{row};
ghost use Rattle.plan_starts.specs.Grounds.{Ground};
ghost use Rattle.plan_starts.specs.Started.{Marked, end_after, EventSays, EventsSay, Followed, StartsSay};
ghost use Rattle.plan_starts.specs.Started.{MarkRoom, ChildRoom, ChildSays, FollowRoom, StartsRoom};

use plan_sweeps::Inside;

// Own barriers, and the leftmost barrier.
#[derive(Clone, Copy)]
pub struct Front {
    pub c: u16,
    pub f: u16,
}

// The ends of the lines that start at each gap; 0 at the first gap of a loop inside that holds barriers, which is a
// start that nothing above it cuts.
pub fn mark(inside: &Inside, reach: &[u16], base: usize, d: usize, e: usize, need: &mut [usize])
    requires { MarkRoom inside.now.points.now inside.now.own.now reach.now base
        inside.now.left.now inside.now.kids d e need.old }
    ensures { Marked inside.now.points.now inside.now.own.now (row reach.now base)
        inside.now.left.now inside.now.kids d e need.new }
{
    for p in d..e {
        let q = p + 1;
        let end = reach[base + q] as usize;
        need[q] = if inside.points[p] == paper_nests::DO {
            let first = inside.left[inside.kids + q] as usize;
            end_after(inside.own[p], d, p, first, end)
        } else {
            end
        };
    }
}

// What a sweep makes from each start on, into two lists; gives the last start with a line that ends at e or before.
// The lists that are written stay beside each other, here and below: a struct of them would need a clause for each
// field that it keeps its reference. One list of structs would have its values compared one by one, and Plan would miss
// the bar of 1.5 times the twin's instructions on four papers (docs/DECISIONS, "their width").
pub fn follow_all(
    inside: &Inside,
    need: &[usize],
    d: usize,
    e: usize,
    cs: &mut [u16],
    fs: &mut [u16],
    link: &mut [u16],
) -> usize
    requires starts_room { StartsRoom inside.now.points.now inside.now.own.now need.now
        inside.now.left.now inside.now.kids d e cs.old fs.old link.old }
    requires ground { Ground inside.now.points.now inside.now.own.now inside.now.left.now inside.now.kids d e }
    ensures { StartsSay inside.now.points.now inside.now.own.now need.now
        inside.now.left.now inside.now.kids d e cs.new fs.new result }
{
    let first = plan_sweeps::last_need(need, e + 1, d, e);
    events(inside, need, d, e, first, cs, fs, link);
    cs[0] = 0;
    fs[0] = 0;
    follow(d, e, link, cs, fs);
    first
}

// The end for the gap after the DO p: 0 if it is a loop directly inside d whose first front is above 0.
fn end_after(own: usize, d: usize, p: usize, first: usize, end: usize) -> usize
    ensures { result ≡ end_after own d p first end }
{
    if d < p && own == d && 0 < first {
        0
    } else {
        end
    }
}

// The events and links of all gaps, from e down to d + 1. The links only fall.
fn events(
    inside: &Inside,
    need: &[usize],
    d: usize,
    e: usize,
    first: usize,
    cs: &mut [u16],
    fs: &mut [u16],
    link: &mut [u16],
)
    requires starts_room { StartsRoom inside.now.points.now inside.now.own.now need.now
        inside.now.left.now inside.now.kids d e cs.old fs.old link.old }
    requires ground { Ground inside.now.points.now inside.now.own.now inside.now.left.now inside.now.kids d e }
    requires first_value { first ≡ seek (at need.now) (e + 1) d e }
    ensures { EventsSay inside.now.points.now inside.now.own.now need.now
        inside.now.left.now inside.now.kids d e cs.new fs.new link.new }
{
    let mut a = first;
    let mut p = e;
    // No range: after a loop inside the next point is its DO, and a range would walk through it.
    while d < p {
        let before = p - 1;
        if inside.points[before] == paper_nests::ENDDO {
            let l = inside.own[before];
            a = events_child(inside, need, d, l, before, a, cs, fs, link);
            p = l;
        } else {
            a = plan_sweeps::last_need(need, p, d, a.min(before));
            cs[p] = 1;
            fs[p] = p as u16;
            link[p] = a as u16;
            p = before;
        }
    }
}

// Those of the child l with its ENDDO p and of the gap after it.
fn events_child(
    inside: &Inside,
    need: &[usize],
    d: usize,
    l: usize,
    p: usize,
    last: usize,
    cs: &mut [u16],
    fs: &mut [u16],
    link: &mut [u16],
) -> usize
    requires { ChildRoom need.now inside.now.left.now inside.now.kids d l p cs.old fs.old link.old last }
    ensures { ChildSays need.now inside.now.left.now inside.now.kids d l p cs.old fs.old
        link.old cs.new fs.new link.new result }
{
    let outer = plan_sweeps::first_or(inside.left[inside.kids + (l + 1)], (p + 1) as u16);
    let after = p + 1;
    let mut a = plan_sweeps::last_need(need, after, d, last.min(l));
    cs[after] = 1;
    fs[after] = outer;
    link[after] = a as u16;
    for x in (l + 1..after).rev() {
        let v = event(inside, x, outer);
        a = plan_sweeps::last_need(need, x, d, a);
        cs[x] = v.c;
        fs[x] = v.f;
        link[x] = a as u16;
    }
    a
}

// The event at a gap x of a child: the child cuts all, or a barrier after the child.
#[tactic(auto, unfolding(crate::specs::Started::cost_at, crate::specs::Started::front_or))]
fn event(inside: &Inside, x: usize, outer: u16) -> Front
    requires { inside.now.kids + x < length inside.now.left.now }
    ensures { EventSays (row inside.now.left.now inside.now.kids) x outer result.c result.f }
{
    let g = inside.left[inside.kids + x];
    if 0 < g {
        Front { c: 0, f: g }
    } else {
        Front { c: 1, f: outer }
    }
}

// From left to right: what is made from the link of a start on is there already.
fn follow(d: usize, e: usize, link: &[u16], cs: &mut [u16], fs: &mut [u16])
    requires { FollowRoom d e link.now cs.old fs.old }
    ensures { Followed link.now cs.old fs.old cs.new
        fs.new d e e }
{
    for x in d + 1..e + 1 {
        let f = fs[x];
        let n = link[f as usize] as usize;
        cs[x] += cs[n];
        fs[x] = plan_sweeps::first_or(fs[n], f);
    }
}
