// Two papers into one: two nest texts read, and the text of the joint nest written.
#![tactic(auto)]

ghost use Rattle.std.specs.Prelude.{◌≡◌, false, ◌≤◌, length, drop};
ghost use Rattle.paper_refusals.specs.Numbers.{number_of};
ghost use Rattle.paper_nests.specs.Stored.{dep_in, nest_in, IsCounted};
ghost use Rattle.paper_lines.specs.Lines.{line_text};
ghost use Rattle.paper_texts.specs.Pieces.{dep_frame};
ghost use Rattle.paper_texts.specs.NestTexts.{nest_text};
ghost use Rattle.call_join.specs.JointNests.{moved_dep, moved_deps, Papers, deepest, exceeds};
ghost use Rattle.call_join.specs.Says.{reply, JoinSays};
ghost use Rattle.call_join.specs.Written.{joint_in, points_text, is_next, second_text, inside_text};
ghost use Rattle.call_join.specs.Written.{deps_text, Writes, StaysBytes, StayBytes};

use paper_lines::put_frame;
use paper_nests::{CARRIED, DO, Dependence, ENDDO, FLAGGED, INDEPENDENT, Nest, deeper};
use paper_refusals::{Fault, Refusal};
use paper_texts::read_nest;

// The reply: the number of the refusal, the text at fault (1 or 2, or 0 for neither) with its line, zeros for none; and
// the length of the joint text. The C interface: desk.h lays it out.
#[repr(C)]
#[derive(Clone, Copy)]
pub struct Joined {
    pub number: u8,
    pub text: u8,
    pub line: usize,
    pub value: usize,
}

// Two papers that may be joined: each is accepted and bars no gap.
#[derive(Clone, Copy)]
struct Both<'a> {
    n: &'a Nest,
    m: &'a Nest,
    ghost first_counted: { IsCounted n.now },
    ghost second_counted: { IsCounted m.now },
    ghost papers: { Papers (nest_in n.now) (nest_in m.now) },
}

// Joins two nest texts: writes the text of a new outer loop round the first nest, then the second. Numbers 1 to 8 and
// 14 of the first text, then of the second, each with its line; 14 of the first text that bars a gap, with line 0; 18,
// then 9.
pub fn join(a: &[u8], b: &[u8], out: &mut [u8]) -> Joined
    ensures { JoinSays a.now b.now out.old out.new result }
{
    let n = match read_nest(a) {
        Err(fault) => return refused(fault, 1),
        Ok(n) => n,
    };
    let m = match read_nest(b) {
        Err(fault) => return refused(fault, 2),
        Ok(m) => m,
    };
    if n.bars != 0 {
        return refused(Fault::from(Refusal::NotOneLoop), 1);
    }
    if m.bars != 0 {
        return refused(Fault::from(Refusal::NotOneLoop), 2);
    }
    let both = Both { n: &n, m: &m };
    if exceeds(&both) {
        return refused(Fault::from(Refusal::TooLarge), 0);
    }
    if out.len() < text_length(&both) {
        return refused(Fault::from(Refusal::ShortBuffer), 0);
    }
    Joined {
        number: 0,
        text: 0,
        line: 0,
        value: write_joined(&both, out),
    }
}

// The reply of a refusal, with the text at fault.
fn refused(fault: Fault, text: u8) -> Joined
    ensures { result ≡ reply (number_of fault.refusal) text fault.line 0 }
{
    Joined {
        number: u8::from(fault.refusal),
        text,
        line: fault.line,
        value: 0,
    }
}

// The joint nest would exceed a limit.
fn exceeds(both: &Both) -> bool
    ensures { result ≡ exceeds (nest_in both.now.n.now) (nest_in both.now.m.now) }
{
    Nest::POINTS < both.n.count + both.m.count + 2
        || Nest::DEPENDENCES < both.n.many + both.m.many
        || Nest::DEPTH <= deepest(both.n.points())
        || Nest::DEPTH <= deepest(both.m.points())
}

// How deep the points go.
fn deepest(points: &[u8]) -> usize
    ensures { result ≡ deepest points.now }
{
    let mut most: usize = 0;
    let mut depth: usize = 0;
    for &point in points {
        depth = deeper(depth, point);
        most = most.max(depth);
    }
    most
}

// The length of the joint text.
fn text_length(both: &Both) -> usize
    ensures { result ≡ length (nest_text (joint_in both.now.n.now both.now.m.now)) }
{
    3 * (both.n.count + both.m.count + 2) + deps_length(both.n) + deps_length(both.m)
}

// The length of the text of the dependences.
fn deps_length(nest: &Nest) -> usize
    requires { IsCounted nest.now }
    ensures { result ≡ length (deps_text (nest_in nest.now).deps) }
{
    let mut length: usize = 0;
    for &e in nest.dependences() {
        length += dep_length(e);
    }
    length
}

// The length of the line of a dependence.
fn dep_length(e: Dependence) -> usize
    ensures { result ≡ length (line_text (dep_frame (dep_in e))) }
{
    if e.kind == INDEPENDENT { 7 } else { 9 }
}

// Writes the joint text from the start of a buffer that has room for it; gives its length.
fn write_joined(both: &Both, out: &mut [u8]) -> usize
    requires fits { exceeds (nest_in both.now.n.now) (nest_in both.now.m.now) ≡ false }
    requires room { length (nest_text (joint_in both.now.n.now both.now.m.now)) ≤ length out.old }
    ensures { Writes (nest_text (joint_in both.now.n.now both.now.m.now)) out.old out.new result }
{
    let at = put_all_points(both, out);
    at + put_all_deps(both, &mut out[at..])
}

// Writes the points of the joint nest, a line each, from the start of the lent part; gives the length.
fn put_all_points(both: &Both, out: &mut [u8]) -> usize
    requires { length (points_text (joint_in both.now.n.now both.now.m.now)) ≤ length out.old }
    ensures { Writes (points_text (joint_in both.now.n.now both.now.m.now)) out.old out.new result }
{
    let at = put_frame(out, &[DO]);
    at + put_inside(both, &mut out[at..])
}

// Writes the points of both nests and the ENDDO of the loop around them.
fn put_inside(both: &Both, out: &mut [u8]) -> usize
    requires { length (inside_text (nest_in both.now.n.now) (nest_in both.now.m.now)) ≤ length out.old }
    ensures { Writes (inside_text (nest_in both.now.n.now) (nest_in both.now.m.now)) out.old out.new result }
{
    let at = put_points(both.n, out);
    at + put_second(both.m, &mut out[at..])
}

// Writes the points of the second nest and the ENDDO after them.
fn put_second(m: &Nest, out: &mut [u8]) -> usize
    requires counted { IsCounted m.now }
    requires room { length (second_text (nest_in m.now)) ≤ length out.old }
    ensures { Writes (second_text (nest_in m.now)) out.old out.new result }
{
    let at = put_points(m, out);
    at + put_frame(&mut out[at..], &[ENDDO])
}

// Writes the dependences of the joint nest, the first paper's before the second's, a line each, from the start of the
// lent part; gives the length.
fn put_all_deps(both: &Both, out: &mut [u8]) -> usize
    requires fits { exceeds (nest_in both.now.n.now) (nest_in both.now.m.now) ≡ false }
    requires room { length (deps_text (joint_in both.now.n.now both.now.m.now).deps) ≤ length out.old }
    ensures { Writes (deps_text (joint_in both.now.n.now both.now.m.now).deps) out.old out.new result }
{
    let at = put_deps(both.n, 1, out);
    at + put_deps(both.m, (both.n.count + 1) as u8, &mut out[at..])
}

// Writes the points, the flagged ones as such, a line each, from the start of the lent part; gives the length.
fn put_points(nest: &Nest, out: &mut [u8]) -> usize
    requires counted { IsCounted nest.now }
    requires room { length (points_text (nest_in nest.now)) ≤ length out.old }
    ensures { Writes (points_text (nest_in nest.now)) out.old out.new result }
{
    let mut at: usize = 0;
    let mut f: usize = 0;
    let flagged = nest.flagged_loops();
    for (i, &point) in nest.points().iter().enumerate() {
        if is_next(flagged, f, i) {
            at += put_frame(&mut out[at..], &[FLAGGED]);
            f += 1;
        } else {
            at += put_frame(&mut out[at..], &[point]);
        }
    }
    at
}

// The point is the flagged one at f.
fn is_next(flagged: &[u8], f: usize, i: usize) -> bool
    ensures { result ≡ is_next i (drop f flagged.now) }
{
    f < flagged.len() && i == flagged[f] as usize
}

// Writes the dependences, moved along by so many points, a line each, from the start of the lent part; gives the
// length.
fn put_deps(nest: &Nest, by: u8, out: &mut [u8]) -> usize
    requires counted { IsCounted nest.now }
    requires stay_bytes { StayBytes by (nest_in nest.now).deps }
    requires room { length (deps_text (moved_deps by (nest_in nest.now).deps)) ≤ length out.old }
    ensures { Writes (deps_text (moved_deps by (nest_in nest.now).deps)) out.old out.new result }
{
    let mut at: usize = 0;
    for &e in nest.dependences() {
        at += put_dep(moved(e, by), &mut out[at..]);
    }
    at
}

// A dependence moved along by so many points; an independent one has no d to move.
fn moved(e: Dependence, by: u8) -> Dependence
    requires { StaysBytes by (dep_in e) }
    ensures { dep_in result ≡ moved_dep by (dep_in e) }
{
    Dependence {
        d: if e.kind == INDEPENDENT { e.d } else { by + e.d },
        s: by + e.s,
        t: by + e.t,
        ..e
    }
}

// Writes a dependence as a line from the start of the lent part; gives the line's length.
fn put_dep(e: Dependence, out: &mut [u8]) -> usize
    requires { length (line_text (dep_frame (dep_in e))) ≤ length out.old }
    ensures { Writes (line_text (dep_frame (dep_in e))) out.old out.new result }
{
    if e.kind == INDEPENDENT {
        put_frame(out, &[INDEPENDENT, e.s, e.t])
    } else {
        put_frame(out, &[CARRIED, e.d, e.s, e.t])
    }
}
