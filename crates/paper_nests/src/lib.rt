// Nests: their points, dependences, barred gaps and flagged loops by value, and the tests of a dependence and of a barred
// gap.
#![tactic(auto)]

ghost use Rattle.std.specs.Prelude.{◌≡◌, true, ◌+◌, ◌^◌, ◌<◌, ◌≤◌, length, map, take};
ghost use Rattle.paper_refusals.specs.Numbers.{number_in};
ghost use Rattle.paper_nests.specs.Kinds.{POINTS};
ghost use Rattle.paper_nests.specs.Loops.{deeper, end_of, HasEnds, owner_of, is_do, is_inside};
ghost use Rattle.paper_nests.specs.Ring.{one_loop};
ghost use Rattle.paper_nests.specs.Valid.{is_shape, is_statement_or, CarriedTo, dep_fault, bar_fault};
ghost use Rattle.paper_nests.specs.Stored.{dep_in, nest_in, IsCounted, IsEmpty, PointAdded};

use paper_refusals::Refusal;

// The kinds of points. These and the next are bytes and no enum: desk.h lays points and dependences out as bytes, and a
// lent record may bring any byte.
pub const DO: u8 = 1;

pub const ENDDO: u8 = 2;

pub const STATEMENT: u8 = 3;

// The kind of a DO whose loop may not run, in the texts; as a point it is a DO.
pub const FLAGGED: u8 = 4;

// The kinds of dependences.
pub const INDEPENDENT: u8 = 17;

pub const CARRIED: u8 = 18;

// The kind of barred gaps, in the texts.
pub const BARRED: u8 = 19;

// A dependence from point s to point t, independent or carried by the loop of DO d.
#[repr(C)]
#[derive(Clone, Copy)]
pub struct Dependence {
    pub kind: u8,
    pub d: u8,
    pub s: u8,
    pub t: u8,
}

// A nest: the first `count` points, the first `many` dependences, the first `bars` barred gaps, and the DOs of the first
// `flags` loops that may not run.
// The C interface: desk.h lays it out, so that it may hold anything; what calls ask of it (`IsCounted`, `is_valid`) is
// a clause, and not an invariant of the type.
#[repr(C)]
#[derive(Clone, Copy)]
pub struct Nest {
    pub count: usize,
    pub points: [u8; Nest::POINTS],
    pub many: usize,
    pub deps: [Dependence; Nest::DEPENDENCES],
    pub bars: usize,
    pub barred: [u8; Nest::BARS],
    pub flags: usize,
    pub flagged: [u8; Nest::POINTS],
}

impl Nest {
    pub const POINTS: usize = 256;

    pub const DEPTH: usize = 8;

    pub const DEPENDENCES: usize = 512;

    pub const BARS: usize = 255;

    // A nest with no point.
    pub fn empty() -> Nest
        ensures { IsEmpty result }
    {
        Nest {
            count: 0,
            points: [0; Nest::POINTS],
            many: 0,
            deps: [Dependence {
                kind: 0,
                d: 0,
                s: 0,
                t: 0,
            }; Nest::DEPENDENCES],
            bars: 0,
            barred: [0; Nest::BARS],
            flags: 0,
            flagged: [0; Nest::POINTS],
        }
    }

    // The nest with one point more.
    pub fn with_point(self, kind: u8) -> Nest
        requires counted { IsCounted self }
        requires count_bound { self.count < POINTS }
        ensures { PointAdded self kind result }
    {
        let mut nest = self;
        nest.points[nest.count] = kind;
        nest.count += 1;
        nest
    }

    // The points that it has.
    pub fn points(&self) -> &[u8]
        requires { IsCounted self.now }
        ensures { result.now ≡ (nest_in self.now).points }
    {
        &self.points[..self.count]
    }

    // The dependences that it has.
    pub fn dependences(&self) -> &[Dependence]
        requires { IsCounted self.now }
        ensures entries { result.now ≡ take self.now.many self.now.deps }
        ensures as_listed { map dep_in result.now ≡ (nest_in self.now).deps }
    {
        &self.deps[..self.many]
    }

    // The barred gaps that it has.
    pub fn barred_gaps(&self) -> &[u8]
        requires { IsCounted self.now }
        ensures { result.now ≡ (nest_in self.now).barred }
    {
        &self.barred[..self.bars]
    }

    // The DOs of its loops that may not run.
    pub fn flagged_loops(&self) -> &[u8]
        requires { IsCounted self.now }
        ensures { result.now ≡ (nest_in self.now).flagged }
    {
        &self.flagged[..self.flags]
    }
}

// The depth after one more point.
pub fn deeper(depth: usize, kind: u8) -> usize
    requires { depth + 1 < 2 ^ 64 }
    ensures { result ≡ deeper depth kind }
{
    match kind {
        DO => depth + 1,
        ENDDO => depth.saturating_sub(1),
        _ => depth,
    }
}

// The point of the ENDDO of the loop whose DO is d.
pub fn end_of(points: &[u8], d: usize) -> usize
    ensures { result ≡ end_of points.now d }
{
    let mut depth: usize = 0;
    for i in d..points.len() {
        if points[i] == ENDDO && depth == 1 {
            return i;
        }
        depth = deeper(depth, points[i]);
    }
    d.max(points.len())
}

// The ENDDO of every DO, by the DO's point. At every point stands the next ENDDO behind it that closes a loop which is
// open there, so that the one after a loop's own is found where its own ENDDO stands.
pub fn ends_of(points: &[u8]) -> [usize; Nest::POINTS]
    requires { length points.now ≤ POINTS }
    ensures { HasEnds points.now result }
{
    let mut ends = [0; Nest::POINTS];
    let mut end = points.len();
    for i in (0..points.len()).rev() {
        ends[i] = end;
        match points[i] {
            ENDDO => end = i,
            DO if end < points.len() => end = ends[end],
            _ => {}
        }
    }
    ends
}

// The loop that gap g belongs to.
pub fn loop_of(points: &[u8], g: usize) -> usize
    requires points_value { is_shape points.now ≡ true }
    requires g_nonzero { (0 < g) × (g < length points.now) }
    ensures { result ≡ owner_of points.now g }
{
    let mut depth: usize = 0;
    for i in (0..g).rev() {
        match points[i] {
            DO if depth == 0 => return i,
            DO => depth -= 1,
            ENDDO => depth += 1,
            _ => {}
        }
    }
    0
}

// The point is a DO.
pub fn is_do(points: &[u8], i: usize) -> bool
    ensures { result ≡ is_do points.now i }
{
    i < points.len() && points[i] == DO
}

// No point but the first is a DO.
pub fn is_one_loop(points: &[u8]) -> bool
    ensures { result ≡ one_loop points.now }
{
    points.iter().skip(1).all(|&p| p != DO)
}

// The point may be an end of a dependence: a statement or one of the kind KIND, a DO for the source and an ENDDO for the
// target.
pub fn is_statement_or<const KIND: u8>(points: &[u8], p: usize) -> bool
    ensures { result ≡ is_statement_or KIND points.now p }
{
    p < points.len() && (points[p] == STATEMENT || points[p] == KIND)
}

// The point lies strictly between a loop's DO and its ENDDO.
pub fn is_inside(d: usize, end: usize, p: usize) -> bool
    ensures { result ≡ is_inside d end p }
{
    d < p && p < end
}

// Whether a dependence is one of these points, else its refusal, 6 or 7; `end` is the ENDDO of the loop that carries it.
pub fn dep_fault(points: &[u8], end: usize, e: Dependence) -> Result<(), Refusal>
    requires { CarriedTo points.now (dep_in e) end }
    ensures { number_in result ≡ dep_fault points.now (dep_in e) }
{
    let s = e.s as usize;
    let t = e.t as usize;
    let d = e.d as usize;
    if !is_statement_or::<DO>(points, s) || !is_statement_or::<ENDDO>(points, t) {
        return Err(Refusal::WrongPoint);
    }
    if e.kind == CARRIED {
        if !is_do(points, d) {
            return Err(Refusal::WrongPoint);
        }
        if !is_inside(d, end, s) || !is_inside(d, end, t) {
            return Err(Refusal::WrongOrder);
        }
    } else if t <= s {
        return Err(Refusal::WrongOrder);
    }
    Ok(())
}

// Whether a barred gap is one of these points, else its refusal, 8 or 14; `single` says whether the nest has one loop
// only.
pub fn bar_fault(points: &[u8], single: bool, g: u8) -> Result<(), Refusal>
    requires { single ≡ one_loop points.now }
    ensures { number_in result ≡ bar_fault points.now g }
{
    let gap = g as usize;
    if gap == 0 || points.len() <= gap {
        return Err(Refusal::WrongGap);
    }
    if !single {
        return Err(Refusal::NotOneLoop);
    }
    Ok(())
}
