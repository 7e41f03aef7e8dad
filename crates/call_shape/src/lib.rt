// The shape of a nest: the loop of every gap, the ENDDO of every loop, and how many loops every point is inside.
#![tactic(auto)]

ghost use Rattle.std.specs.Prelude.{◌≡◌, true, ◌≤◌, eqb, length};
ghost use Rattle.laws.specs.Choice.{when};
ghost use Rattle.paper_refusals.specs.Numbers.{number_of};
ghost use Rattle.paper_nests.specs.Kinds.{DO, POINTS};
ghost use Rattle.paper_nests.specs.Valid.{is_shape};
ghost use Rattle.desk.specs.Desks.{IsMade};
ghost use Rattle.call_shape.specs.Shapes.{inside_of};
ghost use Rattle.call_shape.specs.Says.{ShapeSays, Tells, Blank};

use desk::Desk;
use paper_nests::Nest;
use paper_refusals::Refusal;

// The number and the line of a refusal, 0 and 0 for none; by each gap the DO of its loop; by each DO its ENDDO; by each
// point how many loops it is inside. Every other place has 0. The C interface: desk.h lays it out.
#[repr(C)]
#[derive(Clone, Copy)]
pub struct Shape {
    pub number: u8,
    pub line: usize,
    pub owners: [u8; Nest::POINTS],
    pub ends: [u8; Nest::POINTS],
    pub depths: [u8; Nest::POINTS],
}

// The shape of the desk's nest. Number 10.
pub fn nest_shape(desk: Desk) -> Shape
    requires { IsMade desk }
    ensures { ShapeSays desk result }
{
    if !desk.loaded {
        return blank(Refusal::NoNest);
    }
    // The points in an array of their own: lent out of the desk, they would have the nest copied.
    let points = desk.nest.points;
    shape_of(&points[..desk.nest.count])
}

// The shape of the points, in one pass over them and the tables of their loops.
fn shape_of(points: &[u8]) -> Shape
    requires { (is_shape points.now ≡ true) × (length points.now ≤ POINTS) }
    ensures { Tells points.now result }
{
    let around = paper_counts::owners_of(points);
    let closing = paper_nests::ends_of(points);
    let mut owners = [0; Nest::POINTS];
    let mut ends = [0; Nest::POINTS];
    let mut depths = [0; Nest::POINTS];
    let mut depth: usize = 0;
    for (p, &kind) in points.iter().enumerate() {
        owners[p] = around[p] as u8;
        ends[p] = end_at(kind, closing[p]) as u8;
        depths[p] = inside(kind, depth) as u8;
        depth = paper_nests::deeper(depth, kind);
    }
    Shape {
        number: 0,
        line: 0,
        owners,
        ends,
        depths,
    }
}

// The ENDDO of a DO; 0 for another point.
fn end_at(kind: u8, end: usize) -> usize
    ensures { result ≡ when (eqb kind DO) end }
{
    if kind == paper_nests::DO { end } else { 0 }
}

// How many loops a point is inside, of those open before it: an ENDDO is not inside its own.
fn inside(kind: u8, depth: usize) -> usize
    ensures { result ≡ inside_of kind depth }
{
    if kind == paper_nests::ENDDO {
        depth.saturating_sub(1)
    } else {
        depth
    }
}

// The reply that tells nothing.
fn blank(refusal: Refusal) -> Shape
    ensures { Blank (number_of refusal) result }
{
    Shape {
        number: u8::from(refusal),
        line: 0,
        owners: [0; Nest::POINTS],
        ends: [0; Nest::POINTS],
        depths: [0; Nest::POINTS],
    }
}
