// Nest texts and placement texts, read line by line; placements and their counts, written.
#![tactic(auto)]

ghost use Rattle.std.specs.Prelude.{◌≡◌, true, [], ◌≤◌, length, Ok};
ghost use Rattle.paper_refusals.specs.Numbers.{number_in};
ghost use Rattle.paper_nests.specs.Valid.{is_shape};
ghost use Rattle.paper_nests.specs.Stored.{IsCounted};
ghost use Rattle.paper_texts.specs.Reads.{IsRead, EndedAs, closed_by, misplaced_by, too_many_by, PointFault};
ghost use Rattle.paper_texts.specs.Reads.{KnowsEnds, KnowsOne, IsPiece, DependenceFault, BarredFault};
ghost use Rattle.paper_lines.specs.Writing.{over};
ghost use Rattle.paper_placements.specs.Placements.{are_gaps_from};
ghost use Rattle.paper_placements.specs.Words.{GAPS, gaps_in};
ghost use Rattle.paper_texts.specs.PlacementTexts.{key_text};
ghost use Rattle.paper_texts.specs.Counts.{CountsFit, CountsSay};
ghost use Rattle.paper_texts.specs.Reads.{IsPlaced, BarrierFault};

use paper_counts::counts_of;
use paper_lines::{Frame, digit_values, put_frame, read_line};
use paper_nests::{
    BARRED, CARRIED, DO, Dependence, ENDDO, FLAGGED, INDEPENDENT, Nest, STATEMENT, bar_fault,
    deeper, dep_fault, ends_of, is_one_loop,
};
use paper_placements::Placement;
use paper_refusals::{Fault, Refusal};

// What a frame of a nest text tells: a point, a dependence, a barred gap, a flagged DO, or nothing that is known. The
// kind of a point is a byte here, as it is in the text before and in the nest's points after.
#[derive(Clone, Copy)]
pub enum Piece {
    Point(u8),
    Dependence(Dependence),
    Barred(u8),
    Flagged,
    Unknown,
}

// What is known of the nest that the lines so far have told: its points, how many dependences and barred gaps, how many
// loops are open; and where none is, the ENDDO of every DO, and whether there is one loop only.
#[derive(Clone, Copy)]
struct SoFar<'a> {
    points: &'a [u8],
    many: usize,
    bars: usize,
    depth: usize,
    ends: &'a [usize],
    single: bool,
}

// The kind of barriers. This and the next are bytes of the texts: an enum would only be turned into them to be written.
pub const BARRIER: u8 = 33;

// The kind of counts.
pub const COUNT: u8 = 34;

// Reads a nest text up to its first faulty line. An empty text is the blank paper.
pub fn read_nest(text: &[u8]) -> Result<Nest, Fault>
    ensures { IsRead text.now result }
{
    // By its length: the proof goes by the number, which is_empty hides.
    if text.len() == 0 {
        return Ok(blank());
    }
    let values = digit_values();
    let mut nest = Nest::empty();
    let mut ends = [0; Nest::POINTS];
    let mut single = true;
    let mut depth: usize = 0;
    let mut at: usize = 0;
    let mut line: usize = 1;
    loop {
        match read_line(text, at, &values) {
            Ok(None) => return ended(nest, depth, line),
            Err(refusal) => return Err(Fault { refusal, line }),
            Ok(Some(f)) => {
                let here = line;
                at = f.next;
                line += 1;
                let so_far = SoFar {
                    points: nest.points(),
                    many: nest.many,
                    bars: nest.bars,
                    depth,
                    ends: &ends,
                    single,
                };
                match piece_of(f) {
                    Piece::Point(kind) => {
                        let fault = point_fault(&so_far, kind);
                        // Err is answered here with its line: a function that adds the line would be called in the
                        // same four places.
                        if let Err(refusal) = fault {
                            return Err(Fault {
                                refusal,
                                line: here,
                            });
                        }
                        let count = nest.count;
                        nest.points[count] = kind;
                        nest.count = count + 1;
                        depth = deeper(depth, kind);
                        if depth == 0 {
                            let points = nest.points();
                            ends = ends_of(points);
                            single = is_one_loop(points);
                        }
                    }
                    Piece::Dependence(e) => {
                        let fault = dependence_fault(&so_far, e);
                        if let Err(refusal) = fault {
                            return Err(Fault {
                                refusal,
                                line: here,
                            });
                        }
                        let many = nest.many;
                        nest.deps[many] = e;
                        nest.many = many + 1;
                    }
                    Piece::Barred(g) => {
                        let fault = barred_fault(&so_far, g);
                        if let Err(refusal) = fault {
                            return Err(Fault {
                                refusal,
                                line: here,
                            });
                        }
                        let bars = nest.bars;
                        nest.barred[bars] = g;
                        nest.bars = bars + 1;
                    }
                    Piece::Flagged => {
                        let fault = point_fault(&so_far, DO);
                        if let Err(refusal) = fault {
                            return Err(Fault {
                                refusal,
                                line: here,
                            });
                        }
                        let count = nest.count;
                        let flags = nest.flags;
                        nest.points[count] = DO;
                        nest.count = count + 1;
                        nest.flagged[flags] = (count % 256) as u8;
                        nest.flags = flags + 1;
                        depth += 1;
                    }
                    Piece::Unknown => return Err(Fault {
                        refusal: Refusal::WrongKind,
                        line: here,
                    }),
                }
            }
        }
    }
}

// Reads a placement text, for a nest with so many points and these barred gaps, up to its first faulty line.
pub fn read_placement(points: usize, barred: Placement, text: &[u8]) -> Result<Placement, Fault>
    ensures { IsPlaced points (gaps_in barred.words) text.now result }
{
    let values = digit_values();
    let mut placement = Placement::empty();
    let mut last: usize = 0;
    let mut at: usize = 0;
    let mut line: usize = 1;
    loop {
        match read_line(text, at, &values) {
            Ok(None) => return Ok(placement),
            Err(refusal) => return Err(Fault { refusal, line }),
            Ok(Some(f)) => {
                let fault = barrier_fault(last, points, barred, f);
                if let Err(refusal) = fault {
                    return Err(Fault { refusal, line });
                }
                last = f.a as usize;
                placement = placement.put(last);
                at = f.next;
                line += 1;
            }
        }
    }
}

// The nest of an empty nest text: the blank paper, a loop with nothing in it.
fn blank() -> Nest
    ensures { IsRead [] (Ok result) }
{
    let none = Nest::empty();
    let open = none.with_point(DO);
    open.with_point(ENDDO)
}

// The reading at the end of a text.
fn ended(nest: Nest, depth: usize, line: usize) -> Result<Nest, Fault>
    requires { IsCounted nest }
    ensures { EndedAs nest depth line result }
{
    if !is_closed(nest.count, depth) {
        return Err(Fault {
            refusal: Refusal::Misplaced,
            line,
        });
    }
    Ok(nest)
}

// Whether a frame is a barrier after the gap `last`, else its refusal, 2, 8 or 16.
fn barrier_fault(last: usize, points: usize, barred: Placement, f: Frame) -> Result<(), Refusal>
    ensures { BarrierFault last points (gaps_in barred.words) f (number_in result) }
{
    if f.kind != BARRIER || f.len != 2 {
        return Err(Refusal::WrongKind);
    }
    let g = f.a as usize;
    if g <= last || points <= g {
        return Err(Refusal::WrongGap);
    }
    if barred.holds(g) {
        return Err(Refusal::BarredGap);
    }
    Ok(())
}

// What a frame tells, by its kind and its length.
fn piece_of(f: Frame) -> Piece
    ensures { IsPiece f result }
{
    match (f.kind, f.len) {
        (DO | ENDDO | STATEMENT, 1) => Piece::Point(f.kind),
        (INDEPENDENT, 3) => Piece::Dependence(Dependence {
            kind: INDEPENDENT,
            d: 0,
            s: f.a,
            t: f.b,
        }),
        (CARRIED, 4) => Piece::Dependence(Dependence {
            kind: CARRIED,
            d: f.a,
            s: f.b,
            t: f.c,
        }),
        (BARRED, 2) => Piece::Barred(f.a),
        (FLAGGED, 1) => Piece::Flagged,
        _ => Piece::Unknown,
    }
}

// Whether a point may come next, else its refusal, 3, 4 or 5. This and the next two are inlined, so that what is known so
// far is not put together in memory for each line.
#[inline(always)]
fn point_fault(so_far: &SoFar, kind: u8) -> Result<(), Refusal>
    ensures { PointFault
        (length so_far.now.points.now)
        so_far.now.many
        so_far.now.bars
        so_far.now.depth
        kind
        (number_in result) }
{
    let count = so_far.points.len();
    if 1 <= so_far.many || 1 <= so_far.bars {
        return Err(Refusal::LatePoint);
    }
    if is_misplaced(count, so_far.depth, kind) {
        return Err(Refusal::Misplaced);
    }
    if is_too_many(count, so_far.depth, kind) {
        return Err(Refusal::TooMany);
    }
    Ok(())
}

// Whether a dependence may come next, else its refusal, 4 to 7.
#[inline(always)]
fn dependence_fault(so_far: &SoFar, e: Dependence) -> Result<(), Refusal>
    requires { KnowsEnds so_far.now.points.now so_far.now.depth so_far.now.ends.now }
    ensures { DependenceFault so_far.now.points.now so_far.now.many so_far.now.depth e (number_in result) }
{
    if !is_closed(so_far.points.len(), so_far.depth) {
        return Err(Refusal::Misplaced);
    }
    if Nest::DEPENDENCES <= so_far.many {
        return Err(Refusal::TooMany);
    }
    dep_fault(so_far.points, so_far.ends[e.d as usize], e)
}

// Whether a barred gap may come next, else its refusal, 4, 5, 8 or 14.
#[inline(always)]
fn barred_fault(so_far: &SoFar, g: u8) -> Result<(), Refusal>
    requires { KnowsOne so_far.now.points.now so_far.now.depth so_far.now.single }
    ensures { BarredFault so_far.now.points.now so_far.now.bars so_far.now.depth g (number_in result) }
{
    if !is_closed(so_far.points.len(), so_far.depth) {
        return Err(Refusal::Misplaced);
    }
    if Nest::BARS <= so_far.bars {
        return Err(Refusal::TooMany);
    }
    bar_fault(so_far.points, so_far.single, g)
}

// All points are there.
fn is_closed(count: usize, depth: usize) -> bool
    ensures { result ≡ closed_by count depth }
{
    0 < count && depth == 0
}

// All points are there, or the first is no DO.
fn is_misplaced(count: usize, depth: usize, kind: u8) -> bool
    ensures { result ≡ misplaced_by count depth kind }
{
    is_closed(count, depth) || (count == 0 && kind != DO)
}

// There is no room for the point, or no loop may open here.
fn is_too_many(count: usize, depth: usize, kind: u8) -> bool
    ensures { result ≡ too_many_by count depth kind }
{
    Nest::POINTS <= count || (kind == DO && Nest::DEPTH <= depth)
}

// The length of a placement's text.
pub fn text_length(p: Placement) -> usize
    ensures { result ≡ length (key_text (gaps_in p.words)) }
{
    let mut n: usize = 0;
    let mut g = p.lowest_from(0);
    while g < Placement::GAPS {
        n += 5;
        g = p.lowest_from(g + 1);
    }
    n
}

// Writes a placement as text, a barrier a line, from the start of a buffer that has room for it; gives the text's
// length.
pub fn write_text(p: Placement, out: &mut [u8]) -> usize
    requires { length (key_text (gaps_in p.words)) ≤ length out.old }
    ensures value { result ≡ length (key_text (gaps_in p.words)) }
    ensures out_after { out.new ≡ over (key_text (gaps_in p.words)) out.old }
{
    let mut at: usize = 0;
    let mut g = p.lowest_from(0);
    while g < Placement::GAPS {
        let frame = [BARRIER, (g % 256) as u8];
        at += put_frame(&mut out[at..], &frame);
        g = p.lowest_from(g + 1);
    }
    at
}

// Writes for each loop in order of its DO a line with its count, from the start of a buffer that has room for them;
// gives the length.
pub fn write_counts(points: &[u8], key: Placement, out: &mut [u8]) -> usize
    requires points_value { (is_shape points.now ≡ true) × (length points.now ≤ GAPS) }
    requires words_value { are_gaps_from 0 (length points.now) (gaps_in key.words) ≡ true }
    requires counts_fit { CountsFit points.now (gaps_in key.words) (length out.old) }
    ensures { CountsSay points.now (gaps_in key.words) out.old out.new result }
{
    let counts = counts_of(points, key);
    let mut at: usize = 0;
    for d in 0..points.len() {
        if points[d] == DO {
            let frame = [COUNT, (d % 256) as u8, (counts[d] % 256) as u8];
            at += put_frame(&mut out[at..], &frame);
        }
    }
    at
}
