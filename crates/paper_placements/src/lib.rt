// Placements as 256 bits: gaps put and tested, the cut test, loops counted and compared.
#![tactic(auto)]

ghost use Rattle.std.specs.Prelude.{◌≡◌, true, false, ◌||◌, ◌&&◌, ℕ, ◌+◌, ◌<◌, ◌≤◌, eqb, ltb, length};
ghost use Rattle.laws.specs.Bits.{bit, tally};
ghost use Rattle.laws.specs.Choice.{between, is_in};
ghost use Rattle.paper_nests.specs.Loops.{is_do, end_of};
ghost use Rattle.paper_nests.specs.Valid.{is_shape, is_valid};
ghost use Rattle.paper_nests.specs.Stored.{nest_in, IsCounted};
ghost use Rattle.paper_placements.specs.Placements.{uncut, are_gaps_from};
ghost use Rattle.paper_placements.specs.Words.{GAPS, holds, gaps_in, LowestFrom, LowestIn};
ghost use Rattle.paper_placements.specs.Answers.{cut_of, is_cut, CutInSays, place_of, found_of, IsMask};
ghost use Rattle.paper_placements.specs.Answers.{LoopCountSays, CompareSays};

use paper_nests::{Dependence, Nest};

// A set of gaps, or of loops by their DOs: gap g, or the loop of DO g, is bit g mod 64 of word g / 64.
// The C interface: desk.h lays it out, so it may hold any bits; that they are gaps of a nest (are_gaps) speaks of the
// nest too, and is a clause.
#[repr(C)]
#[derive(Clone, Copy)]
pub struct Placement {
    pub words: [u64; 4],
}

// The counts of a loop in two placements.
#[derive(Clone, Copy)]
pub struct Counts {
    pub d: usize,
    pub theirs: usize,
    pub ours: usize,
}

impl Placement {
    pub const GAPS: usize = 256;

    // The placement with no gap.
    pub fn empty() -> Placement
        ensures { (i : ℕ) → holds result.words i ≡ false }
    {
        Placement { words: [0; 4] }
    }

    // The placement with gap g as well.
    pub fn put(self, g: usize) -> Placement
        requires { g < GAPS }
        ensures { (i : ℕ) → holds result.words i ≡ (eqb i g || holds self.words i) }
    {
        let mut p = self;
        p.words[g / 64] |= 1 << (g % 64);
        p
    }

    // The placement holds gap g.
    pub fn holds(self, g: usize) -> bool
        requires { g < GAPS }
        ensures { result ≡ holds self.words g }
    {
        (self.words[g / 64] >> (g % 64)) & 1 == 1
    }

    // The lowest gap at or above lo; 256 for none. An Option would be turned into that number again: ranges end with
    // it, the lower of two such gaps is their `min`, and the laws of loops over gaps count up to it.
    // Walks over a placement's gaps go by it, here and in the crates above: a turn for each gap that is there, where a
    // range would take 256.
    pub fn lowest_from(self, lo: usize) -> usize
        ensures { LowestFrom self.words lo result }
    {
        if lo >= Placement::GAPS {
            return Placement::GAPS;
        }
        let at = lo / 64;
        let v = self.words[at] >> (lo % 64);
        if v != 0 {
            return lo + v.trailing_zeros() as usize;
        }
        for i in at + 1..4 {
            let w = self.words[i];
            if w != 0 {
                return i * 64 + w.trailing_zeros() as usize;
            }
        }
        Placement::GAPS
    }

    // The lowest gap from lo to hi; 256 for none.
    pub fn lowest_in(self, lo: usize, hi: usize) -> usize
        ensures { LowestIn self.words (λ (g : ℕ). between lo g hi) result }
    {
        let g = self.lowest_from(lo);
        if g <= hi { g } else { Placement::GAPS }
    }
}

// The numbers of a list, as a set.
pub fn set_of(all: &[u8]) -> Placement
    ensures { (i : ℕ) → holds result.words i ≡ is_in i all.now }
{
    let mut set = Placement::empty();
    for &g in all {
        set = set.put(g as usize);
    }
    set
}

// A gap that was looked for; None for 256.
fn found(g: usize) -> Option<usize>
    ensures { (cut_of result ≡ found_of g) × (is_cut result ≡ ltb g GAPS) }
{
    (g < Placement::GAPS).then_some(g)
}

// The lowest gap of the placement that cuts the dependence, or None; `end` is the ENDDO of the loop that carries it.
pub fn cut_in(end: usize, p: Placement, e: Dependence) -> Option<usize>
    ensures { CutInSays end e p.words result }
{
    let s = e.s as usize;
    let t = e.t as usize;
    if e.kind == paper_nests::INDEPENDENT {
        return found(p.lowest_in(s + 1, t));
    }
    let d = e.d as usize;
    found(p.lowest_in(d + 1, t).min(p.lowest_in(s + 1, end)))
}

// The number of the first dependence that the placement does not cut, or None.
pub fn uncut(nest: Nest, p: Placement) -> Option<usize>
    requires counted { IsCounted nest }
    requires nest_value { is_valid (nest_in nest) ≡ true }
    ensures { place_of result ≡ uncut (nest_in nest) (gaps_in p.words) }
{
    let ends = paper_nests::ends_of(nest.points());
    for (i, &e) in nest.dependences().iter().enumerate() {
        if cut_in(ends[e.d as usize], p, e).is_none() {
            return Some(i);
        }
    }
    None
}

// The own gaps of the loop with DO d and ENDDO e.
// That the points have a shape is a clause, here and in the crates above: they are a part of a nest's array, as it is.
pub fn loop_mask(points: &[u8], d: usize, e: usize) -> Placement
    requires points_value { (is_shape points.now ≡ true) × (length points.now ≤ GAPS) }
    requires d_value { (is_do points.now d ≡ true) × (e ≡ end_of points.now d) }
    ensures { IsMask points.now d result.words }
{
    let mut mask = Placement::empty();
    let mut depth: usize = 1;
    for g in d + 1..e + 1 {
        if depth == 1 {
            mask = mask.put(g);
        }
        depth = paper_nests::deeper(depth, points[g]);
    }
    mask
}

// The ones that two words share.
fn shared(a: u64, m: u64) -> usize
    ensures { (result ≡ tally (λ (b : ℕ). bit a b && bit m b) 64 0) × (result ≤ 64) }
{
    (a & m).count_ones() as usize
}

// The placement's ones under a loop's mask.
pub fn loop_count(p: Placement, mask: Placement) -> usize
    ensures { result ≡ tally (λ (g : ℕ). holds p.words g && holds mask.words g) GAPS 0 }
{
    let a = p.words;
    let m = mask.words;
    shared(a[0], m[0]) + shared(a[1], m[1]) + shared(a[2], m[2]) + shared(a[3], m[3])
}

// The count of loop d in the placement.
pub fn count_of(points: &[u8], d: usize, p: Placement) -> usize
    requires points_value { (is_shape points.now ≡ true) × (length points.now ≤ GAPS) }
    requires d_value { is_do points.now d ≡ true }
    requires words_value { are_gaps_from 0 (length points.now) (gaps_in p.words) ≡ true }
    ensures { LoopCountSays points.now d p.words result }
{
    let e = paper_nests::end_of(points, d);
    let mask = loop_mask(points, d, e);
    loop_count(p, mask)
}

// The first loop by its ENDDO at which the key and another placement differ, with both counts, or None.
pub fn compare(points: &[u8], key: Placement, other: Placement) -> Option<Counts>
    requires points_value { (is_shape points.now ≡ true) × (length points.now ≤ GAPS) }
    requires words_value { are_gaps_from 0 (length points.now) (gaps_in key.words) ≡ true }
    requires words_value_2 { are_gaps_from 0 (length points.now) (gaps_in other.words) ≡ true }
    ensures { CompareSays points.now key.words other.words result }
{
    for (e, &point) in points.iter().enumerate() {
        if point == paper_nests::ENDDO {
            let d = paper_nests::loop_of(points, e);
            let mask = loop_mask(points, d, e);
            let ours = loop_count(key, mask);
            let theirs = loop_count(other, mask);
            if ours != theirs {
                return Some(Counts { d, theirs, ours });
            }
        }
    }
    None
}
