// The cases of a paper told by calls: the shape of its nest, the gaps of a dependence, how a sitting stands; a line for
// each.
// The functions take the numbers that replies must have, as desk.h lays replies out with numbers.
#![tactic(auto)]

ghost use Rattle.desk.specs.Desks.{IsMade};

use call_gaps::dependence_gaps;
use call_shape::nest_shape;
use call_standing::sitting_stands;
use cases_replies::{
    after_back, after_lift, after_load, after_plan, after_put, empty_desk, is_chosen, paper_p,
    repeat, report,
};
use desk::Desk;
use std::io;

fn main(rt: HostRuntime) -> io::Result<()> {
    report(&rt, 1, case_1())?;
    report(&rt, 2, case_2())?;
    report(&rt, 3, case_3())?;
    report(&rt, 4, case_4())?;
    report(&rt, 5, case_5())?;
    Ok(())
}

// The shape of P: loop 0 with the loops 1 to 6 and 7 to 12 in it. Behind its points every place has 0.
fn case_1() -> bool {
    let shape = nest_shape(paper_p());
    let owners = shape.owners;
    let ends = shape.ends;
    let depths = shape.depths;
    shape.number == 0
        && shape.line == 0
        && begins(
            &owners,
            b"\0\0\x01\x01\x01\x01\x01\0\x07\x07\x07\x07\x07\0\0\0",
        )
        && begins(&ends, b"\x0d\x06\0\0\0\0\0\x0c\0\0\0\0\0\0\0\0")
        && begins(
            &depths,
            b"\0\x01\x02\x02\x02\x02\x01\x01\x02\x02\x02\x02\x01\0\0\0",
        )
        && has(&owners, 255, 0)
        && has(&ends, 255, 0)
        && has(&depths, 255, 0)
}

// The gaps of P's dependences, in a line, round an inner loop and round the outer one; of one forward over the ring all
// gaps of the loop, and of every one the barred gaps too. P has no dependence 6.
fn case_2() -> bool {
    let p = paper_p();
    let ring = loaded(b"01\n03\n03\n02\n12000102\n110002\n1301\n1302\n");
    has_gaps(p, 0, 8 + 16 + 32)
        && has_gaps(p, 1, 4 + 8 + 32 + 64)
        && has_gaps(p, 4, 2 + 4 + 2048 + 4096 + 8192)
        && has_gaps(ring, 0, 2 + 4 + 8)
        && has_gaps(ring, 1, 2 + 4)
        && is_chosen(dependence_gaps(p, 6), 6, 0)
        && is_chosen(dependence_gaps(p, 256), 6, 0)
        && is_chosen(dependence_gaps(ring, 2), 6, 0)
}

// How a sitting on P stands: 5 put, then 13; 13 lifted; that taken back. Plan changes nothing of it.
fn case_3() -> bool {
    let p = paper_p();
    let one = after_put(p, 5);
    let two = after_put(one, 13);
    let lifted = after_lift(two, 13);
    stands(p, 0, b"\0\0\0\0\0\0\0\0", 6)
        && stands(one, 32, b"\0\x01\0\0\0\0\0\0", 3)
        && stands(two, 32 + 8192, b"\x01\x01\0\0\0\0\0\0", 2)
        && stands(lifted, 32, b"\0\x01\0\0\0\0\0\0", 3)
        && stands(after_back(lifted), 32 + 8192, b"\x01\x01\0\0\0\0\0\0", 2)
        && stands(after_plan(two), 32 + 8192, b"\x01\x01\0\0\0\0\0\0", 2)
}

// Without a nest: 10, and nothing is told.
fn case_4() -> bool {
    let shape = nest_shape(empty_desk());
    let ends = shape.ends;
    shape.number == 10
        && shape.line == 0
        && begins(&ends, b"\0\0\0")
        && stands_as(empty_desk(), 10, 0, b"\0\0\0", 0)
        && is_chosen(dependence_gaps(empty_desk(), 0), 10, 0)
}

// The limits: 256 points in one loop and 512 dependences, of which the last goes round the whole loop.
fn case_5() -> bool {
    let mut text = [0; 8192];
    let begun = repeat(&mut text, 0, b"01\n", 1);
    let points = repeat(&mut text, begun, b"03\n", 254);
    let closed = repeat(&mut text, points, b"02\n", 1);
    let lines = repeat(&mut text, closed, b"110001\n", 511);
    let length = repeat(&mut text, lines, b"12000101\n", 1);
    let full = loaded(&text[..length]);
    let sat = after_put(after_put(full, 255), 64);
    is_full(full)
        && is_chosen(dependence_gaps(full, 510), 0, 2)
        && is_chosen(dependence_gaps(full, 512), 6, 0)
        && is_cut(sat)
}

// The last point of the loop, and the gaps of the last dependence: 1 to 255.
fn is_full(desk: Desk) -> bool
    requires { IsMade desk }
{
    let shape = nest_shape(desk);
    let ends = shape.ends;
    let depths = shape.depths;
    let gaps = dependence_gaps(desk, 511);
    let words = gaps.set.words;
    has(&ends, 0, 255)
        && has(&depths, 254, 1)
        && has(&depths, 255, 0)
        && gaps.number == 0
        && words[0] == 18446744073709551614
        && words[1] == 18446744073709551615
        && words[3] == 18446744073709551615
}

// Two barriers, which cut the last dependence and no other.
fn is_cut(desk: Desk) -> bool
    requires { IsMade desk }
{
    let standing = sitting_stands(desk);
    let counts = standing.counts;
    let cuts = standing.cuts;
    standing.uncut == 511
        && has(&counts, 0, 2)
        && has(&cuts, 0, 0)
        && has(&cuts, 510, 0)
        && has(&cuts, 511, 2)
}

fn loaded(text: &[u8]) -> Desk
    ensures { IsMade result }
{
    after_load(empty_desk(), text)
}

// The call gives the gaps of this word.
fn has_gaps(desk: Desk, dependence: usize, gaps: u64) -> bool
    requires { IsMade desk }
{
    is_chosen(dependence_gaps(desk, dependence), 0, gaps)
}

// The barriers are those of the word, the first loops have these counts, and so many dependences are uncut.
fn stands(desk: Desk, barriers: u64, counts: &[u8], uncut: usize) -> bool
    requires { IsMade desk }
{
    stands_as(desk, 0, barriers, counts, uncut)
}

// The same, with this number.
fn stands_as(desk: Desk, number: u8, barriers: u64, counts: &[u8], uncut: usize) -> bool
    requires { IsMade desk }
{
    let standing = sitting_stands(desk);
    let words = standing.placement.words;
    let all = standing.counts;
    standing.number == number
        && standing.line == 0
        && words[0] == barriers
        && words[3] == 0
        && begins(&all, counts)
        && standing.uncut == uncut
}

// The table begins with these bytes.
fn begins(table: &[u8], with: &[u8]) -> bool {
    let length = with.len();
    if length <= table.len() {
        return check::same(&table[..length], with);
    }
    false
}

// The table has the byte at a place.
fn has(table: &[u8], at: usize, byte: u8) -> bool {
    if at < table.len() {
        return table[at] == byte;
    }
    false
}
