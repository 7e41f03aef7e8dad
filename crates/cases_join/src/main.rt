// Cases of two papers into one (change request 12), joined and compared; a line for each.
#![tactic(auto)]

ghost use Rattle.std.specs.Prelude.{◌≡◌, ◌≤◌, length, take};

use call_join::join;
use cases_replies::{has_key, is_best, is_refused, planned, repeat, report};
use std::io;

fn main(rt: HostRuntime) -> io::Result<()> {
    report(&rt, 1, case_1())?;
    report(&rt, 2, case_2())?;
    report(&rt, 3, case_3())?;
    report(&rt, 4, case_4())?;
    report(&rt, 5, case_5())?;
    report(&rt, 6, case_6())?;
    report(&rt, 7, case_7())?;
    report(&rt, 8, case_8())?;
    Ok(())
}

// P with Q: the points of P are moved by 1, those of Q by 15. The key is 5, 11 and 2, 6 moved along, and Best are two
// that were Best.
fn case_1() -> bool {
    let p = b"01\n01\n03\n03\n03\n03\n02\n01\n03\n03\n03\n03\n02\n02\n\
        110205\n12010403\n11080b\n12070a09\n12000a02\n110409\n";
    let q = b"01\n03\n01\n01\n03\n03\n02\n03\n02\n02\n110105\n12030504\n110407\n";
    let both = b"01\n01\n01\n03\n03\n03\n03\n02\n01\n03\n03\n03\n03\n02\n02\n\
        01\n03\n01\n01\n03\n03\n02\n03\n02\n02\n02\n\
        110306\n12020504\n11090c\n12080b0a\n12010b03\n11050a\n111014\n12121413\n111316\n";
    let joint = planned(both);
    joins(p, q, both)
        && has_key(joint, b"2106\n210c\n2111\n2115\n")
        && is_best(joint, b"2106\n210c\n2111\n2115\n")
}

// Blank papers: both, the second, the first; and a paper twice.
fn case_2() -> bool {
    joins(b"", b"", b"01\n01\n02\n01\n02\n02\n")
        && joins(
            b"01\n03\n02\n12000101\n",
            b"",
            b"01\n01\n03\n02\n01\n02\n02\n12010202\n",
        )
        && joins(
            b"",
            b"01\n03\n02\n12000101\n",
            b"01\n01\n02\n01\n03\n02\n02\n12030404\n",
        )
        && joins(
            b"01\n03\n02\n110001\n",
            b"01\n03\n02\n110001\n",
            b"01\n01\n03\n02\n01\n03\n02\n02\n110102\n110405\n",
        )
}

// Flagged loops are flagged in the joint paper; the new loop is not.
fn case_3() -> bool {
    joins(
        b"01\n04\n03\n02\n02\n12010202\n",
        b"04\n03\n02\n",
        b"01\n01\n04\n03\n02\n02\n04\n03\n02\n02\n12020303\n",
    ) && joins(
        b"04\n04\n02\n04\n02\n02\n",
        b"",
        b"01\n04\n04\n02\n04\n02\n02\n01\n02\n02\n",
    ) && joins(
        b"",
        b"04\n01\n02\n04\n02\n02\n",
        b"01\n01\n02\n04\n01\n02\n04\n02\n02\n02\n",
    )
}

// Every fault in the first text, in the second, in both.
fn case_4() -> bool {
    faults(b"zz\n", 1, 1)
        && faults(b"01\n05\n", 2, 2)
        && faults(b"01\n03\n02\n110001\n03\n", 3, 5)
        && faults(b"01\n03\n", 4, 3)
        && faults(b"01\n01\n01\n01\n01\n01\n01\n01\n04\n", 5, 9)
        && faults(b"01\n03\n02\n110003\n", 6, 4)
        && faults(b"01\n03\n03\n02\n110201\n", 7, 5)
        && faults(b"01\n03\n02\n1303\n", 8, 4)
        && faults(b"01\n01\n02\n02\n1301\n", 14, 5)
}

// 14 for a text with a barred gap, the first such one, after the faults of both.
fn case_5() -> bool {
    let barred = b"01\n03\n02\n1301\n";
    refuses(barred, b"", 14, 1, 0)
        && refuses(b"", barred, 14, 2, 0)
        && refuses(barred, barred, 14, 1, 0)
        && refuses(barred, b"01\n", 4, 2, 2)
        && refuses(b"01\n", barred, 4, 1, 2)
}

// The limits met, and one more of each: 256 points, 512 dependences, 8 deep, in either paper.
fn case_6() -> bool {
    fits(sized(1, 125, 0), sized(1, 125, 0))
        && exceeds(sized(1, 126, 0), sized(1, 125, 0))
        && exceeds(sized(1, 125, 0), sized(1, 126, 0))
        && exceeds(sized(1, 254, 0), sized(1, 0, 0))
        && fits(sized(1, 125, 256), sized(1, 125, 256))
        && fits(sized(1, 1, 512), sized(1, 0, 0))
        && exceeds(sized(1, 1, 512), sized(1, 1, 1))
        && exceeds(sized(1, 1, 1), sized(1, 1, 512))
        && fits(sized(7, 0, 0), sized(7, 0, 0))
        && exceeds(sized(8, 0, 0), sized(1, 0, 0))
        && exceeds(sized(1, 0, 0), sized(8, 0, 0))
}

// 14 comes before 18: a barred gap in a paper that fills the points.
fn case_7() -> bool {
    let mut full = [0u8; 8192];
    let n = put_paper(&mut full, sized(1, 254, 0));
    let m = repeat(&mut full, n, b"1301\n", 1);
    refuses(&full[..m], b"", 14, 1, 0) && refuses(b"", &full[..m], 14, 2, 0)
}

// A buffer of the text's length, one longer, one shorter: later bytes stay, and refused all do.
fn case_8() -> bool {
    let both = b"01\n01\n02\n01\n02\n02\n";
    let mut exact = [7; 18];
    let mut longer = [7; 19];
    let mut shorter = [7; 17];
    let whole = join(b"", b"", &mut exact);
    let more = join(b"", b"", &mut longer);
    let less = join(b"", b"", &mut shorter);
    whole.number == 0
        && check::same(&exact, both)
        && more.value == 18
        && check::same(&longer[..18], both)
        && longer[18] == 7
        && less.number == 9
        && less.text == 0
        && less.line == 0
        && less.value == 0
        && check::same(&shorter, &[7; 17])
}

// The texts are joined to this one.
fn joins(a: &[u8], b: &[u8], text: &[u8]) -> bool {
    let mut out = [0u8; 512];
    let joined = join(a, b, &mut out);
    let length = joined.value;
    if length <= out.len() {
        return joined.number == 0
            && joined.text == 0
            && joined.line == 0
            && check::same(&out[..length], text);
    }
    false
}

// The texts are refused with this number, text and line, and the buffer is left.
// Numbers stand here as bytes: the C interface (desk.h) lays the reply out with them, and document 01 writes them.
fn refuses(a: &[u8], b: &[u8], number: u8, text: u8, line: usize) -> bool {
    let mut out = [7; 64];
    let joined = join(a, b, &mut out);
    joined.number == number
        && joined.text == text
        && joined.line == line
        && joined.value == 0
        && check::same(&out, &[7; 64])
}

// The text is refused with this number and line, whichever of the two it is; in both, the first is named.
fn faults(text: &[u8], number: u8, line: usize) -> bool {
    refuses(text, b"", number, 1, line)
        && refuses(b"", text, number, 2, line)
        && refuses(text, b"01\nzz\n", number, 1, line)
        && refuses(b"01\nzz\n", text, 1, 1, 2)
}

// A paper of so many loops in one another, with so many statements in the innermost, and so many dependences.
#[derive(Clone, Copy)]
struct Size {
    loops: usize,
    statements: usize,
    dependences: usize,
}

fn sized(loops: usize, statements: usize, dependences: usize) -> Size {
    Size {
        loops,
        statements,
        dependences,
    }
}

// Puts a paper's text into the buffer; gives its length.
fn put_paper(text: &mut [u8], size: Size) -> usize
    ensures in_bounds { result ≤ length text.new }
    ensures whole { result ≡ length (take result text.new) }
{
    let a = repeat(text, 0, b"01\n", size.loops);
    let b = repeat(text, a, b"03\n", size.statements);
    let c = repeat(text, b, b"02\n", size.loops);
    repeat(text, c, b"110001\n", size.dependences)
}

// Papers of these sizes are joined, to a text that Load accepts.
fn fits(first: Size, second: Size) -> bool {
    let mut a = [0u8; 8192];
    let mut b = [0u8; 8192];
    let mut out = [0u8; 8192];
    let n = put_paper(&mut a, first);
    let m = put_paper(&mut b, second);
    let joined = join(&a[..n], &b[..m], &mut out);
    let length = joined.value;
    if length <= out.len() {
        return joined.number == 0 && is_refused(&out[..length], 0, 0);
    }
    false
}

// They exceed a limit, though each is accepted, and that comes before a buffer too short.
fn exceeds(first: Size, second: Size) -> bool {
    let mut a = [0u8; 8192];
    let mut b = [0u8; 8192];
    let n = put_paper(&mut a, first);
    let m = put_paper(&mut b, second);
    refuses(&a[..n], &b[..m], 18, 0, 0)
}
