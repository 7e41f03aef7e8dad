// The steps of a sweep over one loop: how many barriers of its own it takes, and how far left the leftmost one can lie.
#![tactic(auto)]

ghost use Rattle.std.specs.Prelude.{◌≡◌, ◌+◌, ◌<◌, ◌≤◌, length};
ghost use Rattle.laws.specs.Entries.{at};
ghost use Rattle.plan_method.specs.Sweep.{seek};
ghost use Rattle.plan_sweeps.specs.Firsts.{FirstOr};
ghost use Rattle.plan_sweeps.specs.Listed.{Stepped};

// The front after a step over a child, and the bound that the child was asked with.
#[derive(Clone, Copy)]
pub struct Step {
    pub c: usize,
    pub f: usize,
    pub ask: usize,
}

// A loop's inside as a sweep reads it: the points, the loop of each gap, and the fronts of the loops inside in the row
// of a table that starts at `kids`.
#[derive(Clone, Copy)]
pub struct Inside<'a> {
    pub points: &'a [u8],
    pub own: &'a [usize],
    pub left: &'a [u16],
    pub kids: usize,
}

// Over the child l with its ENDDO p and the gap after it.
pub fn step_child(
    need: &[usize],
    left: &[u16],
    kids: usize,
    l: usize,
    p: usize,
    c: usize,
    f: usize,
) -> Step
    requires p_in_bounds { p + 1 < length need.now }
    requires p_in_bounds_2 { kids + p + 1 < length left.now }
    requires l_le_p { l ≤ p }
    requires c_in_bounds { c < length need.now }
    ensures { Stepped need.now left.now kids l p c f result.c result.f result.ask }
{
    let b = last_need(need, f, l, p + 1);
    let start = l + 1;
    let first = left[kids + start] as usize;
    if b == 0 {
        return Step {
            c,
            f: first_or(first, f),
            ask: start,
        };
    }
    if b <= p {
        let g = left[kids + b] as usize;
        if 0 < g {
            return Step { c, f: g, ask: b };
        }
    }
    Step {
        c: c + 1,
        f: first_or(first, p + 1),
        ask: start,
    }
}

// The first number, or the second where the first is 0.
pub fn first_or<T: PartialEq + Default + Copy>(first: T, other: T) -> T
    ensures { FirstOr T.eq T.is_default first other result }
{
    if first == T::default() { other } else { first }
}

// The last gap of low + 1 to p at which a line starts that ends before f, 0 for none.
// 0 and no Option: gaps begin at 1, and the lists that it goes into have 0 for none.
pub fn last_need(need: &[usize], f: usize, low: usize, p: usize) -> usize
    requires { p < length need.now }
    ensures { result ≡ seek (at need.now) f low p }
{
    for before in (low..p).rev() {
        let a = before + 1;
        if need[a] < f {
            return a;
        }
    }
    0
}
