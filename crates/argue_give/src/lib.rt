// The claims of a loop with their steps, spelled into a buffer one after the other.
#![tactic(auto)]

ghost use Rattle.std.specs.Prelude.{◌≡◌, [], ◌∷◌, ◌++◌, ◌+◌, ◌-◌, ◌*◌, ◌≤◌, ◌<◌, length};
ghost use Rattle.paper_nests.specs.Stored.{nest_in};
ghost use Rattle.argue_key.specs.Laps.{head, few_for, low_heads, side_heads, row_heads};
ghost use Rattle.argue_give.specs.Given.{BYTES, Gives, GiveRoom, GiveGround, RowRoom, RowGround, run_at};

use argue_laps::Head;
use argue_spell::put_claim;
use argue_texts::{CLAIMS, Claimed};
use paper_nests::Nest;
use plan_sweeps::Inside;

// How many claims were given, and the place behind them.
#[derive(Clone, Copy)]
pub struct Sofar {
    pub many: usize,
    pub at: usize,
}

// A loop with its DO d and its ENDDO e, its row of fronts, which starts at base, and its cost.
#[derive(Clone, Copy)]
pub struct Row {
    pub d: usize,
    pub e: usize,
    pub base: usize,
    pub cost: usize,
}

// The claims of a loop that has something to cut: the low one, and but for the outermost those of its row.
// What is written stays beside what is read, here and below: a struct of both would need a clause for each list that it
// keeps its reference.
pub fn give_heads(
    nest: Nest,
    inside: &Inside,
    need: &mut [usize],
    sets: &mut [usize],
    claims: &mut [Claimed],
    row: Row,
    out: &mut [u8],
    sofar: Sofar,
) -> Sofar
    requires give_room { GiveRoom nest inside.now.points.now inside.now.own.now inside.now.left.now inside.now.kids
        need.old sets.old claims.old row.d row.e }
    requires row_room { RowRoom inside.now.left.now row.base row.d row.e }
    requires at_bound { (sofar.at ≤ BYTES * sofar.many) × (sofar.many + (row.e + 2) ≤ 131072) }
    ensures gives { Gives inside.now.points.now (nest_in nest).deps
        (RowGround nest inside.now.points.now inside.now.own.now inside.now.left.now inside.now.kids row.base
        need.old sets.old row.d row.e row.cost)
        (λ T. low_heads T row.d ++ side_heads T row.d row.e)
        out.old sofar.at claims.old sofar.many out.new result.at claims.new result.many }
    ensures many_bound { result.many ≤ sofar.many + (row.e + 2) }
    ensures need_unchanged { (need.new ≡ need.old) × (sets.new ≡ sets.old) }
{
    let mut s = sofar;
    if 0 < row.cost {
        let head = Head {
            d: row.d,
            e: row.e,
            from: 0,
            upto: 0,
            few: row.cost - 1,
        };
        s = give_claim(nest, inside, need, sets, claims, head, out, s);
    }
    if row.d == 0 {
        return s;
    }
    give_sides(nest, inside, need, sets, claims, row, out, s)
}

// The claims that say where a loop inside has no gap: none up to its first front, then those of its row.
fn give_sides(
    nest: Nest,
    inside: &Inside,
    need: &mut [usize],
    sets: &mut [usize],
    claims: &mut [Claimed],
    row: Row,
    out: &mut [u8],
    sofar: Sofar,
) -> Sofar
    requires give_room { GiveRoom nest inside.now.points.now inside.now.own.now inside.now.left.now inside.now.kids
        need.old sets.old claims.old row.d row.e }
    requires row_room { RowRoom inside.now.left.now row.base row.d row.e }
    requires d_nonzero { 0 < row.d }
    requires at_bound { (sofar.at ≤ BYTES * sofar.many) × (sofar.many + (row.e + 1) ≤ 131072) }
    ensures gives { Gives inside.now.points.now (nest_in nest).deps
        (RowGround nest inside.now.points.now inside.now.own.now inside.now.left.now inside.now.kids row.base
        need.old sets.old row.d row.e row.cost)
        (λ T. side_heads T row.d row.e)
        out.old sofar.at claims.old sofar.many out.new result.at claims.new result.many }
    ensures many_bound { result.many ≤ sofar.many + (row.e + 1) }
    ensures need_unchanged { (need.new ≡ need.old) × (sets.new ≡ sets.old) }
{
    let mut s = sofar;
    let first = inside.left[row.base + (row.d + 1)] as usize;
    if row.d + 1 < first {
        let head = Head {
            d: row.d,
            e: row.e,
            from: 0,
            upto: first - 1,
            few: row.cost,
        };
        s = give_claim(nest, inside, need, sets, claims, head, out, s);
    }
    give_row(nest, inside, need, sets, claims, row, out, s)
}

// One claim: its line, its steps, and what it says in the list.
fn give_claim(
    nest: Nest,
    inside: &Inside,
    need: &mut [usize],
    sets: &mut [usize],
    claims: &mut [Claimed],
    claim: Head,
    out: &mut [u8],
    sofar: Sofar,
) -> Sofar
    requires give_room { GiveRoom nest inside.now.points.now inside.now.own.now inside.now.left.now inside.now.kids
        need.old sets.old claims.old claim.d claim.e }
    requires from_le_e { (claim.from ≤ claim.e) × (claim.upto < 256) }
    requires at_bound { (sofar.at ≤ BYTES * sofar.many) × (sofar.many ≤ 131072) }
    ensures gives { Gives inside.now.points.now (nest_in nest).deps
        (λ T. GiveGround nest inside.now.points.now inside.now.own.now inside.now.left.now inside.now.kids
        need.old sets.old claim.d claim.e T × (claim.few ≡ few_for T (head claim.d claim.from claim.upto)))
        (λ T. head claim.d claim.from claim.upto ∷ [])
        out.old sofar.at claims.old sofar.many out.new result.at claims.new result.many }
    ensures need_unchanged { ((need.new ≡ need.old) × (sets.new ≡ sets.old)) × (result.many ≡ sofar.many + 1) }
{
    let many = sofar.many;
    if CLAIMS <= many {
        return Sofar {
            many: many + 1,
            ..sofar
        };
    }
    let body = put_claim(out, sofar.at, claim.d, claim.from, claim.upto);
    // No heap: a list of fixed room, and how many it has.
    let before = &claims[..many];
    let at = argue_laps::laps(nest, inside, need, sets, before, claim, out, body);
    claims[many] = Claimed {
        d: (claim.d % 256) as u8,
        a: (claim.from % 256) as u8,
        b: (claim.upto % 256) as u8,
    };
    Sofar { many: many + 1, at }
}

// The claims that the row of a loop makes, one for the first gap of each run of equal fronts.
fn give_row(
    nest: Nest,
    inside: &Inside,
    need: &mut [usize],
    sets: &mut [usize],
    claims: &mut [Claimed],
    row: Row,
    out: &mut [u8],
    sofar: Sofar,
) -> Sofar
    requires give_room { GiveRoom nest inside.now.points.now inside.now.own.now inside.now.left.now inside.now.kids
        need.old sets.old claims.old row.d row.e }
    requires row_room { RowRoom inside.now.left.now row.base row.d row.e }
    requires at_bound { (sofar.at ≤ BYTES * sofar.many) × (sofar.many + row.e ≤ 131072) }
    ensures gives { Gives inside.now.points.now (nest_in nest).deps
        (RowGround nest inside.now.points.now inside.now.own.now inside.now.left.now inside.now.kids row.base
        need.old sets.old row.d row.e row.cost)
        (λ T. row_heads T row.d row.e)
        out.old sofar.at claims.old sofar.many out.new result.at claims.new result.many }
    ensures many_bound { result.many ≤ sofar.many + row.e }
    ensures need_unchanged { (need.new ≡ need.old) × (sets.new ≡ sets.old) }
{
    let mut s = sofar;
    for b in (row.d + 1..row.e + 1).rev() {
        if starts_run(inside.left, row, b) {
            let head = Head {
                d: row.d,
                e: row.e,
                from: b,
                upto: (inside.left[row.base + b] as usize).saturating_sub(1),
                few: row.cost,
            };
            s = give_claim(nest, inside, need, sets, claims, head, out, s);
        }
    }
    s
}

// The gap b is the first of a run of equal fronts, before which a gap of the loop lies.
fn starts_run(left: &[u16], row: Row, b: usize) -> bool
    requires d_lt_b { (row.d < b) × (row.base + b < length left.now) }
    requires b_bound { b < 256 }
    ensures { result ≡ run_at left.now row.base row.d (b - 1) }
{
    let here = left[row.base + b] as usize;
    here != row.d + 1 && (b == row.d + 1 || here != left[row.base + (b - 1)] as usize)
}
