// The latest moves of a sitting that are not yet taken back: at most 64, older ones are forgotten.
#![tactic(auto)]

ghost use Rattle.std.specs.Prelude.{◌≡◌, ◌<◌};
ghost use Rattle.desk_moves.specs.Ring.{KEPT, before, IsRing, EmptySays, PushSays, LatestSays, PopSays};

// A gap put or lifted.
#[repr(C)]
#[derive(Clone, Copy)]
pub struct Move {
    pub gap: u8,
    pub put: bool,
}

// A ring: the latest move stands at `head`, the one before it at the place before, and the last place comes before
// place 0. There are `many`. The C interface: desk.h lays it out, and it may hold anything, so that `IsRing` is a
// clause.
#[repr(C)]
#[derive(Clone, Copy)]
pub struct Moves {
    pub ring: [Move; Moves::KEPT],
    pub head: usize,
    pub many: usize,
}

impl Moves {
    pub const KEPT: usize = 64;

    // No moves.
    pub fn empty() -> Moves
        ensures { EmptySays result }
    {
        Moves {
            ring: [Move { gap: 0, put: false }; Moves::KEPT],
            head: 0,
            many: 0,
        }
    }

    // One move more; where 64 are kept, the oldest is forgotten.
    pub fn push(self, m: Move) -> Moves
        requires { IsRing self }
        ensures { PushSays self m result }
    {
        let mut r = self;
        r.head = place_after(r.head);
        r.ring[r.head] = m;
        r.many = (r.many + 1).min(Moves::KEPT);
        r
    }

    // The latest move.
    pub fn latest(self) -> Move
        requires ring { IsRing self }
        requires many_nonzero { 0 < self.many }
        ensures { LatestSays self result }
    {
        self.ring[self.head]
    }

    // The moves without the latest.
    pub fn pop(self) -> Moves
        requires ring { IsRing self }
        requires many_nonzero { 0 < self.many }
        ensures { PopSays self result }
    {
        Moves {
            head: place_before(self.head),
            many: self.many - 1,
            ..self
        }
    }
}

// The place after place i, round the ring.
fn place_after(i: usize) -> usize
    requires { i < KEPT }
    ensures { (before result ≡ i) × (result < KEPT) }
{
    if i + 1 == Moves::KEPT { 0 } else { i + 1 }
}

// The place before place i, round the ring.
fn place_before(i: usize) -> usize
    requires { i < KEPT }
    ensures { (result ≡ before i) × (result < KEPT) }
{
    if i == 0 { Moves::KEPT - 1 } else { i - 1 }
}
