// Barred gaps: the set of those of a nest.
#![tactic(auto)]

ghost use Rattle.std.specs.Prelude.{◌≡◌, ℕ};
ghost use Rattle.laws.specs.Choice.{is_in};
ghost use Rattle.paper_nests.specs.Stored.{nest_in, IsCounted};
ghost use Rattle.paper_placements.specs.Words.{holds};

use paper_nests::Nest;
use paper_placements::Placement;

// The barred gaps of a nest, as 256 bits.
pub fn barred_of(nest: Nest) -> Placement
    requires { IsCounted nest }
    ensures { (g : ℕ) → holds result.words g ≡ is_in g (nest_in nest).barred }
{
    paper_placements::set_of(nest.barred_gaps())
}
