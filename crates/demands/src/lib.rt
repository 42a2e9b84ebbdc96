// No code of its own: the museum's demands as statements over the definitions that the calls' contracts cite (specs/), and their
// proofs (proofs/). The one function promises them all.
#![tactic(auto)]

ghost use Rattle.std.specs.Prelude.{◌≡◌};
ghost use Rattle.demands.specs.Demands.{Demands};

// How many demands there are, all of which hold.
pub fn demands() -> u8
    ensures { (result ≡ 3) × Demands }
{
    3
}
