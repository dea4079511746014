//! Laws of the definitions: the function does nothing, and its contract is the laws.
ghost use Rattle.std.specs.Prelude.{◌≡◌, ◌⊎◌, List};
ghost use Rattle.std.specs.List.{Contains};
ghost use Rattle.dubp_verdict.specs.Verdicts.{Verdict, IsWithin, with_verdict};

/// What a set is after one verdict more: it has that verdict and those that it had, and no other. A repeat changes nothing.
pub fn verdict_laws()
    ensures has { (t : Verdict) (v : List Verdict) → Contains (with_verdict t v) t }
    ensures within { (t : Verdict) (v : List Verdict) → IsWithin v (with_verdict t v) }
    ensures only { (t u : Verdict) (v : List Verdict) → Contains (with_verdict t v) u → (u ≡ t) ⊎ Contains v u }
    ensures repeat { (t : Verdict) (v : List Verdict) → Contains v t → with_verdict t v ≡ v }
{}
