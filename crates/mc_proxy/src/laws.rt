//! Laws of what a proxy's calls do. The functions do nothing: their contracts are the laws.
ghost use Rattle.std.specs.Prelude.{◌≡◌, ℕ};
ghost use Rattle.mc_proxy.specs.ProxyState.{ProxyState};
ghost use Rattle.mc_proxy.specs.Turns.{Steps};

/// If a step of a session leaves that session and the links as they were, the proxy is as it was.
pub fn steps_that_change_nothing_are_still()
    ensures { (number : ℕ) (old new : ProxyState) → (step : Steps number old new (λ _ _ _ _. Unit {0}))
        → step.after ≡ step.before → new.links ≡ old.links → new ≡ old }
{}
