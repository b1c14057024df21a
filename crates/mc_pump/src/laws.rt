//! Laws of stretches (one connection's calls of a pump). Each function does nothing: its contract is the law.
ghost use Rattle.std.specs.Prelude.{ℕ, ◌<◌, List, [], ◌∷◌, ◌++◌};
ghost use Rattle.mc_cache.specs.CacheState.{CacheState};
ghost use Rattle.mc_server.specs.Served.{ServedRequest};
ghost use Rattle.mc_server.specs.ServerState.{ServerState};
ghost use Rattle.mc_server.specs.Holds.{ServerHolds, grown};
ghost use Rattle.mc_pump.specs.Stretches.{ConnectionStretch};
ghost use Rattle.mc_pump.specs.Work.{IsWithin, work_in};

/// A server that is as a history leaves it, is after a stretch as that history and the stretch's leave it. Its
/// connection's text has grown by the bytes that arrived, and its sent bytes by those that the writer took.
pub fn servers_hold_after_a_stretch()
    ensures { (opening : CacheState) (texts sent : ℕ → List ℕ) (history : List ServedRequest) (number moment : ℕ) (old new : ServerState) (came went : List ℕ)
        → ServerHolds opening texts sent history old → (stretch : ConnectionStretch number moment old new came went)
        → ServerHolds opening (grown number came texts) (grown number went sent) (history ++ stretch.history) new }
{}

/// If each entry of a history is served only while work is left, all of them except the last cost less together than was left at first.
pub fn all_but_the_last_cost_less()
    ensures { (left : ℕ) (s : CacheState) (es : List ServedRequest) (last : ServedRequest) → IsWithin left s (es ++ last ∷ []) → work_in s es < left }
{}
