//! Laws of a run on threads. The functions do nothing: their contracts are the laws.
ghost use Rattle.std.specs.Prelude.{ℕ, ◌≡◌, ◌<◌, List, Some, slice_get};
ghost use Rattle.mc_ring.specs.Rings.{RingState};
ghost use Rattle.mc_cache.specs.CacheState.{CacheState};
ghost use Rattle.mc_account.specs.Lookups.{IsBefore};
ghost use Rattle.mc_account.specs.Orders.{Order};
ghost use Rattle.mc_history.specs.declared.entries.Entry.{Entry};
ghost use Rattle.mc_history.specs.Histories.{tag_in};
ghost use Rattle.mc_threads.specs.Accounts.{RunAccounts};

/// No command is executed twice, by two servers or at two turns of one: all histories together have at most one entry of it.
pub fn no_command_is_made_twice()
    ensures { (ring : RingState) (opening : CacheState) (order : Order) (texts outs : ℕ → List ℕ) (histories : ℕ → List Entry) (began ended : ℕ → List ℕ)
        → RunAccounts ring opening order texts outs histories began ended → (r s j k : ℕ) (d e : Entry) → slice_get (histories r) j ≡ Some d
        → slice_get (histories s) k ≡ Some e → tag_in d ≡ tag_in e → (r ≡ s) × (j ≡ k) }
{}

/// A server executes the commands of one client in the client's order: by request, and within a request by the command's
/// number.
pub fn each_clients_commands_are_in_order()
    ensures { (ring : RingState) (opening : CacheState) (order : Order) (texts outs : ℕ → List ℕ) (histories : ℕ → List Entry) (began ended : ℕ → List ℕ)
        → RunAccounts ring opening order texts outs histories began ended → (server j k : ℕ) (d e : Entry) → slice_get (histories server) j ≡ Some d
        → slice_get (histories server) k ≡ Some e → j < k → d.client ≡ e.client → IsBefore (tag_in d) (tag_in e) }
{}
