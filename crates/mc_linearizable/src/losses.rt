//! What a client knows of a command that is lost. The functions do nothing: their contracts are the laws.
ghost use Rattle.std.specs.Prelude.{ℕ, ◌≡◌, ◌==◌, ◌⊎◌, List, [], codes, if◌then◌else◌};
ghost use Rattle.mc_ring.specs.Rings.{IsRing, RingState};
ghost use Rattle.mc_route.specs.declared.losses.Losses.{Losses};
ghost use Rattle.mc_route.specs.declared.losses.Losses.TheVariants.{Told};
ghost use Rattle.mc_route.specs.declared.routes.Routed.{Routed};
ghost use Rattle.mc_link.specs.declared.turns.Tag.{Tag};
ghost use Rattle.mc_proxy.specs.Sending.{tag_of};
ghost use Rattle.mc_cache.specs.CacheState.{CacheState, opening_cache};
ghost use Rattle.mc_account.specs.Orders.{Order};
ghost use Rattle.mc_history.specs.declared.entries.Entry.{Entry};
ghost use Rattle.mc_history.specs.Histories.{HasNone, tag_in};
ghost use Rattle.mc_world.specs.Accounts.{Account, Accounts, up_when_taken};
ghost use Rattle.mc_world.specs.Homes.{Homes};
ghost use Rattle.mc_world.specs.Logs.{Log};
ghost use Rattle.mc_pool_laws.specs.Sent.{IsSent};
ghost use Rattle.mc_pool_laws.specs.Outcomes.{HasOneEntry};
ghost use Rattle.mc_linearizable.specs.Linearizable.{ComesFirst, Executed, IsEarlier};

/// A command that a client sent happens once, at the server that owns its key, or not at all, whatever the client's answer. This holds for a lost
/// command too, with either choice for lost commands. In the account `lost_commands_may_come_late` it happens, and in
/// `lost_commands_may_never_happen` it does not.
pub fn lost_commands_happen_at_most_once()
    ensures { (home : Homes) (losses : Losses) (ring : RingState) (opening : CacheState) (texts outs : ℕ → List ℕ) (histories : ℕ → List Entry) (log : Log)
        → Account home losses ring opening texts outs histories log → (tag : Tag) (command : Routed) → IsSent home ring texts log tag command
        → ((place : ℕ) → HasNone (histories place) tag) ⊎ HasOneEntry histories command.server tag }
{}

/// An account in which a client sets `a`, and is answered that the link was lost; sets `b`, and is answered STORED; and gets `a`. The lost command
/// was executed late, on its lost generation. So the first command was answered before the second was taken, and is not first in the key's order.
pub fn lost_commands_may_come_late()
    ensures { (ring : RingState) × (order : Order) × (outs : ℕ → List ℕ) × (histories : ℕ → List Entry) × (log : Log) × IsRing ring
        × Accounts (λ _. 0) Told ring (opening_cache 1000 10 0) order
        (λ client. if 0 == client then codes "set k 0 0 1\r\na\r\nset k 0 0 1\r\nb\r\nget k\r\n" else []) outs histories log
        × (outs 0 ≡ codes "SERVER_ERROR link lost\r\nSTORED\r\nVALUE k 0 1\r\na\r\nEND\r\n")
        × (a : Executed order histories (codes "k")) × (b : Executed order histories (codes "k"))
        × IsEarlier (tag_in a.entry) (tag_in b.entry) log × (ComesFirst a b → ⊥) }
{}

/// An account in which a client sets `a`, and is answered that the link was lost, which was up when the command was taken. No server executed the
/// command.
pub fn lost_commands_may_never_happen()
    ensures { (ring : RingState) × (order : Order) × (outs : ℕ → List ℕ) × (histories : ℕ → List Entry) × (log : Log) × IsRing ring
        × Accounts (λ _. 0) Told ring (opening_cache 1000 10 0) order (λ client. if 0 == client then codes "set k 0 0 1\r\na\r\n" else []) outs histories log
        × (outs 0 ≡ codes "SERVER_ERROR link lost\r\n") × up_when_taken 0 0 (tag_of 0 0 0) log × ((place : ℕ) → HasNone (histories place) (tag_of 0 0 0)) }
{}
