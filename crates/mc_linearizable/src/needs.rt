//! Why the laws have their premises: accounts in which one premise fails, and so does what the law promises.
ghost use Rattle.std.specs.Prelude.{ℕ, ◌≡◌, ◌==◌, List, [], None, Some, codes, if◌then◌else◌};
ghost use Rattle.mc_reply.specs.declared.replies.Reply.TheVariants.{Hit};
ghost use Rattle.mc_ring.specs.Rings.{IsRing, RingState};
ghost use Rattle.mc_route.specs.declared.losses.Losses.TheVariants.{Told};
ghost use Rattle.mc_cache.specs.CacheState.{opening_cache};
ghost use Rattle.mc_account.specs.Lookups.{IsBefore};
ghost use Rattle.mc_account.specs.Orders.{Order};
ghost use Rattle.mc_history.specs.Histories.{tag_in};
ghost use Rattle.mc_history.specs.declared.entries.Entry.{Entry};
ghost use Rattle.mc_world.specs.Accounts.{Accounts};
ghost use Rattle.mc_world.specs.Logs.{Log};
ghost use Rattle.mc_linearizable.specs.Clients.{Compares, ComesBetween, HasWritten, IsGet, IsInLife, ShowsValue, StoresWhole, WasAnsweredBy, WasDone};
ghost use Rattle.mc_linearizable.specs.Linearizable.{ComesFirst, Executed, IsEarlier, WasReplied};

/// An account in which a client sets `a`, gets it, and sets `b`. The get was taken before the second set was answered. It does not show `b`, and no
/// command is between the two: the get is first.
pub fn early_gets_show_older_values()
    ensures { (ring : RingState) × (order : Order) × (outs : ℕ → List ℕ) × (histories : ℕ → List Entry) × (log : Log) × IsRing ring
        × Accounts (λ _. 0) Told ring (opening_cache 1000 10 0) order
        (λ client. if 0 == client then codes "set k 0 0 1\r\na\r\nget k\r\nset k 0 0 1\r\nb\r\n" else []) outs histories log
        × (outs 0 ≡ codes "STORED\r\nVALUE k 0 1\r\na\r\nEND\r\nSTORED\r\n")
        × (write : Executed order histories (codes "k")) × (read : Executed order histories (codes "k")) × StoresWhole write.atom 0 (codes "b")
        × WasDone order log (tag_in write.entry) × IsGet read.atom × WasAnsweredBy order log (tag_in read.entry) (Hit 0 None (codes "a"))
        × (ShowsValue read.atom (Hit 0 None (codes "a")) 0 (codes "b") → ⊥) × ((other : Executed order histories (codes "k")) → ComesBetween write other read → ⊥) }
{}

/// An account in which a number fits an item of another server. A client is shown a number by `gets`. A server joins, and owns the key from then on.
/// The client sets the key there, under the same number, and a `cas` with it stores. So the set between the two is lost.
pub fn numbers_fit_another_server()
    ensures { (ring : RingState) × (order : Order) × (outs : ℕ → List ℕ) × (histories : ℕ → List Entry) × (log : Log) × IsRing ring
        × Accounts (λ _. 0) Told ring (opening_cache 1000 10 0) order
        (λ client. if 0 == client then codes "set k 0 0 1\r\na\r\ngets k\r\nget k\r\nset k 0 0 1\r\nb\r\ncas k 0 0 1 1\r\nc\r\n" else []) outs histories log
        × (read : Executed order histories (codes "k")) × (cas : Executed order histories (codes "k")) × (other : Executed order histories (codes "k"))
        × IsGet read.atom × WasAnsweredBy order log (tag_in read.entry) (Hit 0 (Some 1) (codes "a")) × Compares cas.atom 1 × WasDone order log (tag_in cas.entry)
        × IsEarlier (tag_in read.entry) (tag_in cas.entry) log × IsInLife 0 log read × IsInLife 0 log cas × (read.place ≡ cas.place → ⊥) × ComesBetween read other cas × HasWritten other }
{}

/// An account in which a client sets `a` and `b`, and does not wait for the first answer. The second command was lost, and is first in the key's
/// order. No clause of an account forbids it.
pub fn lost_commands_may_come_early()
    ensures { (ring : RingState) × (order : Order) × (outs : ℕ → List ℕ) × (histories : ℕ → List Entry) × (log : Log) × IsRing ring
        × Accounts (λ _. 0) Told ring (opening_cache 1000 10 0) order (λ client. if 0 == client then codes "set k 0 0 1\r\na\r\nset k 0 0 1\r\nb\r\n" else []) outs histories log
        × (outs 0 ≡ codes "STORED\r\nSERVER_ERROR link lost\r\n")
        × (a : Executed order histories (codes "k")) × (b : Executed order histories (codes "k")) × (a.entry.client ≡ b.entry.client)
        × IsBefore (tag_in a.entry) (tag_in b.entry) × WasReplied order (tag_in a.entry) × (ComesFirst a b → ⊥) }
{}
