//! Worked examples of the statement.
ghost use Rattle.std.specs.Prelude.{ℕ, ◌≡◌, ◌<◌, ◌==◌, List, [], ◌∷◌, None, codes, map, if◌then◌else◌};
ghost use Rattle.mc_reply.specs.declared.replies.Reply.TheVariants.{Hit};
ghost use Rattle.mc_ring.specs.Rings.{IsRing, RingState};
ghost use Rattle.mc_route.specs.declared.losses.Losses.TheVariants.{Told};
ghost use Rattle.mc_cache.specs.CacheState.{opening_cache};
ghost use Rattle.mc_account.specs.Orders.{Order};
ghost use Rattle.mc_history.specs.Histories.{tag_in};
ghost use Rattle.mc_history.specs.declared.entries.Entry.{Entry};
ghost use Rattle.mc_world.specs.Accounts.{Accounts};
ghost use Rattle.mc_world.specs.Logs.{Log, number_of, restarts};
ghost use Rattle.mc_linearizable.specs.Clients.{IsGet, StoresWhole, WasAnsweredBy, WasDone};
ghost use Rattle.mc_linearizable.specs.Linearizable.{Executed, IsEarlier, IsLinearizablePool};

/// One key, two servers and a restart. A client sets `a`, and gets it. Its server restarts, and the client misses the key. Another server joins, and
/// owns the key from then on: there the client sets `b`, and compares and stores `c`. The account is linearizable.
pub fn a_restart_and_a_join_are_linearizable()
    ensures { (ring : RingState) × (order : Order) × (outs : ℕ → List ℕ) × (histories : ℕ → List Entry) × (log : Log) × IsRing ring
        × Accounts (λ _. 0) Told ring (opening_cache 1000 10 0) order
        (λ client. if 0 == client then codes "set k 0 0 1\r\na\r\ngets k\r\nget k\r\nset k 0 0 1\r\nb\r\ncas k 0 0 1 1\r\nc\r\n" else []) outs histories log
        × IsLinearizablePool (λ _. 0) Told 0 order
        (λ client. if 0 == client then codes "set k 0 0 1\r\na\r\ngets k\r\nget k\r\nset k 0 0 1\r\nb\r\ncas k 0 0 1 1\r\nc\r\n" else []) outs histories log
        × (outs 0 ≡ codes "STORED\r\nVALUE k 0 1 1\r\na\r\nEND\r\nEND\r\nSTORED\r\nSTORED\r\n") × (number_of (restarts 0) log ≡ 1)
        × (map (λ (e : Entry). e.reply) (histories 0) ≡ codes "STORED\r\n" ∷ codes "VALUE k 0 1 1\r\na\r\nEND\r\n" ∷ codes "END\r\n" ∷ [])
        × (map (λ (e : Entry). e.reply) (histories 1) ≡ codes "STORED\r\n" ∷ codes "STORED\r\n" ∷ []) }
{}

/// Two proxies whose rings differ for a while: client 0 has the first, and client 1 the second. Client 0 sets `a`. A server joins at the first proxy
/// alone, and owns the key there from then on. Client 0 sets `b` there, and the answer says so. Then client 1 gets the key by the second proxy, at the
/// old server, and is shown `a`. The account is linearizable as far as that goes: this get is of a lower place than the set before it in real time.
pub fn two_rings_show_older_values()
    ensures { (ring : RingState) × (order : Order) × (outs : ℕ → List ℕ) × (histories : ℕ → List Entry) × (log : Log) × IsRing ring
        × Accounts (λ client. client) Told ring (opening_cache 1000 10 0) order
        (λ client. if 0 == client then codes "set k 0 0 1\r\na\r\nset k 0 0 1\r\nb\r\n" else if 1 == client then codes "get k\r\n" else []) outs histories log
        × IsLinearizablePool (λ client. client) Told 0 order
        (λ client. if 0 == client then codes "set k 0 0 1\r\na\r\nset k 0 0 1\r\nb\r\n" else if 1 == client then codes "get k\r\n" else []) outs histories log
        × (outs 0 ≡ codes "STORED\r\nSTORED\r\n") × (outs 1 ≡ codes "VALUE k 0 1\r\na\r\nEND\r\n")
        × (older : Executed order histories (codes "k")) × StoresWhole older.atom 0 (codes "a") × WasDone order log (tag_in older.entry)
        × (write : Executed order histories (codes "k")) × (read : Executed order histories (codes "k")) × StoresWhole write.atom 0 (codes "b")
        × WasDone order log (tag_in write.entry) × IsEarlier (tag_in older.entry) (tag_in write.entry) log × IsGet read.atom
        × WasAnsweredBy order log (tag_in read.entry) (Hit 0 None (codes "a")) × IsEarlier (tag_in write.entry) (tag_in read.entry) log × (read.place < write.place) }
{}
