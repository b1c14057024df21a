//! Worked examples, computed from the definitions alone.
ghost use Rattle.std.specs.Prelude.{◌≡◌, pos, [], ◌∷◌, None, codes, map};
ghost use Rattle.mc_reply.specs.declared.replies.Reply.TheVariants.{Hit, Stored};
ghost use Rattle.mc_cache.specs.CacheState.{opening_cache};
ghost use Rattle.mc_cache_laws.specs.Examples.{flush_of, set_of};
ghost use Rattle.mc_cache_laws.specs.Pools.{empty_map, map_replies};
ghost use Rattle.mc_account.specs.Lookups.{command_at};
ghost use Rattle.mc_history.specs.declared.entries.Entry.{Entry};
ghost use Rattle.mc_pool_laws.specs.Executions.{commands_of, executed, reply_texts, turns_of};
ghost use Rattle.mc_pool_laws.specs.MergeExamples.{executed_at, one_history, set_and_flush, set_and_get, three_turns, two_histories, two_turns};
ghost use Rattle.mc_pool_laws.specs.OneMaps.{IsPlainRun};

/// At each turn of the log its server executes the command of the next entry in its history.
pub fn commands_are_merged_by_turns()
    ensures turns { turns_of three_turns ≡ (0 ∷ 1 ∷ 0 ∷ []) }
    ensures executed { executed (command_at set_and_flush) two_histories three_turns
        ≡ (executed_at 0 5 (flush_of (pos 0)) ∷ executed_at 1 6 (flush_of (pos 0)) ∷ executed_at 0 9 (set_of (codes "k") (codes "v")) ∷ []) }
{}

/// A run of a set and a get is plain: the map answers that the item is stored, and then a hit. The history of the server has both
/// replies, encoded one by one.
pub fn a_set_and_a_get_are_plain()
    ensures plain { IsPlainRun (opening_cache 1000 2 0) (command_at set_and_get) one_history two_turns }
    ensures answered { map_replies empty_map (executed (command_at set_and_get) one_history two_turns) ≡ (Stored ∷ Hit 0 None (codes "v") ∷ []) }
    ensures told { reply_texts (commands_of (command_at set_and_get) (one_history 0)) (Stored ∷ Hit 0 None (codes "v") ∷ [])
        ≡ map (λ (e : Entry). e.reply) (one_history 0) }
{}
