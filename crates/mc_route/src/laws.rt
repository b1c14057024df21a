//! Laws of routes and answers. The functions do nothing: their contracts are the laws.
ghost use Rattle.std.specs.Prelude.{◌≡◌, ◌≢◌, ◌<◌, ◌∷◌, ◌++◌, ℕ, ℤ, Bool, true, false, List, [], Option, length, map, codes, if◌then◌else◌, All};
ghost use Rattle.mc_request.specs.Atoms.{atoms_of};
ghost use Rattle.mc_request.specs.Hides.{hides_of};
ghost use Rattle.mc_request.specs.declared.hides.Hides.TheVariants.{Nothing};
ghost use Rattle.mc_request.specs.declared.meta.MetaCommand.TheVariants as metas;
ghost use Rattle.mc_request.specs.declared.meta.MetaForm.{MetaForm};
ghost use Rattle.mc_request.specs.declared.meta.MetaGet.{MetaGet};
ghost use Rattle.mc_request.specs.declared.parts.Atom.TheVariants.{Update as AnUpdate};
ghost use Rattle.mc_request.specs.declared.parts.Request.{Request};
ghost use Rattle.mc_request.specs.declared.parts.Request.TheVariants.{Get, Meta, Update};
ghost use Rattle.mc_request.specs.declared.parts.Update.TheVariants.{FlushAll};
ghost use Rattle.mc_reply.specs.declared.replies.Reply.{Reply};
ghost use Rattle.mc_reply.specs.declared.replies.Reply.TheVariants.{Hit, Miss};
ghost use Rattle.mc_reply.specs.Spelling.{answer_of, end_line};
ghost use Rattle.mc_ring.specs.Rings.{RingState, IsRing};
ghost use Rattle.mc_route.specs.declared.losses.Losses.{Losses};
ghost use Rattle.mc_route.specs.declared.losses.Losses.TheVariants.{Told, Missed};
ghost use Rattle.mc_route.specs.declared.outcomes.Outcome.{Outcome};
ghost use Rattle.mc_route.specs.declared.outcomes.Outcome.TheVariants as outcomes;
ghost use Rattle.mc_route.specs.Joins.{has_lost, joined_answer, lost_line, outcome_part, replies_in};
ghost use Rattle.mc_route.specs.Losses.{blocks_by, hides_any, is_retrieval, joined_with};
ghost use Rattle.mc_route.specs.Kept.{without_block};
ghost use Rattle.mc_route.specs.Rooms.{join_room};
ghost use Rattle.mc_route.specs.Routes.{is_flush, route_of, to_place};

/// Each command goes to a server of the ring.
pub fn routes_stay_inside()
    ensures { (ring : RingState) (request : Request) → IsRing ring
        → All (λ routed. routed.server < length ring.servers) (route_of ring request) }
{}

/// With one server, the commands are those of the request, each for that server.
pub fn one_server_answers_alike()
    ensures { (ring : RingState) (request : Request) → IsRing ring → length ring.servers ≡ 1
        → route_of ring request ≡ map (to_place 0) (atoms_of request) }
{}

/// However many servers there are, the commands are those that one server would get, in their order. A flush alone is one
/// command for each server.
pub fn commands_are_those_of_one_server()
    ensures commands { (ring : RingState) (request : Request) → is_flush request ≡ false
        → map (λ routed. routed.atom) (route_of ring request) ≡ atoms_of request }
    ensures flush { (ring : RingState) (delay : ℤ) (noreply : Bool)
        → map (λ routed. routed.atom) (route_of ring (Update (FlushAll delay) noreply)) ≡ map (λ server. AnUpdate (FlushAll delay)) ring.servers }
{}

/// If each reply has arrived, the answer is what one server would give; if a command was lost, it is the line of a lost link alone.
pub fn answers_are_those_of_one_server()
    ensures came { (request : Request) (replies : List (Reply (List ℕ)))
        → joined_answer request (map (λ reply. outcomes.Reply reply) replies) ≡ answer_of request replies }
    ensures lost { (request : Request) (front back : List Outcome)
        → joined_answer request (front ++ outcomes.Lost ∷ back) ≡ lost_line }
{}

/// A data block plays no part in an answer, nor in its room.
pub fn blocks_play_no_part()
    ensures answer { (request : Request) (outcomes : List Outcome) → joined_answer (without_block request) outcomes ≡ joined_answer request outcomes }
    ensures with_losses { (losses : Losses) (request : Request) (outcomes : List Outcome) → joined_with losses (without_block request) outcomes ≡ joined_with losses request outcomes }
    ensures room { (request : Request) (outcomes : List Outcome) → join_room (without_block request) outcomes ≡ join_room request outcomes }
{}

/// With [`Losses::Told`] the answer is that of [`join`](crate::join). If no command was lost, the choice plays no part.
pub fn choices_differ_in_losses_alone()
    ensures told { (request : Request) (outcomes : List Outcome) → joined_with Told request outcomes ≡ joined_answer request outcomes }
    ensures unlost { (losses : Losses) (request : Request) (outcomes : List Outcome) → has_lost outcomes ≡ false
        → joined_with losses request outcomes ≡ answer_of request (replies_in outcomes) }
{}

/// With [`Losses::Missed`] each value that a retrieval shows is one that a server replied under the requested key.
///
/// A `get` shows the items of its keys in their order, and shows an item only of a hit. An `mg` shows what its reply shows; if it was lost, its
/// answer is `EN`, or nothing if it is quiet.
pub fn shown_values_are_replies()
    ensures items { (keys : List (List ℕ)) (exptime : Option ℤ) (with_cas : Bool) (outcomes : List Outcome)
        → joined_with Missed (Get keys exptime with_cas) outcomes ≡ blocks_by keys outcomes ++ end_line }
    ensures hits { (key : List ℕ) (outcome : Outcome) → outcome_part key outcome ≢ []
        → (flags : ℕ) × (cas : Option ℕ) × (value : List ℕ) × (outcome ≡ outcomes.Reply (Hit flags cas value)) }
    ensures meta { (key : List ℕ) (get : MetaGet) (form : MetaForm (List (List ℕ))) (reply : Reply (List ℕ)) (others : List Outcome)
        → joined_with Missed (Meta (metas.Get key get) form) (outcomes.Reply reply ∷ others)
        ≡ answer_of (Meta (metas.Get key get) form) (reply ∷ []) }
    ensures meta_lost { (key : List ℕ) (get : MetaGet) (form : MetaForm (List (List ℕ))) (others : List Outcome)
        → joined_with Missed (Meta (metas.Get key get) form) (outcomes.Lost ∷ others) ≡ (if form.quiet then [] else codes "EN\r\n") }
{}

/// With [`Losses::Missed`] a retrieval's answer does not say which keys were lost: the answer is the same if the server replied that it has no
/// item.
pub fn losses_look_like_misses()
    ensures { (request : Request) (front back : List Outcome) → is_retrieval request ≡ true
        → joined_with Missed request (front ++ outcomes.Lost ∷ back) ≡ joined_with Missed request (front ++ outcomes.Reply Miss ∷ back) }
{}

/// Neither choice confirms a request that is no retrieval, such as a store, a deletion, a count or a flush, if a command of it was lost. The
/// request gets the line of a lost link; with [`Losses::Missed`] it gets nothing if it hides any of its replies.
pub fn lost_requests_are_not_confirmed()
    ensures line { (losses : Losses) (request : Request) (outcomes : List Outcome)
        → is_retrieval request ≡ false → hides_of request ≡ Nothing → has_lost outcomes ≡ true
        → joined_with losses request outcomes ≡ lost_line }
    ensures hidden { (request : Request) (outcomes : List Outcome)
        → is_retrieval request ≡ false → hides_any (hides_of request) ≡ true → has_lost outcomes ≡ true
        → joined_with Missed request outcomes ≡ [] }
{}
