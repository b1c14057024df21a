//! Laws of what an answer shows by the choice for lost commands. The functions do nothing: their contracts are the laws.
//!
//! Each emitted answer is an `IsAnswerTo` ([`answers_are_those_of_the_histories`](crate::answers_are_those_of_the_histories)).
ghost use Rattle.std.specs.Prelude.{ℕ, ℤ, ◌≡◌, ◌≢◌, ◌==◌, ◌⊎◌, Bool, false, List, [], ◌∷◌, ◌++◌, codes, Option, if◌then◌else◌};
ghost use Rattle.mc_request.specs.declared.meta.MetaCommand.TheVariants as metas;
ghost use Rattle.mc_request.specs.declared.meta.MetaForm.{MetaForm};
ghost use Rattle.mc_request.specs.declared.meta.MetaGet.{MetaGet};
ghost use Rattle.mc_request.specs.declared.parts.Request.{Request};
ghost use Rattle.mc_request.specs.declared.parts.Request.TheVariants.{Get, Meta};
ghost use Rattle.mc_request.specs.declared.parts.Parsed.TheVariants.{Whole};
ghost use Rattle.mc_reply.specs.MetaSpelling.{meta_spelling};
ghost use Rattle.mc_reply.specs.Spelling.{answer_of, end_line};
ghost use Rattle.mc_reply.specs.declared.replies.Reply.{Reply};
ghost use Rattle.mc_ring.specs.Rings.{RingState};
ghost use Rattle.mc_route.specs.Joins.{lost_line};
ghost use Rattle.mc_route.specs.Losses.{is_retrieval};
ghost use Rattle.mc_route.specs.Routes.{owner_in, route_of_taken};
ghost use Rattle.mc_route.specs.declared.losses.Losses.TheVariants.{Missed, Told};
ghost use Rattle.mc_proxy.specs.Sending.{tag_of};
ghost use Rattle.mc_cache.specs.CacheState.{opening_cache};
ghost use Rattle.mc_history.specs.Histories.{HasReply};
ghost use Rattle.mc_history.specs.declared.entries.Entry.{Entry};
ghost use Rattle.mc_world.specs.Accounts.{Account, WasNeverSentOrLost};
ghost use Rattle.mc_world.specs.Homes.{Homes};
ghost use Rattle.mc_world.specs.Logs.{Log};
ghost use Rattle.mc_pool_laws.specs.Choices.{HaveReplies, ShowReplies};
ghost use Rattle.mc_pool_laws.specs.Outcomes.{IsAnswerTo};

/// A value that is shown was a server's reply, as that server's history has it. This holds of each item of a `get`, whatever was lost; with
/// `Told` it shows no item if a command was lost. With `Missed` an `mg` shows its server's reply, or, if it was lost, that there is no item.
pub fn shown_values_are_replies()
    ensures missed { (home : Homes) (ring : RingState) (texts : ℕ → List ℕ) (histories : ℕ → List Entry) (log : Log) (client request : ℕ) (answer : List ℕ)
        → (h : IsAnswerTo home Missed ring texts histories log client request answer)
        → (keys : List (List ℕ)) (exptime : Option ℤ) (with_cas : Bool) → h.what ≡ Whole (Get keys exptime with_cas)
        → (shown : List ℕ) × (answer ≡ shown ++ end_line) × ShowReplies histories client request 0 (route_of_taken h.ring h.what) keys shown }
    ensures told { (home : Homes) (ring : RingState) (texts : ℕ → List ℕ) (histories : ℕ → List Entry) (log : Log) (client request : ℕ) (answer : List ℕ)
        → (h : IsAnswerTo home Told ring texts histories log client request answer)
        → (keys : List (List ℕ)) (exptime : Option ℤ) (with_cas : Bool) → h.what ≡ Whole (Get keys exptime with_cas) → answer ≢ lost_line
        → (shown : List ℕ) × (answer ≡ shown ++ end_line) × ShowReplies histories client request 0 (route_of_taken h.ring h.what) keys shown }
    ensures meta_missed { (home : Homes) (ring : RingState) (texts : ℕ → List ℕ) (histories : ℕ → List Entry) (log : Log) (client request : ℕ) (answer : List ℕ)
        → (h : IsAnswerTo home Missed ring texts histories log client request answer)
        → (key : List ℕ) (get : MetaGet) (form : MetaForm (List (List ℕ))) → h.what ≡ Whole (Meta (metas.Get key get) form)
        → ((reply : Reply (List ℕ)) × (answer ≡ answer_of (Meta (metas.Get key get) form) (reply ∷ []))
        × HasReply (histories (owner_in h.ring key)) (tag_of client request 0) (meta_spelling reply))
        ⊎ ((answer ≡ (if form.quiet then [] else codes "EN\r\n"))
        × WasNeverSentOrLost home (owner_in h.ring key) (tag_of client request 0) (histories (owner_in h.ring key)) log) }
{}

/// Nothing is reported as done that has no entry. The answer to a request that is no retrieval is made of the replies of its servers, as their
/// histories have them, one to each of its commands; or it is the line of a lost link. With `Missed` it may also be empty.
pub fn done_is_executed()
    ensures told { (home : Homes) (ring : RingState) (texts : ℕ → List ℕ) (histories : ℕ → List Entry) (log : Log) (client request : ℕ) (answer : List ℕ)
        → (h : IsAnswerTo home Told ring texts histories log client request answer) → (what : Request) → h.what ≡ Whole what → answer ≢ lost_line
        → (replies : List (Reply (List ℕ))) × (answer ≡ answer_of what replies) × HaveReplies histories client request 0 (route_of_taken h.ring h.what) replies }
    ensures missed { (home : Homes) (ring : RingState) (texts : ℕ → List ℕ) (histories : ℕ → List Entry) (log : Log) (client request : ℕ) (answer : List ℕ)
        → (h : IsAnswerTo home Missed ring texts histories log client request answer) → (what : Request) → h.what ≡ Whole what
        → is_retrieval what ≡ false → answer ≢ lost_line → answer ≢ []
        → (replies : List (Reply (List ℕ))) × (answer ≡ answer_of what replies) × HaveReplies histories client request 0 (route_of_taken h.ring h.what) replies }
{}

/// A miss implies nothing about its server. In this account, with `Missed`, a client stores an item and gets it, and the answer is a miss. It
/// gets the item again, and the answer is its value. The client sent nothing else, and no other client sent anything: the command of the first
/// get was lost.
pub fn a_miss_says_nothing_of_its_server()
    ensures { (ring : RingState) × (outs : ℕ → List ℕ) × (histories : ℕ → List Entry) × (log : Log)
        × Account (λ _. 0) Missed ring (opening_cache 1000 10 0) (λ client. if 0 == client then codes "set k 0 0 1\r\nv\r\nget k\r\nget k\r\n" else []) outs histories log
        × (outs 0 ≡ codes "STORED\r\nEND\r\nVALUE k 0 1\r\nv\r\nEND\r\n") }
{}
