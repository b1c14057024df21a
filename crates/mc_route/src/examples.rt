//! Worked examples, computed from the definitions alone.
#![tactic(auto, unfolding(mc_text::specs::Words::words, mc_request::specs::Names::name_of))]

ghost use Rattle.std.specs.Prelude.{◌≡◌, ◌∷◌, [], None, codes};
ghost use Rattle.mc_reply.specs.declared.replies.Reply.TheVariants.{Flushed, Hit, Miss, Stored};
ghost use Rattle.mc_ring.specs.Rings.{RingState};
ghost use Rattle.mc_route.specs.Examples.{flush, get_of, joined_to, missed_to, route_to, three_servers, two_servers};
ghost use Rattle.mc_route.specs.Joins.{lost_line};
ghost use Rattle.mc_route.specs.Routes.{to_place};
ghost use Rattle.mc_route.specs.declared.outcomes.Outcome.TheVariants.{Lost, Reply};

/// Each key of a get goes to its owner, in the order of the keys.
pub fn get_over_two_servers()
    ensures { route_to two_servers (codes "get a abc") ≡ to_place 1 (get_of (codes "a")) ∷ to_place 0 (get_of (codes "abc")) ∷ [] }
{}

/// A flush goes to each server, and is answered once.
pub fn flush_over_three_servers()
    ensures route { route_to three_servers (codes "flush_all 5") ≡ to_place 0 flush ∷ to_place 1 flush ∷ to_place 2 flush ∷ [] }
    ensures answer { joined_to (codes "flush_all 5") (Reply Flushed ∷ Reply Flushed ∷ Reply Flushed ∷ []) ≡ codes "OK\r\n" }
{}

/// A request without commands is answered too.
pub fn requests_without_commands()
    ensures version_route { (ring : RingState) → route_to ring (codes "version") ≡ [] }
    ensures version_answer { joined_to (codes "version") [] ≡ codes "VERSION 1.6.0\r\n" }
    ensures noop_route { (ring : RingState) → route_to ring (codes "mn") ≡ [] }
    ensures noop_answer { joined_to (codes "mn") [] ≡ codes "MN\r\n" }
    ensures quit_route { (ring : RingState) → route_to ring (codes "quit") ≡ [] }
    ensures quit_answer { joined_to (codes "quit") [] ≡ [] }
{}

/// The items of several servers are in the order of the keys, before one end.
pub fn items_of_two_servers()
    ensures { joined_to (codes "get a b c") (Reply (Hit 1 None (codes "x")) ∷ Reply Miss ∷ Reply (Hit 2 None (codes "yz")) ∷ [])
        ≡ codes "VALUE a 1 1\r\nx\r\nVALUE c 2 2\r\nyz\r\nEND\r\n" }
{}

/// If one command was lost, the answer says only that, and once: neither what the others found, nor an end.
pub fn one_lost_of_three()
    ensures misses { joined_to (codes "get a b a") (Reply Miss ∷ Lost ∷ Reply Miss ∷ []) ≡ codes "SERVER_ERROR link lost\r\n" }
    ensures hits { joined_to (codes "get a b") (Reply (Hit 1 None (codes "x")) ∷ Lost ∷ []) ≡ codes "SERVER_ERROR link lost\r\n" }
    ensures all { joined_to (codes "flush_all 5") (Lost ∷ Lost ∷ Lost ∷ []) ≡ codes "SERVER_ERROR link lost\r\n" }
{}

/// A request that hides its answer gets the line of a lost link too.
pub fn quiet_request_that_is_lost()
    ensures quiet_miss { joined_to (codes "mg a v q") (Reply Miss ∷ []) ≡ [] }
    ensures quiet_lost { joined_to (codes "mg a v q") (Lost ∷ []) ≡ lost_line }
    ensures hidden_line { joined_to (codes "set a 0 0 1 noreply") (Reply Stored ∷ []) ≡ [] }
    ensures hidden_lost { joined_to (codes "set a 0 0 1 noreply") (Lost ∷ []) ≡ lost_line }
{}

/// If losses count as misses, a `get` over two servers, one of them dead, shows the other's items, before one end.
pub fn get_of_four_keys_with_a_dead_server()
    ensures items { missed_to (codes "get a b c d") (Reply (Hit 1 None (codes "x")) ∷ Lost ∷ Reply (Hit 2 None (codes "yz")) ∷ Lost ∷ [])
        ≡ codes "VALUE a 1 1\r\nx\r\nVALUE c 2 2\r\nyz\r\nEND\r\n" }
    ensures first_lost { missed_to (codes "get a b") (Lost ∷ Reply (Hit 1 None (codes "x")) ∷ []) ≡ codes "VALUE b 1 1\r\nx\r\nEND\r\n" }
    ensures all_lost { missed_to (codes "gets a b") (Lost ∷ Lost ∷ []) ≡ codes "END\r\n" }
    ensures touched { missed_to (codes "gat 60 a b") (Lost ∷ Reply (Hit 1 None (codes "x")) ∷ []) ≡ codes "VALUE b 1 1\r\nx\r\nEND\r\n" }
{}

/// If losses count as misses, `mg` is answered by `EN`, or by nothing if it is quiet.
pub fn meta_get_that_is_lost()
    ensures shown { missed_to (codes "mg a v") (Lost ∷ []) ≡ codes "EN\r\n" }
    ensures quiet { missed_to (codes "mg a v q") (Lost ∷ []) ≡ [] }
    ensures with_key { missed_to (codes "mg a k v O7") (Lost ∷ []) ≡ codes "EN\r\n" }
{}

/// If losses count as misses, a request that is no retrieval gets the line of a lost link, and nothing if it hides its reply.
pub fn update_that_is_lost()
    ensures stored { missed_to (codes "set a 0 0 1") (Lost ∷ []) ≡ lost_line }
    ensures hidden { missed_to (codes "set a 0 0 1 noreply") (Lost ∷ []) ≡ [] }
    ensures added { missed_to (codes "add a 0 0 1 noreply") (Lost ∷ []) ≡ [] }
    ensures deleted { missed_to (codes "delete a") (Lost ∷ []) ≡ lost_line }
    ensures counted { missed_to (codes "incr a 1") (Lost ∷ []) ≡ lost_line }
    ensures touched { missed_to (codes "touch a 60") (Lost ∷ []) ≡ lost_line }
    ensures meta_stored { missed_to (codes "ms a 1") (Lost ∷ []) ≡ lost_line }
    ensures meta_quiet { missed_to (codes "ms a 1 q") (Lost ∷ []) ≡ [] }
    ensures flushed { missed_to (codes "flush_all 5") (Reply Flushed ∷ Lost ∷ Reply Flushed ∷ []) ≡ lost_line }
    ensures flushed_hidden { missed_to (codes "flush_all 5 noreply") (Reply Flushed ∷ Lost ∷ Reply Flushed ∷ []) ≡ [] }
{}
