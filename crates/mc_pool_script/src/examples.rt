//! Worked examples, computed from the definitions alone.
#![tactic(auto, unfolding(mc_script::specs::Lines::cut_at_space, mc_script::specs::Escapes::hex_value, mc_script::specs::Escapes::letter_value, mc_script::specs::Escapes::text_from, crate::specs::Commands::client_command, crate::specs::Commands::way_command, crate::specs::Commands::link_command, crate::specs::PoolLines::bytes_line, crate::specs::PoolLines::takes_line, crate::specs::PoolLines::cut_at_colon, crate::specs::PoolLines::link_of, crate::specs::PoolLines::to_server_line, crate::specs::PoolLines::serve_line, crate::specs::PoolLines::end_line, crate::specs::PoolLines::join_line, crate::specs::PoolLines::line_of, crate::specs::PoolScripts::last_limits_of, crate::specs::PoolScripts::limits_of, crate::specs::PoolScripts::point_of, crate::specs::PoolScripts::read_more))]

ghost use Rattle.std.specs.Prelude.{◌≡◌, ◌^◌, ◌-◌, [], ◌∷◌, None, Some, option_and_then, codes};
ghost use Rattle.std.specs.Option.{option_map};
ghost use Rattle.mc_pool_script.specs.PoolLines.{line_of};
ghost use Rattle.mc_pool_script.specs.PoolScripts.{followed, limits_of, losses_named, losses_of, opening_script, point_of, read_more};
ghost use Rattle.mc_pool_script.specs.declared.lines.PoolLine.TheVariants.{Drain, Event, Join, Learn, ProxyRestart, Restart};
ghost use Rattle.mc_world.specs.declared.events.Event.TheVariants.{ClientBytes, ClientTakes, ReplyTurn, ServerSeesEnd, ServerTurn, ToServer};
ghost use Rattle.mc_ring.specs.Points.{pair_at};
ghost use Rattle.mc_route.specs.declared.losses.Losses.TheVariants.{Missed, Told};

/// Lines of clients, with two clients: the text of `bytes` is the rest of the line, and a client that does not exist makes a line
/// bad.
pub fn lines_of_clients()
    ensures bytes { line_of 2 [] [] (codes "bytes 0 a b\\n") ≡ Some (Event (ClientBytes 0 (codes "a b\n"))) }
    ensures takes { line_of 2 [] [] (codes "takes 1 5") ≡ Some (Event (ClientTakes 1 5)) }
    ensures all { line_of 2 [] [] (codes "takes 1 all") ≡ Some (Event (ClientTakes 1 (2 ^ 64 - 1))) }
    ensures absent { line_of 2 [] [] (codes "takes 2 5") ≡ None }
    ensures wordless { line_of 2 [] [] (codes "bytes 0") ≡ None }
{}

/// Lines of servers, with one server.
pub fn lines_of_servers()
    ensures arrives { line_of 1 (codes "a:1" ∷ []) (1 ∷ []) (codes "toserver 0 1 20") ≡ Some (Event (ToServer 0 0 1 20)) }
    ensures serves { line_of 1 (codes "a:1" ∷ []) (1 ∷ []) (codes "serve 0 2 100") ≡ Some (Event (ServerTurn 0 0 2 100)) }
    ensures ends { line_of 1 (codes "a:1" ∷ []) (1 ∷ []) (codes "end 0 1") ≡ Some (Event (ServerSeesEnd 0 0 1)) }
    ensures absent { line_of 1 (codes "a:1" ∷ []) (1 ∷ []) (codes "end 1 1") ≡ None }
{}

/// Lines of links, with two proxies and two servers, of which the second proxy knows one: a link that names no proxy is of the first one.
pub fn lines_of_links()
    ensures first { line_of 2 (codes "a:1" ∷ codes "a:2" ∷ []) (2 ∷ 1 ∷ []) (codes "reply 1") ≡ Some (Event (ReplyTurn 0 1)) }
    ensures named { line_of 2 (codes "a:1" ∷ codes "a:2" ∷ []) (2 ∷ 1 ∷ []) (codes "reply 0:1") ≡ Some (Event (ReplyTurn 0 1)) }
    ensures second { line_of 2 (codes "a:1" ∷ codes "a:2" ∷ []) (2 ∷ 1 ∷ []) (codes "toserver 1:0 1 20") ≡ Some (Event (ToServer 1 0 1 20)) }
    ensures unknown { line_of 2 (codes "a:1" ∷ codes "a:2" ∷ []) (2 ∷ 1 ∷ []) (codes "toserver 1:1 1 20") ≡ None }
    ensures absent { line_of 2 (codes "a:1" ∷ codes "a:2" ∷ []) (2 ∷ 1 ∷ []) (codes "reply 2:0") ≡ None }
    ensures nameless { line_of 2 (codes "a:1" ∷ codes "a:2" ∷ []) (2 ∷ 1 ∷ []) (codes "reply :0") ≡ None }
{}

/// A server joins under an address that no other has.
pub fn lines_of_joins()
    ensures joins { line_of 1 (codes "a:1" ∷ []) (1 ∷ []) (codes "join a:2") ≡ Some (Join 0 (codes "a:2")) }
    ensures there { line_of 1 (codes "a:1" ∷ []) (1 ∷ []) (codes "join a:1") ≡ None }
    ensures portless { line_of 1 (codes "a:1" ∷ []) (1 ∷ []) (codes "join a") ≡ None }
{}

/// A server joins at a proxy: a new one if the proxy knows all others. Else the proxy learns the next, by its address.
pub fn lines_of_joins_at_proxies()
    ensures joins { line_of 2 (codes "a:1" ∷ []) (1 ∷ 1 ∷ []) (codes "join 1 a:2") ≡ Some (Join 1 (codes "a:2")) }
    ensures learns { line_of 2 (codes "a:1" ∷ codes "a:2" ∷ []) (2 ∷ 1 ∷ []) (codes "join 1 a:2") ≡ Some (Learn 1 (codes "a:2")) }
    ensures another { line_of 2 (codes "a:1" ∷ codes "a:2" ∷ []) (2 ∷ 1 ∷ []) (codes "join 1 a:3") ≡ None }
    ensures known { line_of 2 (codes "a:1" ∷ codes "a:2" ∷ []) (2 ∷ 2 ∷ []) (codes "join 1 a:2") ≡ None }
    ensures absent { line_of 2 (codes "a:1" ∷ []) (1 ∷ 1 ∷ []) (codes "join 2 a:2") ≡ None }
{}

/// A server that exists restarts, also one that joined.
pub fn lines_of_restarts()
    ensures restarts { line_of 1 (codes "a:1" ∷ codes "a:2" ∷ []) (1 ∷ 2 ∷ []) (codes "restart 1") ≡ Some (Restart 1) }
    ensures absent { line_of 1 (codes "a:1" ∷ []) (1 ∷ []) (codes "restart 1") ≡ None }
    ensures proxy { line_of 2 (codes "a:1" ∷ []) (1 ∷ 1 ∷ []) (codes "proxyrestart 1") ≡ Some (ProxyRestart 1) }
    ensures absent_proxy { line_of 1 (codes "a:1" ∷ []) (1 ∷ []) (codes "proxyrestart 1") ≡ None }
{}

/// A drain has a moment below 2^63, in 20 digits at most, and no more words.
pub fn lines_of_drains()
    ensures drains { line_of 1 [] [] (codes "drain 100") ≡ Some (Drain 100) }
    ensures zeros { line_of 1 [] [] (codes "drain 00000000000000000100") ≡ Some (Drain 100) }
    ensures last { line_of 1 [] [] (codes "drain 9223372036854775807") ≡ Some (Drain (2 ^ 63 - 1)) }
    ensures late { line_of 1 [] [] (codes "drain 9223372036854775808") ≡ None }
    ensures momentless { line_of 1 [] [] (codes "drain") ≡ None }
    ensures wordy { line_of 1 [] [] (codes "drain 1 2") ≡ None }
{}

/// The limits of a first line: one proxy if it does not say how many. There are at most 64, and all have at most 1,024 clients.
pub fn limits_of_heads()
    ensures one { limits_of (codes "pool 2 1 100 10") ≡ Some (2, 1, 100, 10, 1) }
    ensures two { limits_of (codes "pool 2 1 100 10 2") ≡ Some (2, 1, 100, 10, 2) }
    ensures most { limits_of (codes "pool 2 16 100 10 64") ≡ Some (2, 16, 100, 10, 64) }
    ensures too_many { limits_of (codes "pool 2 1 100 10 65") ≡ None }
    ensures nobody { limits_of (codes "pool 2 1 100 10 0") ≡ None }
    ensures crowd { limits_of (codes "pool 2 17 100 10 64") ≡ None }
    ensures wordless { limits_of (codes "pool 2 1 100 10 ") ≡ None }
    ensures wordy { limits_of (codes "pool 2 1 100 10 2 1") ≡ None }
{}

/// Points have eight digits, small or capital, and belong to a server that exists.
pub fn points_of_servers()
    ensures point { point_of 2 (codes "b975C10c 1") ≡ Some (pair_at 1 3111502092) }
    ensures short { point_of 2 (codes "b975c10 1") ≡ None }
    ensures absent { point_of 2 (codes "b975c10c 2") ≡ None }
{}

/// A choice for lost commands is one of two words. A line names it at most once, before all events; if none does, it is `told`.
pub fn losses_of_scripts()
    ensures told { losses_named (codes "told") ≡ Some Told }
    ensures missed { losses_named (codes "missed") ≡ Some Missed }
    ensures unknown { losses_named (codes "Missed") ≡ None }
    ensures unnamed { losses_of (opening_script (1, 1, 1, 1, 1)) ≡ Told }
    ensures named { option_map losses_of (read_more (opening_script (1, 1, 1, 1, 1)) (codes "losses missed")) ≡ Some Missed }
    ensures twice { option_and_then (λ seen. read_more seen (codes "losses missed")) (read_more (opening_script (1, 1, 1, 1, 1)) (codes "losses missed")) ≡ None }
    ensures late { read_more (followed (opening_script (1, 1, 1, 1, 1)) (Drain 1)) (codes "losses missed") ≡ None }
{}
