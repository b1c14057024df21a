//! A worked example of a text, computed from the definitions alone.
#![tactic(auto, unfolding(mc_text::specs::Words::words, mc_text::specs::Lines::line_end, mc_text::specs::Lines::first_line, mc_request::specs::Names::name_of, mc_request::specs::Requests::next_request, mc_request::specs::Requests::requests_within, mc_request::specs::Requests::requests_of))]

ghost use Rattle.std.specs.Prelude.{◌≡◌, pos, Some, None, codes};
ghost use Rattle.mc_route.specs.Routes.{to_place};
ghost use Rattle.mc_proxy.specs.Sending.{tag_of};
ghost use Rattle.mc_cache_laws.specs.Examples.{flush_of};
ghost use Rattle.mc_pool_laws.specs.Executions.{sent_at};
ghost use Rattle.mc_pool_laws.specs.MergeExamples.{two_in_ring};

/// A `flush_all` has a command for each of two servers, and no third. A client that sent one request has no second.
pub fn commands_are_looked_up_in_texts()
    ensures found { sent_at two_in_ring (λ _. codes "flush_all\r\n") (tag_of 8 0 1) ≡ Some (to_place 1 (flush_of (pos 0))) }
    ensures no_third { sent_at two_in_ring (λ _. codes "flush_all\r\n") (tag_of 8 0 2) ≡ None }
    ensures no_second { sent_at two_in_ring (λ _. codes "flush_all\r\n") (tag_of 8 1 0) ≡ None }
{}
