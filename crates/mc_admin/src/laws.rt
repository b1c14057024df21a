//! Laws of requests, and examples.
ghost use Rattle.std.specs.Prelude.{◌≡◌, ℕ, ◌++◌, List, [], codes};
ghost use Rattle.mc_admin.specs.Requests.{InboxState, fresh_inbox, taking, continued};
ghost use Rattle.mc_admin.specs.declared.inboxes.Phase.TheVariants.{Line, Field, LineEnded, HeadEnded};

/// It plays no part where the bytes of a connection are cut: later ones are taken after those before.
pub fn cuts_say_nothing()
    ensures { (s : InboxState) (front more : List ℕ) → taking s (front ++ more) ≡ continued (taking s front) more }
{}

/// A line ends with its line feed, and a head with its empty line; what follows is left.
#[tactic(auto, unfolding(crate::specs::Requests::taking, crate::specs::Requests::with_byte))]
pub fn requests_end()
    ensures line { taking fresh_inbox (codes "stats\r\nquit\r\n") ≡ (record { text = codes "stats\r\n"; phase = LineEnded }, codes "quit\r\n") }
    ensures head { taking fresh_inbox (codes "GET / HTTP/1.1\r\nA: b\r\n\r\nx")
        ≡ (record { text = codes "GET / HTTP/1.1\r\nA: b\r\n\r\n"; phase = HeadEnded }, codes "x") }
    ensures line_feeds { taking fresh_inbox (codes "GET / HTTP/1.0\n\nx") ≡ (record { text = codes "GET / HTTP/1.0\n\n"; phase = HeadEnded }, codes "x") }
    ensures part_of_a_line { taking fresh_inbox (codes "stat") ≡ (record { text = codes "stat"; phase = Line }, []) }
    ensures part_of_a_head { taking fresh_inbox (codes "GET / HTTP/1.1\r\nA") ≡ (record { text = codes "GET / HTTP/1.1\r\nA"; phase = Field }, []) }
{}
