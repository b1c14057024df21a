//! Worked examples of answers to meta commands, each by its line, as laws of the definitions. The key of most of them is `a`.
#![tactic(auto, unfolding(mc_text::specs::Words::words, mc_request::specs::Names::name_of, mc_text::proofs::OnLiterals::coded_on_literals))]

ghost use Rattle.std.specs.Prelude.{◌≡◌, Some, None, [], codes};
ghost use Rattle.mc_request.specs.declared.faults.Fault.TheVariants as faults;
ghost use Rattle.mc_reply.specs.declared.replies.Marks.TheVariants.{Plain, Won, WonStale, StaleSent, Sent};
ghost use Rattle.mc_reply.specs.declared.replies.Reply.TheVariants.{NotStored, Exists, NotFound, Miss, Meta, Fault};
ghost use Rattle.mc_reply.specs.Replies.{nothing_shown};
ghost use Rattle.mc_reply.specs.Examples.{answer_to, done, marked, numbered, shows_x};

/// An answer has what was asked for, in the order of the request. An opaque is returned unchanged.
pub fn flags_as_asked()
    ensures all { answer_to (codes "mg a t s f c O7 k v")
        (Meta (record { cas = Some 1; flags = Some 0; size = Some 1; left = Some (Some 10); marks = Plain }) (Some (codes "x")))
        ≡ codes "VA 1 t10 s1 f0 c1 O7 ka\r\nx\r\n" }
    ensures forever { answer_to (codes "mg a O t") (Meta (record nothing_shown { left = Some None }) None) ≡ codes "HD O t-1\r\n" }
    ensures empty { answer_to (codes "mg a v q") (Meta nothing_shown (Some [])) ≡ codes "VA 0\r\n\r\n" }
{}

/// A key is returned as it was asked for: by itself, or in base64 with a `b` after it.
pub fn keys_as_asked()
    ensures coded { answer_to (codes "mg YWJj b k") done ≡ codes "HD kYWJj b\r\n" }
    ensures plain { answer_to (codes "md a k O1") done ≡ codes "HD ka O1\r\n" }
{}

/// A miss of `mg` returns no flags. Other failures return the key and the opaque alone, and an error line is the same
/// as for any command.
pub fn what_was_not_done()
    ensures miss { answer_to (codes "mg a k O7 c") Miss ≡ codes "EN\r\n" }
    ensures not_stored { answer_to (codes "ms a 1 c O7 ME") NotStored ≡ codes "NS O7\r\n" }
    ensures exists { answer_to (codes "ms a 1 k C5 s") Exists ≡ codes "EX ka\r\n" }
    ensures not_found { answer_to (codes "ma a t v k") NotFound ≡ codes "NF ka\r\n" }
    ensures fault { answer_to (codes "ma a q k") (Fault faults.NonNumeric)
        ≡ codes "CLIENT_ERROR cannot increment or decrement non-numeric value\r\n" }
{}

/// Marks are after all that was asked for.
pub fn marks_are_last()
    ensures stale { answer_to (codes "mg a c") (numbered 5 WonStale) ≡ codes "HD c5 W X\r\n" }
    ensures created { answer_to (codes "mg b N0 q k") (marked Won) ≡ codes "HD kb W\r\n" }
    ensures stale_sent { answer_to (codes "mg a v") (shows_x StaleSent) ≡ codes "VA 1 X Z\r\nx\r\n" }
    ensures sent { answer_to (codes "mg a R30 O2") (marked Sent) ≡ codes "HD O2 Z\r\n" }
{}

/// A quiet `mg` hides a miss, a quiet `ms` hides success, and a quiet `md` or `ma` hides both. Nothing else is hidden.
pub fn quiet_answers()
    ensures miss { answer_to (codes "mg a v q") Miss ≡ [] }
    ensures hit { answer_to (codes "mg a q") done ≡ codes "HD\r\n" }
    ensures set { answer_to (codes "ms a 1 q") done ≡ [] }
    ensures set_not_found { answer_to (codes "ms a 1 q C1") NotFound ≡ codes "NF\r\n" }
    ensures deleted { answer_to (codes "md a q") done ≡ [] }
    ensures not_deleted { answer_to (codes "md a q") NotFound ≡ [] }
    ensures exists { answer_to (codes "md a q C1 k") Exists ≡ codes "EX ka\r\n" }
    ensures counted { answer_to (codes "ma a q v") (shows_x Plain) ≡ codes "VA 1\r\nx\r\n" }
{}

/// `mn` has an answer of its own.
pub fn noop()
    ensures { answer_to (codes "mn") Miss ≡ codes "MN\r\n" }
{}
