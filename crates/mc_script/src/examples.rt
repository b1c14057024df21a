//! Worked examples, computed from the definitions alone.
#![tactic(auto, unfolding(mc_text::specs::Words::words, mc_text::specs::Lines::line_end, mc_text::specs::Lines::first_line, mc_request::specs::Names::name_of, mc_request::specs::Requests::next_request, mc_request::specs::Requests::requests_within, mc_request::specs::Requests::requests_of))]

ghost use Rattle.std.specs.Prelude.{◌≡◌, [], ◌∷◌, codes};
ghost use Rattle.mc_script.specs.Answers.{text_fed, turns_served};
ghost use Rattle.mc_script.specs.declared.events.ServerEvent.TheVariants.{Bytes, Turn};

/// A connection's text is the bytes that the events feed to it, joined; the others' bytes and all turns are ignored.
pub fn texts_by_connection()
    ensures first { text_fed 0 (Bytes 0 (codes "ab") ∷ Bytes 1 (codes "x") ∷ Turn 0 9 ∷ Bytes 0 (codes "c") ∷ [])
        ≡ codes "abc" }
    ensures second { text_fed 1 (Bytes 0 (codes "ab") ∷ Bytes 1 (codes "x") ∷ Turn 0 9 ∷ Bytes 0 (codes "c") ∷ [])
        ≡ codes "x" }
{}

/// A turn is served if its connection's text has one more request or fault than were taken of it. It is not served
/// before that has arrived whole, not twice, and not for bytes of another connection.
pub fn turns_that_find_one()
    ensures early { turns_served [] [] (Bytes 0 (codes "x") ∷ Turn 0 1 ∷ Bytes 0 (codes "\n") ∷ Turn 0 2 ∷ []) ≡ (0, 2) ∷ [] }
    ensures once { turns_served [] [] (Bytes 0 (codes "x\n") ∷ Turn 0 1 ∷ Turn 0 2 ∷ []) ≡ (0, 1) ∷ [] }
    ensures others { turns_served [] [] (Bytes 1 (codes "x\n") ∷ Turn 0 1 ∷ Turn 1 2 ∷ []) ≡ (1, 2) ∷ [] }
{}
