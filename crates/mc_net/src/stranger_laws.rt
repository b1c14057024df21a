//! Laws of openings, and examples. The functions do nothing: their contracts are the laws.
#![tactic(auto, unfolding(mc_text::specs::Forms::text_at, crate::specs::Openings::opening_of))]

ghost use Rattle.std.specs.Prelude.{◌≡◌, ◌≢◌, ◌≤◌, ◌∷◌, ◌++◌, [], ℕ, List, codes, length};
ghost use Rattle.mc_net.specs.Openings.{opening_of};

use crate::openings::{OPENING_LEN, Opening, Stranger};

/// Once it is known what the bytes are, it stays so whatever follows: it plays no part where a stream is cut.
pub fn what_is_settled_stays()
    ensures { (bytes more : List ℕ) → opening_of bytes ≢ Opening.Unsettled → opening_of (bytes ++ more) ≡ opening_of bytes }
{}

/// After [`OPENING_LEN`] bytes it is known.
pub fn openings_are_settled()
    ensures { (bytes : List ℕ) → OPENING_LEN ≤ length bytes → opening_of bytes ≢ Opening.Unsettled }
{}

/// A text that begins with a small letter is the text protocol, at the first byte: so is each of its commands.
pub fn small_letters_are_text()
    ensures { (byte : ℕ) (rest : List ℕ) → 97 ≤ byte → byte ≤ 122 → opening_of (byte ∷ rest) ≡ Opening.Text }
{}

/// Strangers: each method of HTTP with a path, an address in full, a target of `OPTIONS` alone, a request of the binary protocol, a
/// greeting of TLS.
pub fn openings_of_strangers()
    ensures get { opening_of (codes "GET / HTTP/1.1") ≡ Opening.Strange Stranger.Http }
    ensures post { opening_of (codes "POST /a") ≡ Opening.Strange Stranger.Http }
    ensures put { opening_of (codes "PUT /") ≡ Opening.Strange Stranger.Http }
    ensures head { opening_of (codes "HEAD /") ≡ Opening.Strange Stranger.Http }
    ensures delete { opening_of (codes "DELETE /") ≡ Opening.Strange Stranger.Http }
    ensures patch { opening_of (codes "PATCH /") ≡ Opening.Strange Stranger.Http }
    ensures options { opening_of (codes "OPTIONS /") ≡ Opening.Strange Stranger.Http }
    ensures of_all { opening_of (codes "OPTIONS * HTTP/1.1") ≡ Opening.Strange Stranger.Http }
    ensures in_full { opening_of (codes "GET http://a/") ≡ Opening.Strange Stranger.Http }
    ensures binary { opening_of (128 ∷ []) ≡ Opening.Strange Stranger.Binary }
    ensures tls { opening_of (22 ∷ 3 ∷ 1 ∷ []) ≡ Opening.Strange Stranger.Tls }
{}

/// The text protocol: a command, a name in capital letters, an empty line; and bytes that may be either yet.
pub fn openings_of_text()
    ensures command { opening_of (codes "get /") ≡ Opening.Text }
    ensures capitals { opening_of (codes "GET a") ≡ Opening.Text }
    ensures no_target { opening_of (codes "GET\r") ≡ Opening.Text }
    ensures star { opening_of (codes "GET *") ≡ Opening.Text }
    ensures other_key { opening_of (codes "GET htt1") ≡ Opening.Text }
    ensures empty_line { opening_of (codes "\r\n") ≡ Opening.Text }
    ensures nothing { opening_of [] ≡ Opening.Unsettled }
    ensures one_letter { opening_of (codes "G") ≡ Opening.Unsettled }
    ensures name_alone { opening_of (codes "GET ") ≡ Opening.Unsettled }
    ensures of_all_yet { opening_of (codes "OPTIONS ") ≡ Opening.Unsettled }
    ensures in_full_yet { opening_of (codes "PUT htt") ≡ Opening.Unsettled }
{}
