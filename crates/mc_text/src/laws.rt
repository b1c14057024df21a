//! Laws of keys in base64. The functions do nothing: their contracts are the laws.
#![tactic(auto, using(crate::proofs::CodedLemmas::one_word_for_one_key))]

ghost use Rattle.std.specs.Prelude.{◌≡◌, ◌<◌, ℕ, List, true, Some};
ghost use Rattle.std.specs.List.{All};
ghost use Rattle.mc_text.specs.Keys.{is_key};
ghost use Rattle.mc_text.specs.CodedKeys.{coded_key, coded_of};

/// A key has one word in base64: the one that encodes it, which decodes to that key. `All (λ b. b < 256)` says that
/// a list is bytes, as each word and each key of a program is.
pub fn coded_keys_have_one_word()
    ensures spelled { (word key : List ℕ) → All (λ b. b < 256) word → coded_key word ≡ Some key → coded_of key ≡ word }
    ensures read { (key : List ℕ) → All (λ b. b < 256) key → is_key key ≡ true → coded_key (coded_of key) ≡ Some key }
    ensures once { (word other key : List ℕ) → All (λ b. b < 256) word → All (λ b. b < 256) other
        → coded_key word ≡ Some key → coded_key other ≡ Some key → word ≡ other }
{}
