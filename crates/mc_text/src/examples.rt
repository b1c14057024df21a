//! Worked examples, computed from the definitions alone.
#![tactic(auto, unfolding(crate::specs::Words::words, crate::specs::Lines::line_end, crate::specs::Lines::first_line, crate::proofs::OnLiterals::coded_on_literals))]

ghost use Rattle.std.specs.Prelude.{◌≡◌, pos, negsuc, [], ◌∷◌, Some, None, true, false, codes};
ghost use Rattle.mc_text.specs.Lines.{Whole, Partial, first_line};
ghost use Rattle.mc_text.specs.Words.{words, without_spaces};
ghost use Rattle.mc_text.specs.Numbers.{read_u64, read_i64, read_len, read_flags};
ghost use Rattle.mc_text.specs.Keys.{is_plain_key};
ghost use Rattle.mc_text.specs.CodedKeys.{coded_key, coded_of};

/// A line ends at its line feed, and one carriage return before that belongs to the end.
pub fn lines_by_their_ends()
    ensures both { first_line (codes "get a\r\nget b") ≡ Whole (codes "get a") 7 }
    ensures line_feed { first_line (codes "get a\nget b") ≡ Whole (codes "get a") 6 }
    ensures two_returns { first_line (codes "a\r\r\n") ≡ Whole (codes "a\r") 4 }
    ensures none { first_line (codes "get a\r") ≡ Partial }
{}

/// Spaces separate words and belong to none, at the front and the end too. A tab is a byte of its word.
pub fn words_between_spaces()
    ensures three { words (codes "  set a\tb   5 ") ≡ codes "set" ∷ codes "a\tb" ∷ codes "5" ∷ [] }
    ensures none { words (codes "  ") ≡ [] }
    ensures in_front { without_spaces (codes "  a b ") ≡ codes "a b " }
    ensures alone { without_spaces (codes "  ") ≡ [] }
{}

/// Numbers have digits alone, leading zeros included, and a limit; an exptime may have a minus.
pub fn numbers_within_limits()
    ensures greatest { read_u64 (codes "18446744073709551615") ≡ Some 18446744073709551615 }
    ensures too_great { read_u64 (codes "18446744073709551616") ≡ None }
    ensures zeros { read_u64 (codes "00000000000000000007") ≡ Some 7 }
    ensures many_digits { read_u64 (codes "000000000000000000007") ≡ None }
    ensures plus { read_u64 (codes "+7") ≡ None }
    ensures below_zero { read_i64 (codes "-5") ≡ Some (negsuc 4) }
    ensures positive { read_i64 (codes "5") ≡ Some (pos 5) }
    ensures minus_alone { read_i64 (codes "-") ≡ None }
    ensures length { read_len (codes "2147483647") ≡ Some 2147483647 }
    ensures too_long { read_len (codes "2147483648") ≡ None }
    ensures flags { read_flags (codes "4294967296") ≡ None }
{}

/// A plain key may have any byte except control bytes, spaces and 127.
pub fn keys_by_their_bytes()
    ensures plain { is_plain_key (codes "key:1") ≡ true }
    ensures empty { is_plain_key [] ≡ false }
    ensures space { is_plain_key (codes "a b") ≡ false }
    ensures tab { is_plain_key (codes "a\tb") ≡ false }
{}

/// A key in base64 has its padding, and no bit set after its last byte. It may be of any bytes.
pub fn coded_keys_by_their_words()
    ensures three { coded_key (codes "YWJj") ≡ Some (codes "abc") }
    ensures two { coded_key (codes "YWI=") ≡ Some (codes "ab") }
    ensures spelled { coded_of (codes "ab") ≡ codes "YWI=" }
    ensures space { coded_key (codes "YSBi") ≡ Some (codes "a b") }
    ensures trailing_bits { coded_key (codes "YWJ=") ≡ None }
    ensures no_padding { coded_key (codes "YWI") ≡ None }
    ensures empty { coded_key [] ≡ None }
{}
