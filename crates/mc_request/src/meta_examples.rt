//! Worked examples of meta commands, computed from the definitions alone.
#![tactic(auto, unfolding(mc_text::specs::Words::words, mc_text::proofs::OnLiterals::coded_on_literals, crate::specs::Names::name_of))]

ghost use Rattle.std.specs.Prelude.{◌≡◌, pos, negsuc, [], ◌∷◌, Some, None, true, false, map, codes};
ghost use Rattle.mc_text.specs.Words.{words};
ghost use Rattle.mc_request.specs.Flags.{mode_of, direction_of};
ghost use Rattle.mc_request.specs.Meanings.{Alone, Stores, Refuses, meaning, plain_counting};
ghost use Rattle.mc_request.specs.Examples.{refused, meta, setting, nothing_shown, every_flag, without_tokens, longer_flags, taken_alone, bad_alone, invalid_alone, once_each};

use crate::faults::Fault;
use crate::meta::MetaCommand;
use crate::names::Name;
use crate::parts::{Direction, Parsed, Request, StoreMode, Update};

/// Each command takes its own flags, and no others. The modes of `ms` and `ma` differ.
pub fn flags_of_each_command()
    ensures mg_takes { taken_alone Name.MetaGet every_flag ≡ words (codes "b c f k Oid q s t v T300 N300 R300") }
    ensures mg_refuses { invalid_alone Name.MetaGet every_flag ≡ words (codes "C300 F300 MS MI J300 D300 I") }
    ensures ms_takes { taken_alone Name.MetaSet every_flag ≡ words (codes "b c k Oid q s T300 C300 F300 MS") }
    ensures ms_bad { bad_alone Name.MetaSet every_flag ≡ words (codes "MI") }
    ensures ms_refuses { invalid_alone Name.MetaSet every_flag ≡ words (codes "f t v N300 J300 D300 I R300") }
    ensures md_takes { taken_alone Name.MetaDelete every_flag ≡ words (codes "b k Oid q C300 I") }
    ensures md_refuses { invalid_alone Name.MetaDelete every_flag ≡ words (codes "c f s t v T300 F300 MS MI N300 J300 D300 R300") }
    ensures ma_takes { taken_alone Name.MetaArithmetic every_flag ≡ words (codes "b c k Oid q t v T300 C300 MI N300 J300 D300") }
    ensures ma_bad { bad_alone Name.MetaArithmetic every_flag ≡ words (codes "MS") }
    ensures ma_refuses { invalid_alone Name.MetaArithmetic every_flag ≡ words (codes "f s F300 I R300") }
{}

/// A flag that needs a token and has none has a bad one. A flag that takes none and has more bytes is no flag.
pub fn tokens_of_each_flag()
    ensures mg_bad { bad_alone Name.MetaGet without_tokens ≡ words (codes "T N R") }
    ensures mg_refuses { invalid_alone Name.MetaGet without_tokens ≡ words (codes "C F M J D") }
    ensures mg_longer { invalid_alone Name.MetaGet longer_flags ≡ words longer_flags }
    ensures ms_bad { bad_alone Name.MetaSet without_tokens ≡ words (codes "T C F M") }
    ensures ms_refuses { invalid_alone Name.MetaSet without_tokens ≡ words (codes "N J D R") }
    ensures ms_longer { invalid_alone Name.MetaSet longer_flags ≡ words longer_flags }
    ensures md_bad { bad_alone Name.MetaDelete without_tokens ≡ words (codes "C") }
    ensures md_refuses { invalid_alone Name.MetaDelete without_tokens ≡ words (codes "T F M N J D R") }
    ensures md_longer { invalid_alone Name.MetaDelete longer_flags ≡ words longer_flags }
    ensures ma_bad { bad_alone Name.MetaArithmetic without_tokens ≡ words (codes "T C M N J D") }
    ensures ma_refuses { invalid_alone Name.MetaArithmetic without_tokens ≡ words (codes "F R") }
    ensures ma_longer { invalid_alone Name.MetaArithmetic longer_flags ≡ words longer_flags }
{}

/// No flag may be given twice, whatever it says the second time.
pub fn flags_are_once()
    ensures mg { once_each Name.MetaGet every_flag ≡ true }
    ensures ms { once_each Name.MetaSet every_flag ≡ true }
    ensures md { once_each Name.MetaDelete every_flag ≡ true }
    ensures ma { once_each Name.MetaArithmetic every_flag ≡ true }
{}

/// An opaque has at most 32 bytes, and may have none.
pub fn opaques()
    ensures none { taken_alone Name.MetaGet (codes "O") ≡ words (codes "O") }
    ensures longest { taken_alone Name.MetaDelete (codes "O12345678901234567890123456789012") ≡ words (codes "O12345678901234567890123456789012") }
    ensures too_long { bad_alone Name.MetaDelete (codes "O123456789012345678901234567890123") ≡ words (codes "O123456789012345678901234567890123") }
{}

/// Modes are letters, capital or small.
pub fn modes()
    ensures ms { map mode_of (words (codes "E A P R S")) ≡ Some StoreMode.Add ∷ Some StoreMode.Append ∷ Some StoreMode.Prepend ∷ Some StoreMode.Replace ∷ Some StoreMode.Set ∷ [] }
    ensures ms_small { map mode_of (words (codes "e a p r s")) ≡ map mode_of (words (codes "E A P R S")) }
    ensures ma { map direction_of (words (codes "I i + D d -")) ≡ Some Direction.Up ∷ Some Direction.Up ∷ Some Direction.Up ∷ Some Direction.Down ∷ Some Direction.Down ∷ Some Direction.Down ∷ [] }
    ensures unknown { map mode_of (words (codes "I X SS")) ≡ None ∷ None ∷ None ∷ [] }
{}

/// The first fault is reported. The order is: the number of words, the length of `ms`, the flags from left to right, the key,
/// the value's limit.
pub fn faults_in_order()
    ensures few { meaning (words (codes "mg")) ≡ refused Fault.UnknownCommand }
    ensures few_set { meaning (words (codes "ms a")) ≡ refused Fault.UnknownCommand }
    ensures doubled { meaning (words (codes "mg a v v")) ≡ refused Fault.InvalidFlag }
    ensures token_first { meaning (words (codes "mg a Tx z")) ≡ refused Fault.BadToken }
    ensures flag_first { meaning (words (codes "mg a z Tx")) ≡ refused Fault.InvalidFlag }
    ensures flag_before_key { meaning (words (codes "md a\tb v")) ≡ refused Fault.InvalidFlag }
    ensures key { meaning (words (codes "ma a\tb v")) ≡ refused Fault.BadFormat }
    ensures len { meaning (words (codes "ms a x z")) ≡ refused Fault.BadFormat }
    ensures set_flag { meaning (words (codes "ms a 1048577 v")) ≡ Refuses Fault.InvalidFlag 1048577 }
    ensures set_key { meaning (words (codes "ms a\tb 1048577 q")) ≡ Refuses Fault.BadFormat 1048577 }
    ensures set_size { meaning (words (codes "ms a 1048577 q")) ≡ Refuses Fault.TooLarge 1048577 }
    ensures noop { meaning (words (codes "mn x")) ≡ refused Fault.UnknownCommand }
{}

/// Meta commands without a block ask for these requests.
pub fn meta_commands()
    ensures bare { meaning (words (codes "mg a")) ≡ meta (MetaCommand.Get (codes "a") (record { show = nothing_shown; exptime = None; create = None; recache = None })) false false [] }
    ensures value { meaning (words (codes "mg a v q")) ≡ meta (MetaCommand.Get (codes "a") (record { show = (record nothing_shown { value = true }); exptime = None; create = None; recache = None })) false true (codes "v q") }
    ensures all { meaning (words (codes "mg a T9 N30 R60 O7 k")) ≡ meta (MetaCommand.Get (codes "a") (record { show = nothing_shown; exptime = Some (pos 9); create = Some (pos 30); recache = Some 60 })) false false (codes "T9 N30 R60 O7 k") }
    ensures delete { meaning (words (codes "md a")) ≡ meta (MetaCommand.Update (Update.Delete (codes "a") None false) nothing_shown) false false [] }
    ensures stale { meaning (words (codes "md a I C5")) ≡ meta (MetaCommand.Update (Update.Delete (codes "a") (Some 5) true) nothing_shown) false false (codes "I C5") }
    ensures count { meaning (words (codes "ma a")) ≡ meta (MetaCommand.Update (Update.Count (codes "a") (plain_counting Direction.Up 1)) nothing_shown) false false [] }
    ensures made { meaning (words (codes "ma a N-1 J700 D500 MD T900 C300")) ≡ meta (MetaCommand.Update (Update.Count (codes "a") (record { direction = Direction.Down; delta = 500; compare = Some 300; create = Some (record { exptime = negsuc 0; initial = 700 }); exptime = Some (pos 900) })) nothing_shown) false false (codes "N-1 J700 D500 MD T900 C300") }
    ensures initial_alone { meaning (words (codes "ma a J7")) ≡ meta (MetaCommand.Update (Update.Count (codes "a") (plain_counting Direction.Up 1)) nothing_shown) false false (codes "J7") }
    ensures noop { meaning (words (codes "mn")) ≡ Alone (Parsed.Whole Request.MetaNoop) }
{}

/// An `ms` asks for this: it sets, with client flags of 0 and an exptime of 0, if nothing else is given.
pub fn meta_sets()
    ensures bare { meaning (words (codes "ms a 2")) ≡ Stores (setting StoreMode.Set None 0 (pos 0) nothing_shown []) 2 }
    ensures all { meaning (words (codes "ms a 2 MA C5 F7 T-1 s")) ≡ Stores (setting StoreMode.Append (Some 5) 7 (negsuc 0) (record nothing_shown { size = true }) (codes "MA C5 F7 T-1 s")) 2 }
{}

/// A key in base64 may be of any bytes. A word that is no base64, or has a bit set after its last byte, refuses the line.
pub fn coded_keys()
    ensures space { meaning (words (codes "mg YSBi b")) ≡ meta (MetaCommand.Get (codes "a b") (record { show = nothing_shown; exptime = None; create = None; recache = None })) true false (codes "b") }
    ensures bits { meaning (words (codes "mg YWJ= b")) ≡ refused Fault.BadFormat }
    ensures bare { meaning (words (codes "mg a b")) ≡ refused Fault.BadFormat }
{}
