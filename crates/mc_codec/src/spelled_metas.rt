//! The line of a meta command: its length, and how it is appended to a vector that has room for it.
ghost use Rattle.std.specs.Prelude.{◌≡◌, ◌+◌, ◌≤◌, ◌<◌, ◌++◌, ◌∷◌, [], length, vec_len, vec_capacity, codes};
ghost use Rattle.mc_codec.specs.Spellings.{mode_word, direction_word, mg_flags, ms_flags, md_flags, ma_flags, meta_words, spaced};
ghost use Rattle.mc_codec.specs.SpelledPieces.{after_spaces, mg_show_pieces, ms_show_pieces, ma_show_pieces};

use crate::spelled_words::{
    append_coded, append_creation, append_if, append_number, append_number_if, append_signed,
    append_signed_if, coded_len, creation_len, digits_len, len_if, number_len_if, signed_len,
    signed_len_if,
};
use mc_request::{Counting, Direction, MetaCommand, MetaGet, Show, StoreMode, Update};
use mc_text::{Block, Key, append};

/// Returns the mode of an `ms`, as its flag says it.
fn mode_word(mode: StoreMode) -> &'static [u8]
    ensures word { result.now ≡ codes " " ++ mode_word mode }
    ensures short { length result.now ≡ 3 }
{
    match mode {
        StoreMode::Set => b" MS",
        StoreMode::Add => b" ME",
        StoreMode::Replace => b" MR",
        StoreMode::Append => b" MA",
        StoreMode::Prepend => b" MP",
    }
}

/// Returns the mode of an `ma`, as its flag says it.
fn direction_word(direction: Direction) -> &'static [u8]
    ensures word { result.now ≡ codes " " ++ direction_word direction }
    ensures short { length result.now ≡ 3 }
{
    match direction {
        Direction::Up => b" MI",
        Direction::Down => b" MD",
    }
}

/// Returns how many bytes the line of a meta command has. A command without a meta form has no line.
pub fn meta_len(command: &MetaCommand<Key, Block>) -> usize
    ensures len { result ≡ length (spaced (meta_words command.now)) }
    ensures bound { result ≤ 1000 }
{
    match command {
        MetaCommand::Get { key, get } => 3 + coded_len(key) + mg_flags_len(get),
        MetaCommand::Update { update, show } => meta_update_len(update, show),
    }
}

/// Returns how many bytes the line of a meta update has.
fn meta_update_len(update: &Update<Key, Block>, show: &Show) -> usize
    ensures len { result ≡ length (spaced (meta_words (MetaCommand.Update update.now show.now))) }
    ensures bound { result ≤ 900 }
{
    match update {
        Update::Store {
            mode,
            compare,
            key,
            flags,
            exptime,
            block,
        } => {
            3 + coded_len(key)
                + 1
                + digits_len(block.len() as u64)
                + ms_flags_len(*mode, *compare, *flags, *exptime, show)
        }
        Update::Delete {
            key,
            compare,
            invalidate,
        } => 3 + coded_len(key) + md_flags_len(*compare, *invalidate),
        Update::Count { key, counting } => 3 + coded_len(key) + ma_flags_len(counting, show),
        Update::Touch { .. } | Update::FlushAll { .. } => 0,
    }
}

/// Returns how many bytes the flag words of an `mg` have.
#[tactic(auto, using(crate::proofs::PieceLemmas::mg_flags_length))]
fn mg_flags_len(get: &MetaGet) -> usize
    ensures len { result ≡ length (after_spaces (mg_flags get.now)) }
    ensures bound { result ≤ 100 }
{
    2 + len_if(get.show.cas, b" c")
        + len_if(get.show.flags, b" f")
        + len_if(get.show.size, b" s")
        + len_if(get.show.left, b" t")
        + len_if(get.show.value, b" v")
        + signed_len_if(b" T", get.exptime)
        + signed_len_if(b" N", get.create)
        + number_len_if(b" R", get.recache)
}

/// Returns how many bytes the flag words of an `ms` have.
#[tactic(auto, using(crate::proofs::PieceLemmas::ms_flags_length))]
fn ms_flags_len(
    mode: StoreMode,
    compare: Option<u64>,
    flags: u32,
    exptime: i64,
    show: &Show,
) -> usize
    ensures len { result ≡ length (after_spaces (ms_flags mode compare flags exptime show.now)) }
    ensures bound { result ≤ 100 }
{
    2 + len_if(show.cas, b" c")
        + len_if(show.size, b" s")
        + 2
        + signed_len(exptime)
        + 2
        + digits_len(u64::from(flags))
        + number_len_if(b" C", compare)
        + mode_word(mode).len()
}

/// Returns how many bytes the flag words of an `md` have.
#[tactic(auto, using(crate::proofs::PieceLemmas::after_word_if, crate::proofs::PieceLemmas::after_number_if))]
fn md_flags_len(compare: Option<u64>, invalidate: bool) -> usize
    ensures len { result ≡ length (after_spaces (md_flags compare invalidate)) }
    ensures bound { result ≤ 100 }
{
    2 + number_len_if(b" C", compare) + len_if(invalidate, b" I")
}

/// Returns how many bytes the flag words of an `ma` have.
#[tactic(auto, using(crate::proofs::PieceLemmas::ma_flags_length))]
fn ma_flags_len(counting: &Counting, show: &Show) -> usize
    ensures len { result ≡ length (after_spaces (ma_flags counting.now show.now)) }
    ensures bound { result ≤ 200 }
{
    2 + len_if(show.cas, b" c")
        + len_if(show.left, b" t")
        + len_if(show.value, b" v")
        + signed_len_if(b" T", counting.exptime)
        + number_len_if(b" C", counting.compare)
        + creation_len(counting.create)
        + 2
        + digits_len(counting.delta)
        + direction_word(counting.direction).len()
}

/// Appends the line of a meta command. A command without a meta form has no line.
pub fn append_meta(out: &mut Vec<u8>, command: &MetaCommand<Key, Block>)
    requires { vec_len out.old + length (spaced (meta_words command.now)) ≤ vec_capacity out.old }
    ensures items { out.new.items ≡ out.old.items ++ spaced (meta_words command.now) }
    ensures len { vec_len out.new ≡ vec_len out.old + length (spaced (meta_words command.now)) }
    ensures room { vec_capacity out.old ≤ vec_capacity out.new }
{
    match command {
        MetaCommand::Get { key, get } => {
            append_coded(out, b"mg ", key);
            append_mg_flags(out, get);
        }
        MetaCommand::Update { update, show } => append_meta_update(out, update, show),
    }
}

/// Appends the line of a meta update.
fn append_meta_update(out: &mut Vec<u8>, update: &Update<Key, Block>, show: &Show)
    requires { vec_len out.old + length (spaced (meta_words (MetaCommand.Update update.now show.now))) ≤ vec_capacity out.old }
    ensures items { out.new.items ≡ out.old.items ++ spaced (meta_words (MetaCommand.Update update.now show.now)) }
    ensures len { vec_len out.new ≡ vec_len out.old + length (spaced (meta_words (MetaCommand.Update update.now show.now))) }
    ensures room { vec_capacity out.old ≤ vec_capacity out.new }
{
    match update {
        Update::Store {
            mode,
            compare,
            key,
            flags,
            exptime,
            block,
        } => {
            append_coded(out, b"ms ", key);
            append_number(out, b" ", block.len() as u64);
            append_ms_flags(out, *mode, *compare, *flags, *exptime, show);
        }
        Update::Delete {
            key,
            compare,
            invalidate,
        } => {
            append_coded(out, b"md ", key);
            append_md_flags(out, *compare, *invalidate);
        }
        Update::Count { key, counting } => {
            append_coded(out, b"ma ", key);
            append_ma_flags(out, counting, show);
        }
        Update::Touch { .. } | Update::FlushAll { .. } => {}
    }
}

/// Appends the flag words of an `mg`.
#[tactic(auto, using(crate::proofs::PieceLemmas::mg_flags_are, crate::proofs::PieceLemmas::mg_flags_length))]
fn append_mg_flags(out: &mut Vec<u8>, get: &MetaGet)
    requires { vec_len out.old + length (after_spaces (mg_flags get.now)) ≤ vec_capacity out.old }
    ensures items { out.new.items ≡ out.old.items ++ after_spaces (mg_flags get.now) }
    ensures len { vec_len out.new ≡ vec_len out.old + length (after_spaces (mg_flags get.now)) }
    ensures room { vec_capacity out.old ≤ vec_capacity out.new }
{
    append_mg_show(out, &get.show);
    append_signed_if(out, b" T", get.exptime);
    append_signed_if(out, b" N", get.create);
    append_number_if(out, b" R", get.recache);
}

/// Appends what an `mg` asks to be shown, after its `b`.
fn append_mg_show(out: &mut Vec<u8>, show: &Show)
    requires { vec_len out.old + length (mg_show_pieces show.now) ≤ vec_capacity out.old }
    ensures items { out.new.items ≡ out.old.items ++ mg_show_pieces show.now }
    ensures len { vec_len out.new ≡ vec_len out.old + length (mg_show_pieces show.now) }
    ensures room { vec_capacity out.old ≤ vec_capacity out.new }
{
    append(out, b" b");
    append_if(out, show.cas, b" c");
    append_if(out, show.flags, b" f");
    append_if(out, show.size, b" s");
    append_if(out, show.left, b" t");
    append_if(out, show.value, b" v");
}

/// Appends the flag words of an `ms`.
#[tactic(auto, using(crate::proofs::PieceLemmas::ms_flags_are, crate::proofs::PieceLemmas::ms_flags_length))]
fn append_ms_flags(
    out: &mut Vec<u8>,
    mode: StoreMode,
    compare: Option<u64>,
    flags: u32,
    exptime: i64,
    show: &Show,
)
    requires { vec_len out.old + length (after_spaces (ms_flags mode compare flags exptime show.now)) ≤ vec_capacity out.old }
    ensures items { out.new.items ≡ out.old.items ++ after_spaces (ms_flags mode compare flags exptime show.now) }
    ensures len { vec_len out.new ≡ vec_len out.old + length (after_spaces (ms_flags mode compare flags exptime show.now)) }
    ensures room { vec_capacity out.old ≤ vec_capacity out.new }
{
    append_ms_show(out, show);
    append_signed(out, b" T", exptime);
    append_number(out, b" F", u64::from(flags));
    append_number_if(out, b" C", compare);
    append(out, mode_word(mode));
}

/// Appends what an `ms` asks to be shown, after its `b`.
fn append_ms_show(out: &mut Vec<u8>, show: &Show)
    requires { vec_len out.old + length (ms_show_pieces show.now) ≤ vec_capacity out.old }
    ensures items { out.new.items ≡ out.old.items ++ ms_show_pieces show.now }
    ensures len { vec_len out.new ≡ vec_len out.old + length (ms_show_pieces show.now) }
    ensures room { vec_capacity out.old ≤ vec_capacity out.new }
{
    append(out, b" b");
    append_if(out, show.cas, b" c");
    append_if(out, show.size, b" s");
}

/// Appends the flag words of an `md`.
#[tactic(auto, using(crate::proofs::PieceLemmas::after_word_if, crate::proofs::PieceLemmas::after_number_if))]
fn append_md_flags(out: &mut Vec<u8>, compare: Option<u64>, invalidate: bool)
    requires { vec_len out.old + length (after_spaces (md_flags compare invalidate)) ≤ vec_capacity out.old }
    ensures items { out.new.items ≡ out.old.items ++ after_spaces (md_flags compare invalidate) }
    ensures len { vec_len out.new ≡ vec_len out.old + length (after_spaces (md_flags compare invalidate)) }
    ensures room { vec_capacity out.old ≤ vec_capacity out.new }
{
    append(out, b" b");
    append_number_if(out, b" C", compare);
    append_if(out, invalidate, b" I");
}

/// Appends the flag words of an `ma`.
#[tactic(auto, using(crate::proofs::PieceLemmas::ma_flags_are, crate::proofs::PieceLemmas::ma_flags_length))]
fn append_ma_flags(out: &mut Vec<u8>, counting: &Counting, show: &Show)
    requires { vec_len out.old + length (after_spaces (ma_flags counting.now show.now)) ≤ vec_capacity out.old }
    ensures items { out.new.items ≡ out.old.items ++ after_spaces (ma_flags counting.now show.now) }
    ensures len { vec_len out.new ≡ vec_len out.old + length (after_spaces (ma_flags counting.now show.now)) }
    ensures room { vec_capacity out.old ≤ vec_capacity out.new }
{
    append_ma_show(out, show);
    append_signed_if(out, b" T", counting.exptime);
    append_number_if(out, b" C", counting.compare);
    append_creation(out, counting.create);
    append_number(out, b" D", counting.delta);
    append(out, direction_word(counting.direction));
}

/// Appends what an `ma` asks to be shown, after its `b`.
fn append_ma_show(out: &mut Vec<u8>, show: &Show)
    requires { vec_len out.old + length (ma_show_pieces show.now) ≤ vec_capacity out.old }
    ensures items { out.new.items ≡ out.old.items ++ ma_show_pieces show.now }
    ensures len { vec_len out.new ≡ vec_len out.old + length (ma_show_pieces show.now) }
    ensures room { vec_capacity out.old ≤ vec_capacity out.new }
{
    append(out, b" b");
    append_if(out, show.cas, b" c");
    append_if(out, show.left, b" t");
    append_if(out, show.value, b" v");
}
