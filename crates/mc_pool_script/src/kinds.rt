//! Whether a script is one of a pool.
ghost use Rattle.std.specs.Prelude.{◌≡◌};
ghost use Rattle.mc_pool_script.specs.Kinds.{begins_pool, is_of_pool};

use mc_script::{cut_at_space, lines_of};

/// Whether a text is to be read as a script of a pool: the first word of its first line is `pool`.
#[tactic(auto, unfolding(crate::specs::Kinds::is_pool))]
pub fn is_of_pool(input: &[u8]) -> bool
    ensures { result ≡ is_of_pool input.now }
{
    let mut lines = lines_of(input);
    lines.next().is_some_and(|(_, line)| begins_pool(line))
}

#[tactic(auto, unfolding(crate::specs::Kinds::begins_pool))]
fn begins_pool(line: &[u8]) -> bool
    ensures { result ≡ begins_pool line.now }
{
    cut_at_space(line).is_some_and(|(word, _)| word == b"pool".as_slice())
}
