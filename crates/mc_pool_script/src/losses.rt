//! The choice for lost commands, by the text after the line's name.
ghost use Rattle.std.specs.Prelude.{◌≡◌};
ghost use Rattle.mc_pool_script.specs.PoolScripts.{losses_named};

use mc_route::Losses;

/// The choice that a word names: `told` or `missed`.
pub fn losses_named(word: &[u8]) -> Option<Losses>
    ensures { result ≡ losses_named word.now }
{
    if word == b"told".as_slice() {
        Some(Losses::Told)
    } else if word == b"missed".as_slice() {
        Some(Losses::Missed)
    } else {
        None
    }
}
