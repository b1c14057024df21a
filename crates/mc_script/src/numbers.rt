//! Numbers of a script's lines.
ghost use Rattle.std.specs.Prelude.{◌≡◌, ◌^◌, ◌<◌, ◌≤◌, IfSome};
ghost use Rattle.mc_script.specs.Numbers.{limit_of, moment_read, place_of};

use mc_text::read_u64;

/// The last moment of a turn, in seconds.
const MAX_MOMENT: u64 = 9_223_372_036_854_775_807;

/// A number from 1 to a limit.
pub fn read_limit(word: &[u8], most: u64) -> Option<u64>
    ensures value { result ≡ limit_of most word.now }
    ensures small { IfSome result (λ limit. limit ≤ most) }
    ensures some { IfSome result (λ limit. 1 ≤ limit) }
{
    read_u64(word).filter(|limit| *limit >= 1 && *limit <= most)
}

/// The number of one of `count` things, counted from 0.
pub fn read_place(word: &[u8], count: u64) -> Option<u64>
    ensures place { result ≡ place_of count word.now }
    ensures inside { IfSome result (λ place. place < count) }
{
    read_u64(word).filter(|place| *place < count)
}

/// A moment: a number below 2^63.
pub fn read_moment(word: &[u8]) -> Option<u64>
    ensures value { result ≡ moment_read word.now }
    ensures small { IfSome result (λ moment. moment < 2 ^ 63) }
{
    read_u64(word).filter(|moment| *moment <= MAX_MOMENT)
}
