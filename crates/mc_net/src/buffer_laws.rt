//! Laws and examples of what clients may keep. Each function does nothing: its contract is the law.
ghost use Rattle.std.specs.Prelude.{◌≡◌, ◌≤◌, ◌+◌, ℕ, max};
ghost use Rattle.mc_net.specs.Buffers.{changed, excess, free_of, kept_in, no_buffers, share_of};
ghost use Rattle.mc_net.specs.declared.buffers.Buffers.{Buffers};
ghost use Rattle.mc_net.specs.declared.buffers.Right.TheVariants.{Usual, Behind, Ahead};
ghost use Rattle.mc_net.specs.declared.buffers.TheConstants.{ROOM_AHEAD};

/// What is counted grows only as far as a client's right allows: up to the limit, not at all behind others, and up to
/// [`ROOM_AHEAD`](crate::ROOM_AHEAD) bytes beyond the limit ahead of them.
pub fn shares_bound_what_is_kept()
    ensures usual { (buffers : Buffers) (kept after : ℕ) → excess kept ≤ buffers.kept → after ≤ share_of buffers kept Usual
        → kept_in (changed kept after buffers) ≤ max buffers.most (kept_in buffers) }
    ensures behind { (buffers : Buffers) (kept after : ℕ) → excess kept ≤ buffers.kept → after ≤ share_of buffers kept Behind
        → kept_in (changed kept after buffers) ≤ kept_in buffers }
    ensures ahead { (buffers : Buffers) (kept after : ℕ) → excess kept ≤ buffers.kept → after ≤ share_of buffers kept Ahead
        → kept_in (changed kept after buffers) ≤ max (buffers.most + ROOM_AHEAD) (kept_in buffers) }
{}

/// Of 100,000 bytes none are counted: a client may keep all beside its share, one behind others its share, and the one ahead 4 MiB more than all.
pub fn shares_of_nothing()
    ensures usual { share_of (no_buffers 100_000) 0 Usual ≡ 116_384 }
    ensures behind { share_of (no_buffers 100_000) 0 Behind ≡ 16_384 }
    ensures ahead { share_of (no_buffers 100_000) 0 Ahead ≡ 4_310_688 }
{}

/// A client keeps 90,000 bytes, of which 57,232 are counted. So 42,768 of 100,000 are free.
pub fn shares_of_much()
    ensures free { free_of (changed 0 90_000 (no_buffers 100_000)) ≡ 42_768 }
    ensures usual { share_of (changed 0 90_000 (no_buffers 100_000)) 90_000 Usual ≡ 132_768 }
    ensures behind { share_of (changed 0 90_000 (no_buffers 100_000)) 90_000 Behind ≡ 90_000 }
    ensures ahead { share_of (changed 0 90_000 (no_buffers 100_000)) 90_000 Ahead ≡ 4_327_072 }
    ensures little { share_of (changed 0 90_000 (no_buffers 100_000)) 1_000 Behind ≡ 16_384 }
{}
