//! The limits of serving sockets.

/// How many bytes a read asks for: 64 KiB.
pub const PIECE_LEN: usize = 65_536;

/// This number of bytes may stay reserved for a buffer of a client that waits for an event: 256 KiB.
pub const KEPT_ROOM: usize = 262_144;

/// While fewer bytes than this are free for clients, none stay reserved for empty buffers: 8 MiB.
pub const SCARCE: u64 = 8_388_608;
