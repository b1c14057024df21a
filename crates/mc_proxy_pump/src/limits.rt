//! The limits of a pump of a client, in units of work.

/// The work of one call of a pump of a client, in units. A request that is taken costs one unit, and one for each of its commands: each
/// key is hashed and routed. An answer that is emitted costs one unit, and one for each whole [`WORK_BYTES`] of its bytes. The pump ends
/// once its work reaches the quantum, so only the last request or answer can pass it.
///
/// A pipeline of 32 requests of one key each stays below it: they are taken in one pump, and answered in another once their replies have arrived.
/// It is the smallest number for which that holds.
pub const QUANTUM: u64 = 65;

/// This number of bytes of an answer costs one unit of work: 1 KiB.
pub const WORK_BYTES: u64 = 1024;
