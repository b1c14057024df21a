//! The limits of a pump.

/// This many unsent bytes stop a connection's turns and reads: 4 MiB.
pub const UNSENT_MARK: usize = 4_194_304;

/// The quantum of a pump, in units of work: it takes no further turn once its turns have cost this much.
///
/// A request costs a unit, and more if it has many keys or copies many bytes ([`Server::turn_gathering`](mc_server::Server::turn_gathering)). Its
/// answer costs one for each [`WORK_BYTES`](mc_server::WORK_BYTES) bytes. So a pipeline of 32 small requests, which costs 64, is still one read and one
/// write, and fifty clients that each spend all of it make another client wait some two milliseconds.
pub const QUANTUM: u64 = 80;

/// An answer that leaves no more than this number of bytes unsent is sent whatever its connection may keep: 4 KiB.
pub const SMALL_ANSWER: usize = 4096;
