//! The limits of a topology, and of a log.

/// How many keyspaces a topology has at most.
pub const MAX_KEYSPACES: usize = 32;

/// How many tables a keyspace has at most.
pub const MAX_TABLES_IN_KEYSPACE: usize = 256;

/// How many rule entries there are at most, places without a rule among them.
pub const MAX_RULES: usize = 4096;

/// How many entries a log has at most: positions lie below 2^63.
pub const MAX_LOG: u64 = 0x7fff_ffff_ffff_ffff;
