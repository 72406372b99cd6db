//! The limits that jobs and catalogues keep to.

/// A job has at most so many inputs.
pub const MOST_INPUTS: u64 = 10_000;

/// An input has at most so many bytes.
pub const MOST_BYTES: u64 = 67_108_864;

/// An input has at most so many rows, 2^40.
pub const MOST_ROWS: u64 = 1_099_511_627_776;

/// A catalogue has at most so many partitions.
pub const MOST_PARTITIONS: usize = 100_000;

/// A partition has at most so many rows.
pub const MOST_IN_PARTITION: u64 = 1_000_000;

/// A partition's pixel has an order of at most this.
pub const HIGHEST_ORDER: u8 = 20;

/// Margins are cut by pixels of an order of at most this.
pub const HIGHEST_MARGIN_ORDER: u8 = 24;
