//! The numbers of the enumerations that are read or written (Parquet format, `parquet.thrift`).

/// `Type`: signed numbers of four and of eight bytes.
pub const INT32_TYPE: i32 = 1;

pub const INT64_TYPE: i32 = 2;

/// `FieldRepetitionType`: a value in each row, and one that may be absent.
pub const REQUIRED: i32 = 0;

pub const OPTIONAL: i32 = 1;

/// `Encoding`: numbers one after another, little-endian; and levels as runs.
pub const PLAIN_ENCODING: i32 = 0;

pub const RLE_ENCODING: i32 = 3;

/// `CompressionCodec`: none.
pub const UNCOMPRESSED: i32 = 0;

/// `PageType`: a page of values.
pub const DATA_PAGE: i32 = 0;
