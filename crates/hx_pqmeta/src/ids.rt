//! The ids of the fields that are read or written, by struct (Parquet format, `parquet.thrift`). A field's name begins
//! with that of its struct.

// FileMetaData
pub const FILE_VERSION: i16 = 1;

pub const FILE_SCHEMA: i16 = 2;

pub const FILE_ROWS: i16 = 3;

pub const FILE_GROUPS: i16 = 4;

pub const FILE_CREATED_BY: i16 = 6;

// SchemaElement
pub const ELEMENT_TYPE: i16 = 1;

pub const ELEMENT_REPETITION: i16 = 3;

pub const ELEMENT_NAME: i16 = 4;

pub const ELEMENT_CHILDREN: i16 = 5;

// RowGroup
pub const GROUP_CHUNKS: i16 = 1;

pub const GROUP_SIZE: i16 = 2;

pub const GROUP_ROWS: i16 = 3;

// ColumnChunk
pub const CHUNK_PATH: i16 = 1;

pub const CHUNK_OFFSET: i16 = 2;

pub const CHUNK_META: i16 = 3;

// ColumnMetaData
pub const META_TYPE: i16 = 1;

pub const META_ENCODINGS: i16 = 2;

pub const META_PATH: i16 = 3;

pub const META_CODEC: i16 = 4;

pub const META_VALUES: i16 = 5;

pub const META_PLAIN_SIZE: i16 = 6;

pub const META_STORED_SIZE: i16 = 7;

pub const META_DATA_PAGE: i16 = 9;

pub const META_DICTIONARY_PAGE: i16 = 11;

// PageHeader
pub const PAGE_TYPE: i16 = 1;

pub const PAGE_PLAIN_SIZE: i16 = 2;

pub const PAGE_STORED_SIZE: i16 = 3;

pub const PAGE_DATA: i16 = 5;

// DataPageHeader
pub const DATA_VALUES: i16 = 1;

pub const DATA_ENCODING: i16 = 2;

pub const DATA_LEVELS: i16 = 3;

pub const DATA_REPETITION_LEVELS: i16 = 4;
