ghost use Rattle.std.specs.Prelude.{◌≡◌};
ghost use Rattle.hx_pqmeta.specs.declared.refusal.PqRefusal.TheVariants.{Memory, Thrift};
ghost use Rattle.hx_pqmeta.specs.Refusals.{place_of, needed};

use hx_thrift::ThriftRefusal;
use std::alloc::{AllocError, AllocFailed};

/// Why a Parquet file isn't read: the first reason, in the order in which a file is looked at.
///
/// Reading the footer answers the reasons up to `Counts`, a page's header `Thrift` and `Missing`. The others are for
/// readers of columns, where `column` is a place in the list of the names that were asked for.
#[derive(Clone, Copy, Debug, PartialEq, Eq)]
pub enum PqRefusal {
    /// There is no memory.
    Memory,
    /// The file has fewer than 12 bytes, doesn't begin and end with `PAR1`, or its footer's length is above the file's
    /// length less 12.
    NotParquet,
    /// A struct isn't read by Thrift's compact protocol. `at` is a place in the file.
    Thrift { at: u64 },
    /// A field that has to be there is absent: `100 * struct + id`. The structs are 1 FileMetaData, 2 SchemaElement,
    /// 3 RowGroup, 4 ColumnChunk, 5 ColumnMetaData, 6 PageHeader and 7 DataPageHeader.
    Missing { field: u16 },
    /// A leaf of the schema has children or is repeated.
    Nested,
    /// A count of rows is negative, or the groups' counts don't sum to the file's.
    Counts,
    /// Not exactly one leaf has the name, or it has no type that is read.
    Column { column: u32 },
    /// A chunk is compressed.
    Codec { column: u32 },
    /// A chunk has a dictionary, or a page isn't a data page of plain numbers, behind levels in runs where it has levels.
    Encoding { column: u32 },
    /// A chunk is absent, in another file, or has another number of values than its row group has rows; or a page isn't
    /// where the pages are, its sizes or its number of values don't fit, or its body isn't as long as they say.
    Bounds { column: u32 },
    /// A column has no value at the row, from 1.
    Null { row: u64 },
}

impl From<AllocError> for PqRefusal {
    ghost from_gives = { λ _ e. e ≡ Memory };

    fn from(_e: AllocError) -> PqRefusal {
        PqRefusal::Memory
    }
}

impl<T: Drop> From<AllocFailed<T>> for PqRefusal {
    ghost from_gives = { λ _ e. e ≡ Memory };

    fn from(_e: AllocFailed<T>) -> PqRefusal {
        PqRefusal::Memory
    }
}

impl From<ThriftRefusal> for PqRefusal {
    ghost from_gives = { λ refusal e. e ≡ Thrift (place_of refusal) };

    fn from(refusal: ThriftRefusal) -> PqRefusal {
        match refusal {
            ThriftRefusal::Short { at }
            | ThriftRefusal::BadType { at }
            | ThriftRefusal::TooDeep { at }
            | ThriftRefusal::Overlong { at } => PqRefusal::Thrift { at },
        }
    }
}

/// A field that has to be there.
pub fn needed<T: Drop>(value: Option<T>, field: u16) -> Result<T, PqRefusal>
    ensures { result ≡ needed field value }
{
    value.ok_or(PqRefusal::Missing { field })
}
