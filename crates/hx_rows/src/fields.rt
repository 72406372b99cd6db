//! The fields of a record, however they are kept.
ghost use Rattle.std.specs.Prelude.{◌≡◌, ℕ, List, length};
ghost use Rattle.hx_rows.specs.Csv.{field};

use csv::ByteRecord;

/// A record: a list of fields, each a list of bytes.
pub(crate) trait Fields {
    /// Its fields.
    ghost fields: { Self → List (List ℕ) };

    /// How many fields there are.
    fn count(&self) -> usize
        ensures { result ≡ length (fields self.now) };

    /// The field at an index, which is empty past the end.
    fn at(&self, index: usize) -> &[u8]
        ensures { result.now ≡ field (fields self.now) index };
}

impl Fields for ByteRecord {
    ghost use Rattle.csv.specs.Records.{fields_of};

    ghost fields = { λ line. fields_of line };

    #[inline]
    fn count(&self) -> usize {
        self.len()
    }

    #[inline]
    fn at(&self, index: usize) -> &[u8] {
        match self.get(index) {
            Some(bytes) => bytes,
            None => &[],
        }
    }
}

impl<'a> Fields for Vec<&'a [u8]> {
    ghost use Rattle.hx_rows.specs.Headers.{fields_now};

    ghost fields = { λ line. fields_now line.items };

    #[inline]
    fn count(&self) -> usize {
        self.len()
    }

    #[inline]
    fn at(&self, index: usize) -> &[u8] {
        match self.as_slice().get(index) {
            Some(bytes) => bytes,
            None => &[],
        }
    }
}
