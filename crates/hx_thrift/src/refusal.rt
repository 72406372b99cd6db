/// Why bytes aren't read: the first refusal from left to right. `at` is the place of the first byte of the item that
/// it names.
#[derive(Clone, Copy, Debug, PartialEq, Eq)]
pub enum ThriftRefusal {
    /// The bytes end within a header, a varint, a body of fixed size, or a binary, which is named by its length.
    Short { at: u64 },
    /// A field's header, a list's header or the byte for the kinds of a map has no kind from 1 to 12.
    BadType { at: u64 },
    /// A container stands inside 32 containers. It is named by the first byte of its body.
    TooDeep { at: u64 },
    /// A varint doesn't end within ten bytes or is 2^64 or more; or a number, an id, a size or a length is out of its
    /// range.
    Overlong { at: u64 },
}
