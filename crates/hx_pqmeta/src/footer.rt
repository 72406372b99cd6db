ghost use Rattle.std.specs.Prelude.{◌≡◌};
ghost use Rattle.hx_pqmeta.specs.Records.{LeafRecord, GroupRecord, FooterRecord};

use crate::chunk::Chunk;
use std::marker::Model;

/// An element of the schema behind its first one, which is the root.
#[derive(Drop)]
pub struct Leaf {
    kind: Option<i32>,
    repetition: i32,
    name: Vec<u8>,
    children: Option<i32>,
}

impl Model for Leaf {
    ghost Value = { LeafRecord };

    ghost view = { λ leaf. record { kind = leaf.kind; repetition = leaf.repetition; name = leaf.name.items; children = leaf.children } };
}

impl Leaf {
    /// A leaf of these parts.
    pub fn new(kind: Option<i32>, repetition: i32, name: Vec<u8>, children: Option<i32>) -> Leaf
        ensures { result ≡ record { kind = kind; repetition = repetition; name = name.items; children = children } }
    {
        Leaf {
            kind,
            repetition,
            name,
            children,
        }
    }

    /// The type of the values: 1 INT32, 2 INT64, and others that aren't read.
    pub fn kind(&self) -> Option<i32>
        ensures { result ≡ self.now.kind }
    {
        self.kind
    }

    /// 0 REQUIRED, 1 OPTIONAL.
    pub fn repetition(&self) -> i32
        ensures { result ≡ self.now.repetition }
    {
        self.repetition
    }

    /// The column's name, in any bytes.
    pub fn name(&self) -> &[u8]
        ensures { result.now ≡ self.now.name }
    {
        &self.name
    }

    /// How many elements lie below this one.
    pub fn children(&self) -> Option<i32>
        ensures { result ≡ self.now.children }
    {
        self.children
    }
}

/// A row group: some of the rows, with a chunk for each column.
#[derive(Drop)]
pub struct Group {
    rows: i64,
    chunks: Vec<Chunk>,
}

impl Model for Group {
    ghost Value = { GroupRecord };

    ghost view = { λ group. record { rows = group.rows; chunks = group.chunks.items } };
}

impl Group {
    /// A group of these parts.
    pub fn new(rows: i64, chunks: Vec<Chunk>) -> Group
        ensures { result ≡ record { rows = rows; chunks = chunks.items } }
    {
        Group { rows, chunks }
    }

    /// How many rows the group has.
    pub fn rows(&self) -> i64
        ensures { result ≡ self.now.rows }
    {
        self.rows
    }

    /// The columns' values, in the order of the leaves.
    pub fn chunks(&self) -> &[Chunk]
        ensures { result.now ≡ self.now.chunks }
    {
        &self.chunks
    }
}

/// The footer of a file.
#[derive(Drop)]
pub struct Footer {
    start: u64,
    rows: i64,
    leaves: Vec<Leaf>,
    groups: Vec<Group>,
}

impl Model for Footer {
    ghost Value = { FooterRecord };

    ghost view = { λ footer. record { start = footer.start; rows = footer.rows; leaves = footer.leaves.items; groups = footer.groups.items } };
}

impl Footer {
    /// A footer of these parts. It is taken as it is.
    pub fn new(start: u64, rows: i64, leaves: Vec<Leaf>, groups: Vec<Group>) -> Footer
        ensures { result ≡ record { start = start; rows = rows; leaves = leaves.items; groups = groups.items } }
    {
        Footer {
            start,
            rows,
            leaves,
            groups,
        }
    }

    /// The place of the footer's first byte in the file.
    pub fn start(&self) -> u64
        ensures { result ≡ self.now.start }
    {
        self.start
    }

    /// How many rows the file has.
    pub fn rows(&self) -> i64
        ensures { result ≡ self.now.rows }
    {
        self.rows
    }

    /// The columns, in order.
    pub fn leaves(&self) -> &[Leaf]
        ensures { result.now ≡ self.now.leaves }
    {
        &self.leaves
    }

    /// The rows' groups, in order. Where a footer was read, a group may have fewer or more chunks than there are
    /// leaves.
    pub fn groups(&self) -> &[Group]
        ensures { result.now ≡ self.now.groups }
    {
        &self.groups
    }
}
