/// How a column's values stand in its pages.
#[derive(Clone, Copy, Debug, PartialEq, Eq)]
pub struct Layout {
    /// Whether a number takes eight bytes (INT64), else four (INT32).
    pub is_wide: bool,
    /// Whether a value may be absent (OPTIONAL), so that levels stand before the numbers.
    pub is_optional: bool,
}

/// A column that is read.
#[derive(Clone, Copy, Debug, PartialEq, Eq)]
pub struct Asked {
    /// Its place in the list of the names that were asked for.
    pub column: u32,
    pub layout: Layout,
    /// The place of the footer, where the pages end.
    pub end: u64,
}
