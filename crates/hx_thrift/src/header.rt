/// The header of a struct's field.
#[derive(Clone, Copy, Debug, PartialEq, Eq)]
pub struct Field {
    /// 0 to 32767.
    pub id: i16,
    /// 1 to 12.
    pub kind: u8,
}

/// The header of a list or set.
#[derive(Clone, Copy, Debug, PartialEq, Eq)]
pub struct ListHead {
    /// The kind of the elements, 1 to 12.
    pub kind: u8,
    /// How many elements follow, below 2^31.
    pub size: u32,
}
