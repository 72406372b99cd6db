//! The kinds of values (Thrift compact protocol), those that have a name here.

pub const I16: u8 = 4;

pub const I32: u8 = 5;

pub const I64: u8 = 6;

pub const BINARY: u8 = 8;

pub const LIST: u8 = 9;

pub const MAP: u8 = 11;

pub const STRUCT: u8 = 12;
