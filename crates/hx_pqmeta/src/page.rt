ghost use Rattle.std.specs.Prelude.{◌≡◌, ◌+◌, ◌<◌, ◌≤◌, ◌^◌, length, IfOk};
ghost use Rattle.hx_pqmeta.specs.Refusals.{needed};
ghost use Rattle.hx_pqmeta.specs.Fields.{data_page_header_of, page_header_of};
ghost use Rattle.hx_pqmeta.specs.PageHeaders.{with_data_page, page_head_of, page_head_at};

use crate::enumerations::DATA_PAGE;
use crate::ids::{
    DATA_ENCODING, DATA_LEVELS, DATA_VALUES, PAGE_DATA, PAGE_PLAIN_SIZE, PAGE_STORED_SIZE,
    PAGE_TYPE,
};
use crate::refusal::{PqRefusal, needed};
use crate::structs::{Struct, read_entries, read_struct};
use crate::values::{int32, pass};
use hx_thrift::kind::{I32, STRUCT};
use hx_thrift::{Field, Reader, reading_is_spelling};

/// The header of a page.
#[derive(Clone, Copy, Debug, PartialEq, Eq)]
pub struct PageHead {
    /// 0 for a data page, 2 for a dictionary, 3 for a data page of version 2.
    pub kind: i32,
    /// The bytes of the page's body before compression.
    pub plain_size: i32,
    /// The bytes of the page's body in the file.
    pub stored_size: i32,
    /// How many values, with those that are null. Where `kind` isn't 0 this and the encoding are 0, and `levels` is
    /// `None`.
    pub values: i32,
    /// The encoding of the values: 0 PLAIN, 2 PLAIN_DICTIONARY, 3 RLE, 8 RLE_DICTIONARY.
    pub encoding: i32,
    /// The encoding of the definition levels.
    pub levels: Option<i32>,
    /// The place behind the header, in the file.
    pub next: u64,
}

/// The fields of the struct DataPageHeader.
#[derive(Clone, Copy, Default)]
pub struct DataPageHeader {
    pub values: Option<i32>,
    pub encoding: Option<i32>,
    pub levels: Option<i32>,
}

/// The fields of the struct PageHeader.
#[derive(Clone, Copy, Default)]
pub struct PageHeader {
    pub kind: Option<i32>,
    pub plain_size: Option<i32>,
    pub stored_size: Option<i32>,
    pub data_page: Option<DataPageHeader>,
}

impl<'a> Struct<'a> for DataPageHeader {
    ghost levels = { 30 };

    ghost wants = { ⊥ };

    ghost said = { λ es. data_page_header_of es };

    fn read_entry(
        &mut self,
        reader: &mut Reader<'a>,
        field: Field,
        depth: u32,
    ) -> Result<(), PqRefusal> {
        match (field.id, field.kind) {
            (DATA_VALUES, I32) => self.values = int32(reader)?,
            (DATA_ENCODING, I32) => self.encoding = int32(reader)?,
            (DATA_LEVELS, I32) => self.levels = int32(reader)?,
            (_, kind) => pass(reader, kind, depth)?,
        }
        Ok(())
    }
}

impl<'a> Struct<'a> for PageHeader {
    ghost levels = { 31 };

    ghost wants = { ⊥ };

    ghost said = { λ es. page_header_of es };

    #[tactic(auto, unfolding(crate::specs::Fields::last))]
    fn read_entry(
        &mut self,
        reader: &mut Reader<'a>,
        field: Field,
        depth: u32,
    ) -> Result<(), PqRefusal> {
        let empty = DataPageHeader::default();
        match (field.id, field.kind) {
            (PAGE_TYPE, I32) => self.kind = int32(reader)?,
            (PAGE_PLAIN_SIZE, I32) => self.plain_size = int32(reader)?,
            (PAGE_STORED_SIZE, I32) => self.stored_size = int32(reader)?,
            (PAGE_DATA, STRUCT) => self.data_page = Some(read_struct(reader, empty, depth)?),
            (_, kind) => pass(reader, kind, depth)?,
        }
        Ok(())
    }
}

#[tactic(auto, unfolding(crate::specs::PageHeaders::with_data_page))]
fn with_data_page(head: PageHead, header: Option<DataPageHeader>) -> Result<PageHead, PqRefusal>
    ensures next { IfOk result (λ x. x.next ≡ head.next) }
    ensures value { result ≡ with_data_page head header }
{
    let data_page = needed(header, 605)?;
    let values = needed(data_page.values, 701)?;
    let encoding = needed(data_page.encoding, 702)?;
    Ok(PageHead {
        values,
        encoding,
        levels: data_page.levels,
        ..head
    })
}

#[tactic(auto, unfolding(crate::specs::PageHeaders::page_head_of))]
fn page_head(header: PageHeader, next: u64) -> Result<PageHead, PqRefusal>
    ensures next { IfOk result (λ head. head.next ≡ next) }
    ensures value { result ≡ page_head_of header next }
{
    let head = PageHead {
        kind: needed(header.kind, 601)?,
        plain_size: needed(header.plain_size, 602)?,
        stored_size: needed(header.stored_size, 603)?,
        values: 0,
        encoding: 0,
        levels: None,
        next,
    };
    if head.kind == DATA_PAGE {
        with_data_page(head, header.data_page)
    } else {
        Ok(head)
    }
}

/// Reads the header of a page that stands at the place `at` of a file, by the bytes from there on.
///
/// The last entry of a field counts, and what isn't a field is passed over. The first refusal is one of Thrift, or
/// Missing: 601, 602, 603, and for a data page 605, 701, 702. It takes no memory.
#[tactic(auto, unfolding(crate::specs::PageHeaders::page_head_at, crate::specs::Fields::last))]
pub fn read_page_header(bytes: &[u8], at: u64) -> Result<PageHead, PqRefusal>
    requires { at + length bytes.now < 2 ^ 64 }
    ensures next { IfOk result (λ head. (at ≤ head.next) × (head.next ≤ at + length bytes.now)) }
    ensures value { result ≡ page_head_at (record { at = at; bytes = bytes.now }) }
{
    reading_is_spelling();
    let mut reader = Reader::new(bytes, at);
    let header = read_entries(&mut reader, PageHeader::default(), 1)?;
    page_head(header, reader.place())
}
