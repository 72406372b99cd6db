ghost use Rattle.std.specs.Prelude.{◌≡◌, ◌↔◌, pos, ◌≤ℤ◌, IfOk, ◌+◌, ◌<◌, ◌≤◌, ◌^◌, IsTrue, length, map, take, drop};
ghost use Rattle.std.specs.List.{list_any};
ghost use Rattle.std.specs.Option.{option_map};
ghost use Rattle.hx_pqmeta.specs.Refusals.{AnswersOrWants, each};
ghost use Rattle.hx_pqmeta.specs.Footers.{footer_len, is_parquet, footer_text, below_root, leaf_of, group_of, footer_of, is_above_zero, is_nested, are_counts, rows_of, sound, footer_at, footer_in};

use crate::enumerations::{OPTIONAL, REQUIRED};
use crate::file::FileMetaData;
use crate::footer::{Footer, Group, Leaf};
use crate::refusal::{PqRefusal, needed};
use crate::row_group::RowGroup;
use crate::schema::SchemaElement;
use crate::structs::{Element, read_entries};
use hx_thrift::Reader;
use std::alloc::Global;

/// What a file begins and ends with.
pub const MAGIC: [u8; 4] = *b"PAR1";

// The bytes behind the footer: its length, and the last mark.
const TAIL: usize = 8;

/// Reads the footer of a whole file.
///
/// The first refusal is answered, in this order: NotParquet; Thrift, with its place in the file, where the footer
/// doesn't begin with a struct; Missing of the schema (102, also where it is empty), the rows (103) and the groups
/// (104), of each leaf's repetition and name (203, 204), and of each group's chunks and rows (301, 303); Nested; Counts.
/// Memory may come in place of each answer.
#[tactic(auto, unfolding(crate::specs::Footers::footer_in))]
pub fn read_footer(alloc: Global, bytes: &[u8]) -> Result<Footer, PqRefusal>
    ensures start { IfOk result (λ footer. (4 ≤ footer.start) × (footer.start + 8 ≤ length bytes.now)) }
    ensures rows { IfOk result (λ footer. rows_of footer.groups < 2 ^ 63) }
    ensures value { AnswersOrWants (λ footer. footer) result (footer_in bytes.now) }
{
    let (start, footer) = footer_text(bytes)?;
    footer_at(alloc, footer, start)
}

// The place of the footer in a whole file, and its bytes.
#[tactic(auto, unfolding(crate::specs::Footers::footer_text))]
fn footer_text(bytes: &[u8]) -> Result<(u64, &[u8]), PqRefusal>
    ensures start { IfOk result (λ x. (4 ≤ x.0) × (x.0 + length x.1.now + 8 ≡ length bytes.now)) }
    ensures range { IfOk result (λ x. x.0 + length x.1.now < 2 ^ 64) }
    ensures value { AnswersOrWants (λ x. record { at = x.0; bytes = x.1.now }) result (footer_text bytes.now) }
{
    if !is_parquet(bytes) {
        return Err(PqRefusal::NotParquet);
    }
    let len = footer_len(bytes);
    let start = bytes.len() - TAIL - len;
    Ok((start as u64, &bytes[start..][..len]))
}

fn is_parquet(bytes: &[u8]) -> bool
    ensures whole { IsTrue result → footer_len bytes.now + 12 ≤ length bytes.now }
    ensures test { result ≡ is_parquet bytes.now }
{
    bytes.len() >= 12
        && bytes.starts_with(&MAGIC)
        && bytes.ends_with(&MAGIC)
        && footer_len(bytes) <= bytes.len() - 12
}

fn footer_len(bytes: &[u8]) -> usize
    requires { 12 ≤ length bytes.now }
    ensures { result ≡ footer_len bytes.now }
{
    let (_, tail) = bytes.split_at(bytes.len() - TAIL);
    u32::from_le_bytes([tail[0], tail[1], tail[2], tail[3]]) as usize
}

// The footer that begins at the place `start`, by the bytes from there on.
#[tactic(auto, unfolding(crate::specs::Footers::footer_at))]
fn footer_at(alloc: Global, bytes: &[u8], start: u64) -> Result<Footer, PqRefusal>
    requires { start + length bytes.now < 2 ^ 64 }
    ensures start { IfOk result (λ footer. footer.start ≡ start) }
    ensures rows { IfOk result (λ footer. rows_of footer.groups < 2 ^ 63) }
    ensures value { AnswersOrWants (λ footer. footer) result (footer_at (record { at = start; bytes = bytes.now })) }
{
    let mut reader = Reader::new(bytes, start);
    let fields = read_entries(&mut reader, FileMetaData::empty(alloc), 1)?;
    sound(footer_of(alloc, start, fields)?)
}

// The footer with these fields, each of which has to be there.
#[tactic(auto, unfolding(crate::specs::Footers::footer_of))]
fn footer_of(alloc: Global, start: u64, fields: FileMetaData<'_>) -> Result<Footer, PqRefusal>
    ensures start { IfOk result (λ footer. footer.start ≡ start) }
    ensures value { AnswersOrWants (λ footer. footer) result (footer_of start fields.entry) }
{
    let schema = needed(fields.schema, 102)?;
    let elements = below_root(&schema)?;
    let rows = needed(fields.rows, 103)?;
    let groups = needed(fields.groups, 104)?;
    let leaves = leaves_of(alloc, elements)?;
    let groups = groups_of(alloc, groups)?;
    Ok(Footer::new(start, rows, leaves, groups))
}

fn below_root<'a, 'b>(schema: &'b [SchemaElement<'a>]) -> Result<&'b [SchemaElement<'a>], PqRefusal>
    ensures { AnswersOrWants (λ elements. elements.now) result (below_root schema.now) }
{
    match schema {
        [] => Err(PqRefusal::Missing { field: 102 }),
        [_, elements @ ..] => Ok(elements),
    }
}

fn leaves_of(alloc: Global, elements: &[SchemaElement<'_>]) -> Result<Vec<Leaf>, PqRefusal>
    ensures { AnswersOrWants (λ leaves. leaves.items) result (each leaf_of elements.now) }
{
    let mut leaves = Vec::new(alloc);
    for element in elements {
        let leaf = leaf_of(alloc, element)?;
        leaves.push(leaf)?;
    }
    Ok(leaves)
}

#[tactic(auto, unfolding(crate::specs::Footers::leaf_of))]
fn leaf_of(alloc: Global, element: &SchemaElement<'_>) -> Result<Leaf, PqRefusal>
    ensures { AnswersOrWants (λ leaf. leaf) result (leaf_of element.now) }
{
    let repetition = needed(element.repetition, 203)?;
    let name = needed(element.name, 204)?;
    let name = name.to_vec(alloc)?;
    Ok(Leaf::new(element.kind, repetition, name, element.children))
}

fn groups_of(alloc: Global, row_groups: Vec<RowGroup>) -> Result<Vec<Group>, PqRefusal>
    ensures { AnswersOrWants (λ groups. groups.items) result (each group_of row_groups.items) }
{
    let mut groups = Vec::new(alloc);
    for row_group in row_groups {
        let group = group_of(row_group)?;
        groups.push(group)?;
    }
    Ok(groups)
}

#[tactic(auto, unfolding(crate::specs::Footers::group_of))]
fn group_of(fields: RowGroup) -> Result<Group, PqRefusal>
    ensures { AnswersOrWants (λ group. group) result (group_of fields) }
{
    let chunks = needed(fields.chunks, 301)?;
    let rows = needed(fields.rows, 303)?;
    Ok(Group::new(rows, chunks))
}

// A footer is refused where a leaf is nested, or the rows aren't counted right.
#[tactic(auto, unfolding(crate::specs::Footers::sound))]
fn sound(footer: Footer) -> Result<Footer, PqRefusal>
    ensures start { IfOk result (λ x. x.start ≡ footer.start) }
    ensures rows { IfOk result (λ x. rows_of x.groups < 2 ^ 63) }
    ensures value { AnswersOrWants (λ footer. footer) result (sound footer) }
{
    if has_nested(footer.leaves()) {
        return Err(PqRefusal::Nested);
    }
    if are_counts(footer.rows(), footer.groups()) {
        Ok(footer)
    } else {
        Err(PqRefusal::Counts)
    }
}

fn has_nested(leaves: &[Leaf]) -> bool
    ensures { result ≡ list_any is_nested leaves.now }
{
    leaves.iter().any(|leaf| is_nested(leaf))
}

fn is_nested(leaf: &Leaf) -> bool
    ensures { result ≡ is_nested leaf.now }
{
    is_above_zero(leaf.children())
        || !(leaf.repetition() == REQUIRED || leaf.repetition() == OPTIONAL)
}

fn is_above_zero(number: Option<i32>) -> bool
    ensures { result ≡ is_above_zero number }
{
    match number {
        None => false,
        Some(number) => 0 < number,
    }
}

// Whether the counts of rows aren't negative and sum to `rows`.
fn are_counts(rows: i64, groups: &[Group]) -> bool
    ensures { result ≡ are_counts rows (map (λ group. group.rows) groups.now) }
{
    if rows < 0 {
        return false;
    }
    let mut left = rows;
    for group in groups {
        let count = group.rows();
        if !lies_within(count, left) {
            return false;
        }
        left -= count;
    }
    left == 0
}

fn lies_within(count: i64, left: i64) -> bool
    ensures { IsTrue result ↔ ((pos 0 ≤ℤ count) × (count ≤ℤ left)) }
{
    0 <= count && count <= left
}
