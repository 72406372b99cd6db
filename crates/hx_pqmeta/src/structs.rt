ghost use Rattle.std.specs.Prelude.{◌≡◌, ◌⊎◌, ◌↔◌, ◌+◌, ℕ, suc, List, [], map, IsTrue};
ghost use Rattle.std.specs.Option.{option_map, option_or};
ghost use Rattle.hx_thrift.specs.Values.{Entry, entries, Value};
ghost use Rattle.hx_thrift.specs.Kinds.{IsKind, list_kind, struct_kind};
ghost use Rattle.hx_thrift.specs.Reading.{value_at, struct_at, elements_at};
ghost use Rattle.hx_pqmeta.specs.Fields.{entries_in, structs_of};
ghost use Rattle.hx_pqmeta.specs.Answers.{Gives, Adds};

use crate::refusal::PqRefusal;
use crate::values::pass;
use hx_thrift::kind::{LIST, STRUCT};
use hx_thrift::{Field, ListHead, Reader};
use std::alloc::Global;

/// The fields of a struct that is read entry by entry.
pub trait Struct<'a>: Drop {
    /// How many containers stand inside each other in a field's value, at most: 32 less those around it.
    ghost levels: { ℕ };

    /// Whether it has lists, so that memory may be wanting.
    ghost wants: { Type 0 };

    /// What the entries say.
    ghost said: { List (Entry (Value levels)) → Self };

    /// Reads the value of one more entry, which stands inside `depth` containers.
    fn read_entry(
        &mut self,
        reader: &mut Reader<'a>,
        field: Field,
        depth: u32,
    ) -> Result<(), PqRefusal>
        requires kind { IsKind field.kind }
        requires depth { depth + levels ≡ 32 }
        ensures { Gives wants reader.new result (value_at levels field.kind reader.old)
            (λ _ value. Adds said self.old self.new (record { id = field.id; kind = field.kind; value = value })) };
}

/// A struct that is made where it is read: the file's own, or an element of a list.
pub trait Element<'a>: Struct<'a> {
    /// What no entries say.
    fn empty(alloc: Global) -> Self
        ensures { result ≡ Self.said [] };
}

/// Reads the entries of a struct, whose values stand inside `depth` containers. `fields` is what no entries say.
pub fn read_entries<'a, T: Struct<'a>>(
    reader: &mut Reader<'a>,
    mut fields: T,
    depth: u32,
) -> Result<T, PqRefusal>
    requires none { fields ≡ T.said [] }
    requires depth { depth + T.levels ≡ 32 }
    ensures { Gives T.wants reader.new result (struct_at (value_at T.levels) reader.old) (λ fields es. fields ≡ T.said es) }
{
    let mut last = 0;
    for _ in 0..reader.remaining() {
        match reader.field(last)? {
            None => return Ok(fields),
            Some(field) => {
                fields.read_entry(reader, field, depth)?;
                last = field.id;
            }
        }
    }
    Err(PqRefusal::Thrift { at: reader.place() })
}

/// Reads a struct that stands inside `depth` containers, as the value of a field or an element of a list.
pub fn read_struct<'a, T: Struct<'a>>(
    reader: &mut Reader<'a>,
    fields: T,
    depth: u32,
) -> Result<T, PqRefusal>
    requires none { fields ≡ T.said [] }
    requires depth { depth + 1 + T.levels ≡ 32 }
    ensures { Gives T.wants reader.new result (value_at (suc T.levels) struct_kind reader.old)
        (λ fields value. (es : List (Entry (Value T.levels))) × (value ≡ entries es) × (fields ≡ T.said es)) }
{
    read_entries(reader, fields, depth + 1)
}

/// Reads a list that stands inside `depth` containers into `kept`, if its elements are structs or it has none. Any other
/// list is passed over.
pub fn read_list<'a, T: Element<'a>>(
    alloc: Global,
    reader: &mut Reader<'a>,
    kept: &mut Option<Vec<T>>,
    depth: u32,
) -> Result<(), PqRefusal>
    requires { depth + 2 + T.levels ≡ 32 }
    ensures { Gives (Unit {0}) reader.new result (value_at (suc (suc T.levels)) list_kind reader.old)
        (λ _ list. option_map (λ v. v.items) kept.new ≡ option_or (option_map (map T.said) (structs_of list)) (option_map (λ v. v.items) kept.old)) }
{
    let mut ahead = reader.fork();
    let head = ahead.list()?;
    if may_hold_structs(head) {
        *reader = ahead;
        *kept = Some(read_structs(alloc, reader, head.size, depth + 1)?);
        return Ok(());
    }
    pass(reader, LIST, depth)?;
    Ok(())
}

// A list of size 0 fits every kind of element.
fn may_hold_structs(head: ListHead) -> bool
    ensures { IsTrue result ↔ ((head.kind ≡ struct_kind) ⊎ (head.size ≡ 0)) }
{
    head.kind == STRUCT || head.size == 0
}

// Reads so many structs, one after another, inside `depth` containers.
fn read_structs<'a, T: Element<'a>>(
    alloc: Global,
    reader: &mut Reader<'a>,
    size: u32,
    depth: u32,
) -> Result<Vec<T>, PqRefusal>
    requires { depth + 1 + T.levels ≡ 32 }
    ensures { Gives (Unit {0}) reader.new result (elements_at (value_at (suc T.levels) struct_kind) size reader.old)
        (λ found xs. found.items ≡ map T.said (map entries_in xs)) }
{
    let mut found = Vec::new(alloc);
    for _ in 0..size {
        let fields = read_struct(reader, T::empty(alloc), depth)?;
        found.push(fields)?;
    }
    Ok(found)
}
