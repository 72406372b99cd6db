//! A catalogue that is opened by its properties and the list of its partitions.
ghost use Rattle.std.specs.Prelude.{◌≡◌, ◌⊎◌, false, IfErr, IfOk, MatchOption, Some};
ghost use Rattle.hx_base.specs.declared.refusal.JobFile.TheVariants.{List as ListFile};
ghost use Rattle.hx_outside.specs.Disk.{Passes};
ghost use Rattle.hx_outside.specs.Folders.{Same};
ghost use Rattle.hx_catalog.specs.Answers.{AreOthers, HasFaultCause, IsDamagedAt, IsExact, IsListDamage, IsNotOpened, IsOutside, IsPropertiesDamage, IsUnread, MayRefuseOpening, Opened, Opens};
ghost use Rattle.hx_catalog.specs.Catalogues.{HasList, HasProperties};
ghost use Rattle.hx_catalog.specs.Files.{list_file};
ghost use Rattle.hx_catalog.specs.Lists.{IsList};
ghost use Rattle.hx_catalog.specs.Properties.{AreProperties, properties_text};
ghost use Rattle.hx_catalog.specs.declared.properties.Properties.{Properties as PropertiesRecord};

use crate::files::{NO_PIXEL, damaged_file, file_of};
use crate::lists::read_list;
use crate::properties::{Properties, read_properties};
use hx_base::{JobFile, Name, Pixel, Refusal, SpillRefusal};
use hx_outside::Store;
use hx_ptree::PixelTree;
use std::alloc::Global;
use std::marker::Model;

// Where the line of the name begins in properties, and that of the kind where the name has no byte.
const NAME_LINE: u64 = 22;

const KIND_LINE: u64 = 28;

/// A catalogue that was opened. It is seen as its properties, the list of its partitions' pixels, and the side by
/// which refusals name it: 1 for the left or only name, 2 for the right one.
#[derive(Drop)]
pub struct Catalogue {
    pub(crate) alloc: Global,
    pub(crate) properties: Properties,
    pub(crate) tree: PixelTree,
    pub(crate) side: u8,
}

impl Model for Catalogue {
    ghost use Rattle.hx_catalog.specs.Answers as Answers;
    ghost use Rattle.hx_catalog.specs.Lists as Lists;
    ghost use Rattle.hx_catalog.specs.Properties as Texts;

    ghost Value = { Answers.Opened };

    ghost view = { λ catalogue. record { properties = catalogue.properties; parts = catalogue.tree; side = catalogue.side } };

    ghost invariant = { λ catalogue. Texts.AreProperties catalogue.properties × Lists.IsList catalogue.tree };
}

// The line that is another catalogue's, of the name or else of the kind, by its place; none where both are those of
// the catalogue that has the name.
fn others_line(properties: &Properties, name: &Name) -> Option<u64>
    ensures { MatchOption result ((properties.now.settings.name ≡ name.now) × (properties.now.margin ≡ false)) (AreOthers name.now properties.now) }
{
    if properties.settings.name.as_str() != name.as_str() {
        return Some(NAME_LINE);
    }
    if properties.margin {
        return Some(KIND_LINE + name.as_str().len() as u64);
    }
    None
}

// The properties of the catalogue that has the name.
fn own_properties(alloc: Global, bytes: &[u8], name: &Name) -> Result<Properties, SpillRefusal>
    ensures valid { IfOk result AreProperties }
    ensures text { IfOk result (λ (of : PropertiesRecord). bytes.now ≡ properties_text of) }
    ensures own { IfOk result (λ (of : PropertiesRecord). (of.settings.name ≡ name.now) × (of.margin ≡ false)) }
    ensures refused { IfErr result (IsUnread (IsPropertiesDamage name.now (Some bytes.now))) }
{
    let properties = read_properties(alloc, bytes)?;
    match others_line(&properties, name) {
        None => Ok(properties),
        Some(place) => Err(SpillRefusal::Damaged { place }),
    }
}

fn open_properties<S: Store>(
    alloc: Global,
    store: &mut S,
    name: &Name,
    side: u8,
) -> Result<Properties, Refusal>
    ensures unchanged { S.disk.tells store.old → Passes S.disk store.old store.new Same }
    ensures valid { IfOk result AreProperties }
    ensures opened { S.disk.tells store.old → IfOk result (HasProperties (S.disk.reads store.old) name.now) }
    ensures refused { S.disk.tells store.old → IfErr result (λ given. IsNotOpened (S.disk.reads store.old) name.now side given ⊎ IsOutside given) }
    ensures kinds { IfErr result (MayRefuseOpening side) }
    ensures cause { HasFaultCause S.disk.faults store.old store.new result }
{
    let Some(bytes) = file_of(alloc, store, name, JobFile::Properties, NO_PIXEL)? else {
        return Err(Refusal::NoCatalogue { side });
    };
    match own_properties(alloc, &bytes, name) {
        Ok(properties) => Ok(properties),
        Err(refusal) => Err(damaged_file(side, JobFile::Properties, refusal)),
    }
}

fn open_list<S: Store>(
    alloc: Global,
    store: &mut S,
    name: &Name,
    side: u8,
) -> Result<Vec<Pixel>, Refusal>
    ensures unchanged { S.disk.tells store.old → Passes S.disk store.old store.new Same }
    ensures valid { IfOk result (λ parts. IsList parts.items) }
    ensures opened { S.disk.tells store.old → IfOk result (λ parts. HasList (S.disk.reads store.old) name.now parts.items) }
    ensures refused { S.disk.tells store.old → IfErr result (λ given. IsDamagedAt side ListFile (IsListDamage (S.disk.reads store.old (list_file name.now))) given ⊎ IsOutside given) }
    ensures kinds { IfErr result (MayRefuseOpening side) }
    ensures cause { HasFaultCause S.disk.faults store.old store.new result }
{
    let Some(bytes) = file_of(alloc, store, name, JobFile::List, NO_PIXEL)? else {
        return Err(Refusal::Damaged {
            side,
            file: JobFile::List,
            place: 0,
        });
    };
    match read_list(alloc, &bytes) {
        Ok(parts) => Ok(parts),
        Err(refusal) => Err(damaged_file(side, JobFile::List, refusal)),
    }
}

/// Opens the catalogue of a name: its properties and the list of its partitions. No file changes, and no folder that a
/// crash may leave is added. Refusals name the side.
///
/// Over a store that tells its files, `NoCatalogue` comes exactly where the properties are absent. `Damaged` comes
/// exactly where the properties aren't those of a catalogue of that name, or the list isn't one: at the first line that
/// breaks a rule; in properties that are another catalogue's at the line of the name, or else of the kind; and at 0
/// where the list is absent. Either yields to `StoreFault`, which comes only where the store's count of faults rose,
/// and to `Memory`.
pub fn open_catalogue<S: Store>(
    alloc: Global,
    store: &mut S,
    name: &Name,
    side: u8,
) -> Result<Catalogue, Refusal>
    ensures unchanged { S.disk.tells store.old → Passes S.disk store.old store.new Same }
    ensures exact { S.disk.tells store.old → IsExact (Opens (S.disk.reads store.old) name.now side) result }
    ensures side { IfOk result (λ (opened : Opened). opened.side ≡ side) }
    ensures kinds { IfErr result (MayRefuseOpening side) }
    ensures cause { HasFaultCause S.disk.faults store.old store.new result }
{
    let properties = match open_properties(alloc, store, name, side) {
        Ok(properties) => properties,
        Err(refusal) => return Err(refusal),
    };
    let parts = match open_list(alloc, store, name, side) {
        Ok(parts) => parts,
        Err(given) => return Err(given),
    };
    let tree = PixelTree::build(alloc, &parts)?;
    Ok(Catalogue {
        alloc,
        properties,
        tree,
        side,
    })
}

impl Catalogue {
    /// What `hats.properties` says of it.
    pub fn properties(&self) -> &Properties
        ensures properties { result.now ≡ self.now.properties }
        ensures valid { AreProperties self.now.properties }
    {
        &self.properties
    }

    /// Its partitions as a search.
    pub fn tree(&self) -> &PixelTree
        ensures parts { result.now ≡ self.now.parts }
        ensures list { IsList self.now.parts }
    {
        &self.tree
    }

    /// The pixels of its partitions, by their first positions.
    pub fn parts(&self) -> &[Pixel]
        ensures parts { result.now ≡ self.now.parts }
        ensures list { IsList self.now.parts }
    {
        self.tree.parts()
    }
}
