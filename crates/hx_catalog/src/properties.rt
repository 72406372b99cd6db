//! The properties of a catalogue, `hats.properties`: nine lines, each a key, `=` and its value.
ghost use Rattle.std.specs.Prelude.{◌≡◌, ℕ, IfErr, IfOk};
ghost use Rattle.hx_catalog.specs.Lines.{IsFirstBroken, IsRefusedFor, OnlyDamagedAt, OnlyRead};
ghost use Rattle.hx_catalog.specs.Properties.{AreProperties, ArePropertyLines, kind_of, properties_text};
ghost use Rattle.hx_catalog.specs.declared.properties.Properties.{Properties};

use crate::fields::{kind_line, name_of, number_line, value_line};
use crate::fronts::behind;
use crate::refused::damaged;
use crate::writing::{push_field, push_number_field};
use hx_base::{HIGHEST_MARGIN_ORDER, HIGHEST_ORDER, MOST_IN_PARTITION, Settings, SpillRefusal};
use std::alloc::{AllocError, Global};

// The highest order of a partition and of a margin's pixels.
const HIGHEST: u64 = HIGHEST_ORDER as u64;

const HIGHEST_MARGIN: u64 = HIGHEST_MARGIN_ORDER as u64;

// The most partitions that properties can count.
const MOST_COUNTED: u64 = u32::MAX as u64;

// No text has more bytes.
const LONGEST_TEXT: usize = 200;

/// What `hats.properties` says of a catalogue or of its margin catalogue.
#[derive(Drop)]
pub struct Properties {
    /// What the catalogue was asked for.
    pub settings: Settings,
    /// Whether this is the margin catalogue.
    pub margin: bool,
    /// How many rows there are in all partitions.
    pub rows: u64,
    /// How many partitions there are.
    pub partitions: u32,
}

fn kind_of(margin: bool) -> &'static [u8]
    ensures { result.now ≡ kind_of margin }
{
    if margin { b"margin" } else { b"object" }
}

/// The text of properties.
pub fn properties_text(alloc: Global, of: &Properties) -> Result<Vec<u8>, AllocError>
    ensures { IfOk result (λ text. text.items ≡ properties_text of.now) }
{
    let settings = &of.settings;
    let mut text = Vec::with_capacity(alloc, LONGEST_TEXT)?;
    push_field(&mut text, b"format", b"hats-profile-1")?;
    push_field(&mut text, b"name", settings.name.as_str().as_bytes())?;
    push_field(&mut text, b"kind", kind_of(of.margin))?;
    push_number_field(&mut text, b"rows", of.rows)?;
    push_number_field(&mut text, b"lowest", u64::from(settings.lowest))?;
    push_number_field(&mut text, b"highest", u64::from(settings.highest))?;
    push_number_field(&mut text, b"threshold", settings.threshold)?;
    push_number_field(&mut text, b"margin_order", u64::from(settings.margin_order))?;
    push_number_field(&mut text, b"partitions", u64::from(of.partitions))?;
    Ok(text)
}

// The properties of a text, or the first line that breaks a rule.
fn properties_of(alloc: Global, bytes: &[u8]) -> Result<Properties, SpillRefusal>
    ensures read { IfOk result (λ of. AreProperties of × (bytes.now ≡ properties_text of)) }
    ensures refused { IfErr result (IsRefusedFor ArePropertyLines bytes.now) }
{
    let Some(rest) = behind(bytes, b"format=hats-profile-1\n") else {
        return Err(SpillRefusal::Damaged { place: 0 });
    };
    let (value, after) = value_line(bytes, rest, b"name")?;
    let Some(name) = name_of(alloc, value)? else {
        return Err(damaged(bytes, rest));
    };
    let (margin, rest) = kind_line(bytes, after)?;
    let (rows, rest) = number_line(bytes, rest, b"rows", 0, u64::MAX)?;
    let (lowest, rest) = number_line(bytes, rest, b"lowest", 0, HIGHEST)?;
    let (highest, rest) = number_line(bytes, rest, b"highest", lowest, HIGHEST)?;
    let (threshold, rest) = number_line(bytes, rest, b"threshold", 1, MOST_IN_PARTITION)?;
    let (margin_order, rest) = number_line(
        bytes,
        rest,
        b"margin_order",
        highest + 1,
        HIGHEST_MARGIN,
    )?;
    let (partitions, end) = number_line(bytes, rest, b"partitions", 0, MOST_COUNTED)?;
    if !end.is_empty() {
        return Err(damaged(bytes, end));
    }
    let settings = Settings {
        name,
        lowest: lowest as u8,
        highest: highest as u8,
        threshold,
        margin_order: margin_order as u8,
    };
    Ok(Properties {
        settings,
        margin,
        rows,
        partitions: partitions as u32,
    })
}

/// The properties of a text that is theirs: settings that fit, and any numbers of rows and partitions. Else it is
/// `Damaged` at the first line that breaks a rule, by the place of its first byte.
pub fn read_properties(alloc: Global, bytes: &[u8]) -> Result<Properties, SpillRefusal>
    ensures read { IfOk result (λ of. AreProperties of × (bytes.now ≡ properties_text of)) }
    ensures refused { IfErr result (IsRefusedFor ArePropertyLines bytes.now) }
    ensures only_read { (of : Properties) → AreProperties of → bytes.now ≡ properties_text of → OnlyRead (λ read. read ≡ of) result }
    ensures only_damaged { (place : ℕ) → IsFirstBroken ArePropertyLines bytes.now place → OnlyDamagedAt place result }
{
    properties_of(alloc, bytes)
}
