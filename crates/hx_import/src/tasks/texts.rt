//! The lists of partitions and the properties.
ghost use Rattle.std.specs.Prelude.{◌≡◌, IfErr, IfOk};
ghost use Rattle.hx_base.specs.declared.refusal.JobFile.TheVariants.{List, MarginList, MarginProperties, Properties as PropertiesFile};
ghost use Rattle.hx_base.specs.declared.refusal.Refusal.TheVariants.{Memory};
ghost use Rattle.hx_book.specs.Books.{job_of};
ghost use Rattle.hx_book.specs.Values.{IsFileOf};
ghost use Rattle.hx_catalog.specs.Properties.{properties_text};
ghost use Rattle.hx_import.specs.Given.{HasMargins, HasRows, IsCutFor};

use crate::tasks::cutting::Cut;
use hx_base::{Refusal, Settings};
use hx_book::Job;
use hx_catalog::{Properties, list_text, properties_text};
use std::alloc::Global;

/// The file of the list of partitions, which is the same for the catalogue and its margin catalogue.
///
/// # Errors
///
/// `Memory`.
pub fn list_file<J: Job>(alloc: Global, cut: &Cut) -> Result<Vec<u8>, Refusal>
    requires cut { IsCutFor J.of cut.now.plan cut.now.tree }
    ensures own { IfOk result (λ file. J.of.premises → IsFileOf (job_of J.of) file.items List) }
    ensures margin { IfOk result (λ file. J.of.premises → IsFileOf (job_of J.of) file.items MarginList) }
    ensures cause { IfErr result (λ r. r ≡ Memory) }
{
    Ok(list_text(alloc, cut.tree.parts())?)
}

// The text of the properties of a catalogue or of its margin catalogue.
fn text_of(
    alloc: Global,
    settings: &Settings,
    margin: bool,
    rows: u64,
    partitions: u32,
) -> Result<Vec<u8>, Refusal>
    ensures text { IfOk result (λ text. text.items ≡ properties_text (record { settings = settings.now; margin = margin; rows = rows; partitions = partitions })) }
    ensures cause { IfErr result (λ r. r ≡ Memory) }
{
    let settings = settings.copy()?;
    let properties = Properties {
        settings,
        margin,
        rows,
        partitions,
    };
    Ok(properties_text(alloc, &properties)?)
}

/// The file of the margin catalogue's properties, by how many rows all margins have, and how many partitions there are.
///
/// # Errors
///
/// `Memory`.
pub fn margin_properties_file<J: Job>(
    alloc: Global,
    settings: &Settings,
    margin: u64,
    partitions: u32,
) -> Result<Vec<u8>, Refusal>
    requires settings { settings.now ≡ J.of.settings }
    requires numbers { J.of.premises → HasMargins (job_of J.of) margin partitions }
    ensures value { IfOk result (λ file. J.of.premises → IsFileOf (job_of J.of) file.items MarginProperties) }
    ensures cause { IfErr result (λ r. r ≡ Memory) }
{
    text_of(alloc, settings, true, margin, partitions)
}

/// The file of the catalogue's properties, by how many rows and partitions there are.
///
/// # Errors
///
/// `Memory`.
pub fn properties_file<J: Job>(
    alloc: Global,
    settings: &Settings,
    rows: u64,
    partitions: u32,
) -> Result<Vec<u8>, Refusal>
    requires settings { settings.now ≡ J.of.settings }
    requires numbers { J.of.premises → HasRows (job_of J.of) rows partitions }
    ensures value { IfOk result (λ file. J.of.premises → IsFileOf (job_of J.of) file.items PropertiesFile) }
    ensures cause { IfErr result (λ r. r ≡ Memory) }
{
    text_of(alloc, settings, false, rows, partitions)
}
