//! What is known of headers and of the files of journals.
ghost use Rattle.std.specs.Prelude.{ℕ};
ghost use Rattle.hx_journal.specs.Journal.{IsFirstDamage, IsJournal};
ghost use Rattle.hx_journal.specs.Laws.{BeginsOneHeader, DamagedIsNoJournal, HasOneFirstDamage, IsRefusedByFault, NamesOneJob, OpeningKeepsRecords, OpensAsItStands, RestsOverOthers, SaysOneHeading, StandsAtRest, StandsForOneJournal};

use crate::opening::first_damage;
use hx_outside::Store;

/// No header is the front of another: what begins with two headers begins with one, and goes on in one way.
pub fn no_header_begins_another()
    ensures { BeginsOneHeader }
{}

/// A header says one thing. So jobs with one header have the same settings, and inputs of the same lengths and words.
pub fn a_header_names_one_job()
    ensures heading { SaysOneHeading }
    ensures job { NamesOneJob }
{}

/// A journal's file stands for one header and one list of records.
pub fn a_file_is_one_journal()
    ensures { StandsForOneJournal }
{}

/// Bytes have one first damaged place at most; those with one are no journal; and those without one are a journal.
pub fn damage_is_exact(bytes: &[u8])
    ensures place { HasOneFirstDamage }
    ensures damaged { DamagedIsNoJournal }
    ensures whole { ((place : ℕ) → ¬ (IsFirstDamage bytes.now place)) → IsJournal bytes.now }
{
    first_damage(bytes);
}

/// A file that stands for a journal opens with that header and those records, or there is a fault or want of memory; and
/// opening changes no record.
pub fn a_journal_opens_as_it_stands()
    ensures opened { OpensAsItStands }
    ensures refused { IsRefusedByFault }
    ensures kept { OpeningKeepsRecords }
{}

/// A journal at rest stands for its header and records in each folder that a crash may leave, and is at rest still after
/// calls on other files.
pub fn a_journal_rests<S: Store>()
    ensures stands { StandsAtRest S.disk }
    ensures others { RestsOverOthers S.disk }
{}
