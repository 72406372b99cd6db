//! The journal of a job, as it is found or made, and the plan that it recorded.
ghost use Rattle.std.specs.Prelude.{◌≡◌, ◌⊎◌, ◌≤◌, ◌++◌, ◌∷◌, [], ℕ, List, IfErr, IfOk, IfSome, None, Ok, OnOk, Some, is_some, length};
ghost use Rattle.hx_align.specs.Plans.{pixels_of};
ghost use Rattle.hx_align.specs.declared.plan.PlanRow.{PlanRow};
ghost use Rattle.hx_base.specs.Limits.{most_inputs};
ghost use Rattle.hx_base.specs.declared.refusal.Refusal.TheVariants.{Memory};
ghost use Rattle.hx_journal.specs.Headers.{IsHeader};
ghost use Rattle.hx_journal.specs.Journal.{IsReady, journal_file};
ghost use Rattle.hx_journal.specs.Refusals.{IsOpened};
ghost use Rattle.hx_outside.specs.Disk.{Passes};
ghost use Rattle.hx_outside.specs.Folders.{Folder, Same};
ghost use Rattle.hx_spill.specs.Plans.{plan_in};
ghost use Rattle.hx_book.specs.Books.{AreKept, HasPlan, IsBarred, IsEarly, IsFound, IsFoundCause, IsNew, IsOnlyTrimmed, IsOpenedFrom, IsOpening, IsOther, IsWalkCause, ShowsWhy, job_of, of_journal};
ghost use Rattle.hx_book.specs.Recordings.{IsStoreCause};
ghost use Rattle.hx_book.specs.Resumable.{header_bytes};
ghost use Rattle.hx_book.specs.Tasks.{AreParts, properties_path};

use crate::files::of_store;
use crate::job::Job;
use crate::progress::{Progress, walk};
use crate::schedule::{LISTS, SPLIT};
use hx_base::{JobFile, Name, Pixel, Refusal, SpillRefusal, job_path};
use hx_journal::{Journal, JournalRefusal, create, header_difference, open};
use hx_outside::{Store, StoreError};
use hx_publish::read_file;
use hx_spill::read_plan;
use std::alloc::Global;

// The pixel by which a file is named that is of no partition.
const NO_PIXEL: Pixel = Pixel {
    order: 0,
    number: 0,
};

/// A journal, how far its records go, and the partitions of its plan.
#[derive(Drop)]
pub(crate) struct Found {
    pub journal: Journal,
    pub progress: Progress,
    pub parts: Vec<Pixel>,
}

fn of_journal(refusal: JournalRefusal) -> Refusal
    ensures { result ≡ of_journal refusal }
{
    let place = match refusal {
        JournalRefusal::Absent => 0,
        JournalRefusal::Damaged { place } => place,
        JournalRefusal::StoreFault => return Refusal::StoreFault,
        JournalRefusal::Memory => return Refusal::Memory,
    };
    Refusal::Damaged {
        side: 1,
        file: JobFile::Journal,
        place,
    }
}

// The journal that the job left, None where there is none.
#[tactic(none)]
fn open_kept<J: Job, S: Store>(
    alloc: Global,
    store: &mut S,
    name: &Name,
) -> Result<Option<Journal>, Refusal>
    requires opening { IsOpening J.of S.disk store.old }
    requires unchanged { J.of.tells → (f : Folder) → S.disk.left_since store.old J.of.moment f → J.of.opening f }
    requires name { name.now ≡ J.of.settings.name }
    requires few { length J.of.origins ≤ most_inputs }
    requires heading { J.of.premises → IsHeader (header_bytes (job_of J.of)) }
    ensures opening { IsOpening J.of S.disk store.new }
    ensures only { J.of.tells → IsOnlyTrimmed J.of S.disk store.new }
    ensures file { IfOk result (λ found. IfSome found (λ journal. journal.file ≡ journal_file J.of.settings.name)) }
    ensures ready { J.of.tells → IfOk result (λ found. IfSome found (IsReady S.disk store.new)) }
    ensures header { J.of.premises → IfOk result (λ found. IfSome found (λ journal. journal.header ≡ header_bytes (job_of J.of))) }
    ensures absent { J.of.tells → IfOk result (λ found. found ≡ None → (f : Folder) → S.disk.may_leave store.new f → f (journal_file J.of.settings.name) ≡ None) }
    ensures opened { J.of.tells → IfOk result (λ found. IfSome found (IsOpened (journal_file J.of.settings.name) (S.disk.reads store.old (journal_file J.of.settings.name)))) }
    ensures missing { J.of.tells → IfOk result (λ found. found ≡ None → S.disk.reads store.old (journal_file J.of.settings.name) ≡ None) }
    ensures properties { J.of.tells → S.disk.reads store.new (properties_path J.of.settings.name) ≡ S.disk.reads store.old (properties_path J.of.settings.name) }
    ensures late { IfErr result (λ r. IsEarly r → ⊥) }
    ensures shows { (header : List ℕ) → J.of.tells → IfErr result (ShowsWhy J.of.settings.name header (S.disk.reads store.old)) }
    ensures cause { IfErr result (IsFoundCause J.of (S.disk.faults store.new)) }
{
    match open(alloc, store, name) {
        Ok(journal) => Ok(Some(journal)),
        Err(JournalRefusal::Absent) => Ok(None),
        Err(JournalRefusal::Damaged { place }) => Err(Refusal::Damaged {
            side: 1,
            file: JobFile::Journal,
            place,
        }),
        Err(JournalRefusal::StoreFault) => Err(Refusal::StoreFault),
        Err(JournalRefusal::Memory) => Err(Refusal::Memory),
    }
}

// Whether the catalogue's properties stand.
fn has_properties<S: Store>(alloc: Global, store: &mut S, name: &Name) -> Result<bool, Refusal>
    ensures passes { S.disk.tells store.old → Passes S.disk store.old store.new Same }
    ensures there { S.disk.tells store.old → IfOk result (λ there. there ≡ is_some (S.disk.reads store.old (properties_path name.now))) }
    ensures later { S.disk.faults store.old ≤ S.disk.faults store.new }
    ensures cause { IfErr result (IsStoreCause (S.disk.faults store.old) (S.disk.faults store.new)) }
{
    let path = job_path(alloc, name, JobFile::Properties, NO_PIXEL)?;
    match store.len(path.as_str()) {
        Ok(len) => Ok(len.is_some()),
        Err(error) => Err(of_store(error)),
    }
}

// A new journal, where there is none.
#[tactic(none)]
fn make<J: Job, S: Store>(
    alloc: Global,
    store: &mut S,
    name: &Name,
    header: &[u8],
) -> Result<Journal, Refusal>
    requires opening { IsOpening J.of S.disk store.old }
    requires absent { J.of.tells → (f : Folder) → S.disk.may_leave store.old f → f (journal_file J.of.settings.name) ≡ None }
    requires name { name.now ≡ J.of.settings.name }
    requires few { length J.of.origins ≤ most_inputs }
    requires heading { IsHeader header.now }
    requires header { J.of.premises → header.now ≡ header_bytes (job_of J.of) }
    ensures opening { IsOpening J.of S.disk store.new }
    ensures file { IfOk result (λ journal. journal.file ≡ journal_file J.of.settings.name) }
    ensures ready { J.of.tells → IfOk result (IsReady S.disk store.new) }
    ensures header { J.of.tells → IfOk result (IsNew header.now) }
    ensures late { IfErr result (λ r. IsEarly r → ⊥) }
    ensures cause { IfErr result (IsFoundCause J.of (S.disk.faults store.new)) }
{
    match create(alloc, store, name, header) {
        Ok(()) => {}
        Err(error) => return Err(of_store(error)),
    }
    match open(alloc, store, name) {
        Ok(journal) => Ok(journal),
        Err(refusal) => Err(of_journal(refusal)),
    }
}

// The journal that the job left, or else a new one where the name is free.
#[tactic(none)]
fn open_or_make<J: Job, S: Store>(
    alloc: Global,
    store: &mut S,
    name: &Name,
    header: &[u8],
) -> Result<Journal, Refusal>
    requires opening { IsOpening J.of S.disk store.old }
    requires unchanged { J.of.tells → (f : Folder) → S.disk.left_since store.old J.of.moment f → J.of.opening f }
    requires name { name.now ≡ J.of.settings.name }
    requires few { length J.of.origins ≤ most_inputs }
    requires heading { IsHeader header.now }
    requires header { J.of.premises → header.now ≡ header_bytes (job_of J.of) }
    ensures opening { IsOpening J.of S.disk store.new }
    ensures file { IfOk result (λ journal. journal.file ≡ journal_file J.of.settings.name) }
    ensures ready { J.of.tells → IfOk result (IsReady S.disk store.new) }
    ensures header { J.of.premises → IfOk result (λ journal. journal.header ≡ header.now) }
    ensures other { J.of.tells → IfOk result (λ journal. (journal.header ≡ header.now) ⊎ IsOnlyTrimmed J.of S.disk store.new) }
    ensures early { J.of.tells → IfErr result (λ r. IsEarly r → IsOnlyTrimmed J.of S.disk store.new) }
    ensures origin { J.of.tells → IfOk result (IsOpenedFrom (job_of J.of) header.now (S.disk.reads store.old)) }
    ensures shows { J.of.tells → IfErr result (ShowsWhy J.of.settings.name header.now (S.disk.reads store.old)) }
    ensures cause { IfErr result (IsFoundCause J.of (S.disk.faults store.new)) }
{
    match open_kept::<J, S>(alloc, store, name) {
        Ok(Some(journal)) => return Ok(journal),
        Ok(None) => {}
        Err(refusal) => return Err(refusal),
    }
    match has_properties(alloc, store, name) {
        Ok(false) => make::<J, S>(alloc, store, name, header),
        Ok(true) => Err(Refusal::NameTaken),
        Err(refusal) => Err(refusal),
    }
}

// Refuses the journal of another job.
fn check_header(journal: &Journal, header: &[u8]) -> Result<(), Refusal>
    requires { IsHeader header.now }
    ensures same { OnOk result (journal.now.header ≡ header.now) }
    ensures other { IfErr result (λ r. IsOther journal.now.header header.now r × (journal.now.header ≡ header.now → ⊥)) }
{
    match header_difference(journal.header(), header) {
        None => Ok(()),
        Some(at) => Err(Refusal::OtherJob {
            place: at.place,
            kept: at.kept,
            asked: at.asked,
        }),
    }
}

// The partitions of a plan's file, if they are so many.
fn parts_of(alloc: Global, bytes: &[u8], partitions: u32) -> Result<Vec<Pixel>, Refusal>
    ensures parts { (plan : List PlanRow) → plan_in bytes.now ≡ Ok plan → length plan ≡ partitions → IfOk result (λ parts. parts.items ≡ pixels_of plan) }
    ensures never { (plan : List PlanRow) → plan_in bytes.now ≡ Ok plan → length plan ≡ partitions → IfErr result (λ r. r ≡ Memory) }
    ensures cause { IfErr result IsWalkCause }
{
    let damaged = Refusal::Damaged {
        side: 1,
        file: JobFile::Plan,
        place: 0,
    };
    let plan = match read_plan(alloc, bytes) {
        Ok(plan) => plan,
        Err(SpillRefusal::Memory) => return Err(Refusal::Memory),
        Err(SpillRefusal::Damaged { place }) => {
            return Err(Refusal::Damaged {
                side: 1,
                file: JobFile::Plan,
                place,
            });
        }
    };
    let pixels = plan.pixels();
    if pixels.len() != partitions as usize {
        return Err(damaged);
    }
    Ok(pixels.to_vec(alloc)?)
}

// The partitions of the plan that is recorded, where tasks go by them.
fn read_parts<J: Job, S: Store>(
    alloc: Global,
    store: &mut S,
    name: &Name,
    stage: u8,
    partitions: u32,
) -> Result<Vec<Pixel>, Refusal>
    requires count { J.of.before ≤ S.disk.faults store.old }
    requires tells { J.of.premises → S.disk.tells store.old }
    requires plan { J.of.premises → 3 ≤ stage → stage ≤ 7 → HasPlan (job_of J.of) name.now partitions (S.disk.reads store.old) }
    ensures passes { S.disk.tells store.old → Passes S.disk store.old store.new Same }
    ensures later { S.disk.faults store.old ≤ S.disk.faults store.new }
    ensures parts { J.of.premises → 3 ≤ stage → stage ≤ 7 → IfOk result (λ parts. AreParts (job_of J.of) parts.items) }
    ensures cause { IfErr result (IsFoundCause J.of (S.disk.faults store.new)) }
    ensures late { IfErr result (λ r. IsEarly r → ⊥) }
{
    if stage < SPLIT || stage > LISTS {
        return Ok(Vec::new(alloc));
    }
    let path = job_path(alloc, name, JobFile::Plan, NO_PIXEL)?;
    match read_file(alloc, store, path.as_str()) {
        Ok(Some(bytes)) => parts_of(alloc, &bytes, partitions),
        Ok(None) => Err(Refusal::Damaged {
            side: 1,
            file: JobFile::Plan,
            place: 0,
        }),
        Err(error) => Err(of_store(error)),
    }
}

/// What the work files of a name keep of a job with this header: its journal, which is made where the name is free, how
/// far the records go, and the partitions where tasks go by them.
///
/// `NameTaken` and `OtherJob` come before anything is changed but what stands behind the journal's first closed gate; of
/// a job that is under way neither comes, and nothing is damaged.
pub(crate) fn find<J: Job, S: Store>(
    alloc: Global,
    store: &mut S,
    name: &Name,
    header: &[u8],
    inputs: u32,
) -> Result<Found, Refusal>
    requires opening { IsOpening J.of S.disk store.old }
    requires unchanged { J.of.tells → (f : Folder) → S.disk.left_since store.old J.of.moment f → J.of.opening f }
    requires name { name.now ≡ J.of.settings.name }
    requires few { length J.of.origins ≤ most_inputs }
    requires some { 1 ≤ inputs }
    requires inputs { inputs ≡ length J.of.origins }
    requires heading { IsHeader header.now }
    requires header { J.of.premises → header.now ≡ header_bytes (job_of J.of) }
    ensures opening { IsOpening J.of S.disk store.new }
    ensures found { IfOk result (λ found. IsFound J.of S.disk store.new inputs found.journal found.parts.items found.progress.partitions found.progress.stage found.progress.from found.progress.flags.items) }
    ensures early { J.of.tells → IfErr result (λ r. IsEarly r → IsOnlyTrimmed J.of S.disk store.new) }
    ensures kept { J.of.tells → IfOk result (λ found. AreKept (job_of J.of) (S.disk.reads store.old) found.journal.records) }
    ensures shows { J.of.tells → IfErr result (ShowsWhy J.of.settings.name header.now (S.disk.reads store.old)) }
    ensures barred { J.of.tells → IsBarred J.of.settings.name header.now (S.disk.reads store.old) → IfOk result (λ _. ⊥) }
    ensures cause { IfErr result (IsFoundCause J.of (S.disk.faults store.new)) }
{
    let journal = open_or_make::<J, S>(alloc, store, name, header)?;
    check_header(&journal, header)?;
    let progress = walk::<J>(alloc, inputs, header.len() as u64, journal.records())?;
    let parts = read_parts::<J, S>(alloc, store, name, progress.stage, progress.partitions)?;
    Ok(Found {
        journal,
        progress,
        parts,
    })
}
