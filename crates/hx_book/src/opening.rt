//! The opening of a book.
ghost use Rattle.std.specs.Prelude.{◌≡◌, ◌⊎◌, ◌≤◌, ℕ, List, All, IfErr, IfOk, None, Some, length, map};
ghost use Rattle.hx_base.specs.FileWords.{IsFileWord};
ghost use Rattle.hx_base.specs.Limits.{FitsLimits, most_inputs};
ghost use Rattle.hx_base.specs.Names.{IsName};
ghost use Rattle.hx_base.specs.declared.refusal.Refusal.TheVariants.{TooMany};
ghost use Rattle.hx_inputs.specs.Inputs.{too_long};
ghost use Rattle.hx_inputs.specs.Sources.{SameSources, Tell};
ghost use Rattle.hx_journal.specs.Headers.{IsHeader};
ghost use Rattle.hx_outside.specs.Folders.{Folder};
ghost use Rattle.hx_book.specs.Books.{AreBack, AreKept, AreNamed, HasReady, IsBackCause, IsBarred, IsEarly, IsFound, IsGoodFor, IsOnlyTrimmed, IsOpening, IsUntouched, ShowsWhy, job_of};
ghost use Rattle.hx_book.specs.Resumable.{header_bytes};

use crate::answers::Back;
use crate::book::Book;
use crate::finding::{Found, find};
use crate::job::Job;
use crate::listing::header_bytes;
use crate::progress::Progress;
use crate::room::{Room, house};
use hx_base::{Refusal, Settings};
use hx_outside::{Source, Store};
use std::alloc::Global;
use std::marker::PhantomData;

// What a book is made of beside what it is given.
#[derive(Drop)]
struct Begun<J: Job, Src> {
    back: Room<J, Src>,
    homes: Room<J, Option<Src>>,
    found: Found,
}

// Takes the room for the inputs' sources, and finds what the work files keep of the job.
fn begin<J: Job, Src: Source, S: Store>(
    alloc: Global,
    settings: &Settings,
    inputs: &mut Vec<Src>,
    store: &mut S,
) -> Result<Begun<J, Src>, Refusal>
    requires named { AreNamed J.of Src.source S.disk settings.now inputs.old.items store.old }
    requires some { 1 ≤ length inputs.old.items }
    requires few { length inputs.old.items ≤ most_inputs }
    requires words { All IsFileWord (map Src.source.label inputs.old.items) }
    requires limits { FitsLimits settings.now }
    ensures same { SameSources Src.source inputs.old.items inputs.new.items }
    ensures opening { IsOpening J.of S.disk store.new }
    ensures found { IfOk result (λ b. IsFound J.of S.disk store.new (length inputs.new.items) b.found.journal b.found.parts.items b.found.progress.partitions b.found.progress.stage b.found.progress.from b.found.progress.flags.items) }
    ensures name { IfOk result (λ _. IsName settings.now.name) }
    ensures heading { IfOk result (λ _. J.of.premises → IsHeader (header_bytes (job_of J.of))) }
    ensures short { (bytes : List (List ℕ)) → Tell Src.source inputs.old.items bytes → IfOk result (λ _. too_long bytes ≡ None) }
    ensures long { (bytes : List (List ℕ)) (what found limit : ℕ) → Tell Src.source inputs.old.items bytes → IfErr result (λ r. r ≡ TooMany what found limit → too_long bytes ≡ Some r) }
    ensures early { J.of.tells → IfErr result (λ r. IsEarly r → IsOnlyTrimmed J.of S.disk store.new) }
    ensures kept { J.of.tells → IfOk result (λ b. AreKept (job_of J.of) (S.disk.reads store.old) b.found.journal.records) }
    ensures shows { (bytes : List (List ℕ)) → Tell Src.source inputs.old.items bytes → J.of.tells → IfErr result (ShowsWhy J.of.settings.name (header_bytes (job_of J.of)) (S.disk.reads store.old)) }
    ensures barred { (bytes : List (List ℕ)) → Tell Src.source inputs.old.items bytes → J.of.tells → IsBarred J.of.settings.name (header_bytes (job_of J.of)) (S.disk.reads store.old) → IfOk result (λ _. ⊥) }
    ensures cause { IfErr result (IsBackCause J.of Src.source inputs.new.items (S.disk.faults store.new)) }
{
    let back = Room::new(alloc, inputs.len())?;
    let homes = Room::new(alloc, inputs.len())?;
    let header = header_bytes(alloc, settings, inputs)?;
    let found = find::<J, S>(alloc, store, &settings.name, &header, inputs.len() as u32)?;
    Ok(Begun { back, homes, found })
}

impl<J: Job, Src: Source, S: Store> Book<J, Src, S> {
    /// Opens the book of an import, by the journal that an earlier run left, or by a new one where the name is free.
    ///
    /// It is refused by `TooMany` (2) where an input is longer than 67108864 bytes, by `NameTaken` where a catalogue
    /// stands without a journal, by `OtherJob` where the journal is another job's, and by `Damaged` where the journal or
    /// the plan can't be read, or a record doesn't follow those before it. Before the first three no file is changed, but
    /// for what stands behind the journal's first closed gate. `StoreFault` and `InputFault` come only where that count of
    /// faults rose. Then the inputs come back in their order.
    ///
    /// Over a store and inputs that tell, `TooMany` names the length of the first input that is too long, no book opens
    /// under a name that is taken or another job's, and the book's records are those that the journal had. Of a job that is
    /// under way or not begun, only `TooMany`, `StoreFault`, `InputFault` and `Memory` come.
    #[tactic(none)]
    pub fn open(
        alloc: Global,
        settings: Settings,
        inputs: Vec<Src>,
        store: S,
    ) -> Result<Book<J, Src, S>, Back<Src, S>>
        requires named { AreNamed J.of Src.source S.disk settings inputs.items store }
        requires some { 1 ≤ length inputs.items }
        requires few { length inputs.items ≤ most_inputs }
        requires words { All IsFileWord (map Src.source.label inputs.items) }
        requires limits { FitsLimits settings }
        ensures opened { IfOk result (λ book. (book.settings ≡ settings) × (book.inputs ≡ length inputs.items) × (book.held ≡ None)) }
        ensures clear { IfOk result (λ book. (book.first ≡ None) × (book.kept ≡ None)) }
        ensures records { J.of.tells → IfOk result (λ book. AreKept (job_of J.of) (S.disk.reads store) book.records) }
        ensures ready { IfOk result (λ book. (book.stage ≡ 9) ⊎ HasReady book) }
        ensures later { IfOk result (λ book. J.of.before ≤ book.faults) }
        ensures short { (bytes : List (List ℕ)) → Tell Src.source inputs.items bytes → IfOk result (λ _. too_long bytes ≡ None) }
        ensures long { (bytes : List (List ℕ)) (what found limit : ℕ) → Tell Src.source inputs.items bytes → IfErr result (λ back. back.refusal ≡ TooMany what found limit → too_long bytes ≡ Some back.refusal) }
        ensures barred { (bytes : List (List ℕ)) → Tell Src.source inputs.items bytes → J.of.tells → IsBarred J.of.settings.name (header_bytes (job_of J.of)) (S.disk.reads store) → IfOk result (λ _. ⊥) }
        ensures shows { (bytes : List (List ℕ)) → Tell Src.source inputs.items bytes → J.of.tells → IfErr result (λ back. ShowsWhy J.of.settings.name (header_bytes (job_of J.of)) (S.disk.reads store) back.refusal) }
        ensures back { IfErr result (λ back. AreBack J.of Src.source back.inputs.items) }
        ensures cause { IfErr result (λ back. IsBackCause J.of Src.source back.inputs.items (S.disk.faults back.store) back.refusal) }
        ensures early { IfErr result (λ back. J.of.tells → IsEarly back.refusal → IsOnlyTrimmed J.of S.disk back.store) }
        ensures told { IfErr result (λ back. J.of.tells → S.disk.tells back.store) }
        ensures good { IfErr result (λ back. J.of.premises → (f : Folder) → S.disk.left_since back.store J.of.moment f → IsGoodFor J.of f) }
        ensures untouched { IfErr result (λ back. J.of.tells → (f : Folder) → S.disk.left_since back.store J.of.moment f → IsUntouched J.of f) }
        ensures faults { IfErr result (λ back. J.of.before ≤ S.disk.faults back.store) }
    {
        let mut inputs = inputs;
        let mut store = store;
        let begun = match begin::<J, Src, S>(alloc, &settings, &mut inputs, &mut store) {
            Ok(begun) => begun,
            Err(refusal) => {
                return Err(Back {
                    refusal,
                    inputs,
                    store,
                });
            }
        };
        let Begun { back, homes, found } = begun;
        let Found {
            journal,
            progress,
            parts,
        } = found;
        let Progress {
            partitions,
            stage,
            from,
            flags,
            ..
        } = progress;
        let homes = house(homes, inputs);
        Ok(Book {
            alloc,
            settings,
            homes,
            back,
            store,
            journal,
            parts,
            partitions,
            stage,
            from,
            flags,
            held: None,
            kept: None,
            first: None,
            of: PhantomData,
        })
    }
}
