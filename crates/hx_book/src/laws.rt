//! Laws of jobs and of the folders that they leave.
ghost use Rattle.std.specs.Prelude.{◌≡◌, ◌≢◌, ◌≤◌, ◌++◌, ◌∷◌, [], ℕ, List, length};
ghost use Rattle.hx_base.specs.Limits.{FitsLimits, most_inputs};
ghost use Rattle.hx_base.specs.Names.{IsName};
ghost use Rattle.hx_base.specs.declared.pixel.Pixel.{Pixel};
ghost use Rattle.hx_base.specs.declared.row.Row.{Row};
ghost use Rattle.hx_base.specs.declared.task.Task.{Task};
ghost use Rattle.hx_catalog.specs.Catalogues.{IsCatalogue};
ghost use Rattle.hx_journal.specs.Headers.{IsHeader};
ghost use Rattle.hx_journal.specs.Journal.{Notes, Trims, journal_file, temporary_file};
ghost use Rattle.hx_journal.specs.declared.record.Record.{Record};
ghost use Rattle.hx_outside.specs.Folders.{Folder};
ghost use Rattle.hx_publish.specs.Publishing.{Publishes};
ghost use Rattle.hx_book.specs.Books.{AreInTurn, AreNumbers, count_of_kind, rows_of_kind};
ghost use Rattle.hx_book.specs.Tasks.{AreAllRows, AreParts, GoesByParts, HasKindsBefore, IsNext, IsTask, JobData, task_path};
ghost use Rattle.hx_book.specs.Values.{IsValue};
ghost use Rattle.hx_book.specs.Resumable.{HasNumber, IsFiled, IsFiledWhole, IsFresh, IsResumable, IsUnderWay, JournalIs, done_of, header_bytes};

use hx_base::partitions_of_rows;

/// A job has one list of partitions at most, and a journal one list of records.
pub fn jobs_have_one_plan()
    ensures parts { (job : JobData) (a b : List Pixel) → AreParts job a → AreParts job b → a ≡ b }
    ensures records { (job : JobData) (f : Folder) (a b : List Record) → JournalIs job f a → JournalIs job f b → a ≡ b }
{}

/// Different tasks of a job have different files, none of which is the journal or the temporary file.
pub fn files_tell_tasks()
    ensures apart { (job : JobData) (t u : Task) (p q : List Pixel) → length job.inputs ≤ most_inputs → IsTask job t → IsTask job u →
        (GoesByParts t.kind → AreParts job p) → (GoesByParts u.kind → AreParts job q) →
        task_path job.settings.name p t ≡ task_path job.settings.name q u → t ≡ u }
    ensures journal { (job : JobData) (t : Task) (p : List Pixel) → length job.inputs ≤ most_inputs → IsTask job t →
        task_path job.settings.name p t ≢ journal_file job.settings.name }
    ensures temporary { (job : JobData) (t : Task) (p : List Pixel) → length job.inputs ≤ most_inputs → IsTask job t →
        temporary_file job.settings.name ≢ task_path job.settings.name p t }
{}

/// Each step of an import leads from folders from which it can be taken up again to such folders: the journal's
/// publishing, its cut behind the first closed gate, the publishing of the file of a task that is next as its value,
/// and the noting of the task, however far each of these went.
pub fn steps_are_resumable()
    ensures created { (job : JobData) (f g : Folder) → length job.inputs ≤ most_inputs → IsFresh job f →
        Publishes (temporary_file job.settings.name) (journal_file job.settings.name) (header_bytes job ++ 0 ∷ []) f g → IsResumable job g }
    ensures trimmed { (job : JobData) (f g : Folder) → length job.inputs ≤ most_inputs → IsHeader (header_bytes job) → IsResumable job f →
        Trims (journal_file job.settings.name) f g → IsResumable job g }
    ensures published { (job : JobData) (f g : Folder) (records : List Record) (t : Task) (parts : List Pixel) (bytes : List ℕ) →
        length job.inputs ≤ most_inputs → IsUnderWay job f records → IsNext job (done_of records) t → (GoesByParts t.kind → AreParts job parts) →
        IsValue job t bytes → Publishes (temporary_file job.settings.name) (task_path job.settings.name parts t) bytes f g → IsUnderWay job g records }
    ensures noted { (job : JobData) (f g : Folder) (records : List Record) (r : Record) →
        length job.inputs ≤ most_inputs → IsUnderWay job f records → IsNext job (done_of records) r.task → IsFiled job f r → HasNumber job r →
        Notes (journal_file job.settings.name) (header_bytes job) records r f g → IsResumable job g }
{}

/// A folder in which each task of a job is done reads as the catalogue of all inputs' rows and the asked settings: each
/// row as often as it came, in the partition that all rows give it, with exactly the margins that touch.
pub fn finished_is_catalogue()
    ensures { (job : JobData) (f : Folder) → length job.inputs ≤ most_inputs → IsName job.settings.name → FitsLimits job.settings → IsFiledWhole job f →
        (rows : List Row) × AreAllRows job rows × IsCatalogue f job.settings.name job.settings rows }
{
    partitions_of_rows();
}

/// Where all tasks of a job are recorded, its records tell how many rows all inputs have, how many partitions there are,
/// and how many rows their margins have.
pub fn records_tell_numbers()
    ensures { (job : JobData) (records : List Record) → FitsLimits job.settings → AreInTurn job records → HasKindsBefore job (done_of records) 9 →
        AreNumbers job (rows_of_kind 4 records) (count_of_kind 4 records) (rows_of_kind 6 records) }
{
    partitions_of_rows();
}
