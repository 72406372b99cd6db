ghost use Rattle.hx_pqread.specs.Laws.{ReadsLevels, ReadsABody, ReadsAColumn, ReadsWhatIsThere, RefusesTheRest};

use hx_thrift::reading_is_spelling;

/// What stands in a file's columns, and what is read of them, are one.
///
/// Levels are runs, one after another. A body is levels and numbers. A column is pages that stand one after another in
/// each row group, with spelled headers and bodies of as many values as the chunk says. Either a file has columns of
/// the names that are asked for, which are read, or reading refuses.
pub fn reading_is_standing()
    ensures levels { ReadsLevels }
    ensures body { ReadsABody }
    ensures column { ReadsAColumn }
    ensures read { ReadsWhatIsThere }
    ensures refused { RefusesTheRest }
{
    reading_is_spelling();
}
