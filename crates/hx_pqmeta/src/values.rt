ghost use Rattle.std.specs.Prelude.{◌≡◌, ◌+◌, ◌-◌, ◌≤◌, ℕ, suc};
ghost use Rattle.std.specs.Option.{IsSomeAnd};
ghost use Rattle.hx_thrift.specs.Kinds.{IsKind, i32_kind, i64_kind, binary_kind};
ghost use Rattle.hx_thrift.specs.Values.{number, binary, leaf};
ghost use Rattle.hx_thrift.specs.Reading.{value_at};
ghost use Rattle.hx_pqmeta.specs.Answers.{Gives};

use crate::refusal::PqRefusal;
use hx_thrift::Reader;
use hx_thrift::kind::{I32, I64};

/// Reads the value of an i32 field. It is there, so it is never `None`.
#[tactic(auto, unfolding(hx_thrift::specs::Reading::value_at, hx_thrift::specs::Reading::leaf_at))]
pub fn int32(reader: &mut Reader<'_>) -> Result<Option<i32>, PqRefusal>
    ensures { (levels : ℕ) → Gives ⊥ reader.new result (value_at (suc levels) i32_kind reader.old)
        (λ found value. IsSomeAnd found (λ n. value ≡ leaf (number n))) }
{
    let number = reader.int(I32)?;
    Ok(Some(number as i32))
}

/// The like for an i64 field.
#[tactic(auto, unfolding(hx_thrift::specs::Reading::value_at, hx_thrift::specs::Reading::leaf_at))]
pub fn int64(reader: &mut Reader<'_>) -> Result<Option<i64>, PqRefusal>
    ensures { (levels : ℕ) → Gives ⊥ reader.new result (value_at (suc levels) i64_kind reader.old)
        (λ found value. IsSomeAnd found (λ n. value ≡ leaf (number n))) }
{
    let number = reader.int(I64)?;
    Ok(Some(number))
}

/// The like for a binary.
#[tactic(auto, unfolding(hx_thrift::specs::Reading::value_at, hx_thrift::specs::Reading::leaf_at))]
pub fn binary<'a>(reader: &mut Reader<'a>) -> Result<Option<&'a [u8]>, PqRefusal>
    ensures { (levels : ℕ) → Gives ⊥ reader.new result (value_at (suc levels) binary_kind reader.old)
        (λ found value. IsSomeAnd found (λ bytes. value ≡ leaf (binary bytes.now))) }
{
    let bytes = reader.binary()?;
    Ok(Some(bytes))
}

/// Passes over a value of any kind that stands inside `depth` containers.
pub fn pass(reader: &mut Reader<'_>, kind: u8, depth: u32) -> Result<(), PqRefusal>
    requires kind { IsKind kind }
    requires depth { depth ≤ 32 }
    ensures { (levels : ℕ) → depth + levels ≡ 32 → Gives ⊥ reader.new result (value_at levels kind reader.old) (λ _ _. Unit {0}) }
{
    reader.skip(kind, depth)?;
    Ok(())
}
