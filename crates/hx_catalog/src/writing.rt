//! Lines of a text that is written.
ghost use Rattle.std.specs.Prelude.{◌≡◌, ◌++◌, ◌∷◌, [], OnOk};
ghost use Rattle.std.specs.Fmt.{decimal};
ghost use Rattle.hx_catalog.specs.Lines.{field};

use itoa::Buffer;
use std::alloc::AllocError;

/// A number, and the byte that ends it.
pub(crate) fn push_number(text: &mut Vec<u8>, number: u64, end: u8) -> Result<(), AllocError>
    ensures { OnOk result (text.new.items ≡ text.old.items ++ decimal number ++ end ∷ []) }
{
    let mut buffer = Buffer::new();
    text.extend_from_slice(buffer.format(number).as_bytes())?;
    text.push(end)?;
    Ok(())
}

/// A line of a key and a value.
pub(crate) fn push_field(text: &mut Vec<u8>, key: &[u8], value: &[u8]) -> Result<(), AllocError>
    ensures { OnOk result (text.new.items ≡ text.old.items ++ field key.now value.now ++ 10 ∷ []) }
{
    text.extend_from_slice(key)?;
    text.push(b'=')?;
    text.extend_from_slice(value)?;
    text.push(b'\n')?;
    Ok(())
}

/// A line of a key and a number.
pub(crate) fn push_number_field(
    text: &mut Vec<u8>,
    key: &[u8],
    number: u64,
) -> Result<(), AllocError>
    ensures { OnOk result (text.new.items ≡ text.old.items ++ field key.now (decimal number) ++ 10 ∷ []) }
{
    text.extend_from_slice(key)?;
    text.push(b'=')?;
    push_number(text, number, b'\n')
}
