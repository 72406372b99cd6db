ghost use Rattle.std.specs.Prelude.{◌≡◌};
ghost use Rattle.hx_pqmeta.specs.Naturals.{natural};

/// A count, size or place, which a file has as a signed number. A negative one is taken as 0.
pub fn natural(number: i64) -> u64
    ensures { result ≡ natural number }
{
    if number < 0 { 0 } else { number as u64 }
}
