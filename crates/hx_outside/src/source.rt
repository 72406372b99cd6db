ghost use Rattle.std.specs.Prelude.{◌≡◌, ◌≤◌, length, IfOk};
ghost use Rattle.hx_outside.specs.Faults.{HasCause};
ghost use Rattle.hx_outside.specs.Sources.{GivesLength, Gives, SameSource, SourceMembers};

/// A call of a source or a sink did not succeed, and its count of faults rose, or stands at 2^64 - 1 or above.
#[derive(Clone, Copy, Debug, PartialEq, Eq)]
pub struct Failed;

/// Something with a name from which bytes can be read at any place, as often as one likes. Neither its name nor
/// its bytes ever change.
pub trait Source: Drop {
    /// Its bytes, where it tells them, the bytes of its name, and how often it has failed.
    ghost source: { SourceMembers Self };

    /// The name by which it was asked for.
    fn name(&self) -> &str
        ensures { result.now ≡ source.label self.now };

    /// How many bytes it has.
    fn len(&mut self) -> Result<u64, Failed>
        ensures length { GivesLength (source.told self.old) result }
        ensures same { SameSource source self.old self.new }
        ensures cause { HasCause source.faults self.old self.new result };

    /// Reads some of the bytes from `at` on into the front of the buffer, and says how many; 0 only
    /// where none is left, or the buffer is empty.
    fn read_at(&mut self, at: u64, buf: &mut [u8]) -> Result<usize, Failed>
        ensures bound { IfOk result (λ count. count ≤ length buf.old) }
        ensures bytes { Gives (source.told self.old) at (length buf.old) buf.new result }
        ensures same { SameSource source self.old self.new }
        ensures cause { HasCause source.faults self.old self.new result };
}
