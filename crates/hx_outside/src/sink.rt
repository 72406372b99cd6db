ghost use Rattle.hx_outside.specs.Faults.{HasCause};
ghost use Rattle.hx_outside.specs.Sinks.{Appends, SinkMembers};

use crate::Failed;

/// Something that bytes are written to, one after another.
pub trait Sink {
    /// What was written, where it tells it, and how often it has failed.
    ghost sink: { SinkMembers Self };

    /// Writes all bytes; after a fault some of them from the front were written.
    fn write(&mut self, bytes: &[u8]) -> Result<(), Failed>
        ensures appends { Appends (sink.written self.old) bytes.now (sink.written self.new) result }
        ensures cause { HasCause sink.faults self.old self.new result };
}
