//! What a store in memory says of a crash is exactly what the rules allow.
ghost use Rattle.hx_mem.specs.Exact.{ImagesAreExact};

/// After a call that was done or failed, the folders that a crash may leave are exactly those that it may make of the
/// folders that a crash might have left before.
pub fn images_are_exact()
    ensures { ImagesAreExact }
{}
