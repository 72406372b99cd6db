//! The job of a book, as its contracts name it.
ghost use Rattle.std.specs.Prelude.{[]};
ghost use Rattle.hx_book.specs.Books.{JobMembers};

use std::marker::Brand;

/// The names of a job: its settings, each input's name, bytes and count of faults, and how the store stood at the opening.
pub trait Job {
    ghost of: { JobMembers };
}

impl Job for Brand {
    ghost of = { record {
      settings = record { name = []; lowest = 0; highest = 0; threshold = 0; margin_order = 0 };
      origins = [];
      tells = ⊥;
      premises = ⊥;
      opening = λ f. ⊥;
      moment = 0;
      before = 0;
    } };
}
