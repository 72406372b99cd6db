ghost use Rattle.std.specs.Prelude.{◌≡◌, ◌≢◌, ℕ, List, Result, Err};
ghost use Rattle.hx_base.specs.declared.pixel.Pixel.{Pixel};
ghost use Rattle.hx_align.specs.Plans.{IsAligned};
ghost use Rattle.hx_align.specs.declared.plan.PlanRow.{PlanRow};
ghost use Rattle.hx_align.specs.declared.refusal.AlignRefusal.{AlignRefusal};
ghost use Rattle.hx_align.specs.declared.refusal.AlignRefusal.TheVariants.{Memory};

/// An alignment has one answer but for want of memory: the counts and the settings decide it.
pub fn alignments_have_one_answer()
    ensures { (count : Pixel → ℕ) (lowest highest threshold : ℕ) (a b : Result (List PlanRow) AlignRefusal) →
        IsAligned count lowest highest threshold a → IsAligned count lowest highest threshold b →
        a ≢ Err Memory → b ≢ Err Memory → a ≡ b }
{}
