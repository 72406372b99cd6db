ghost use Rattle.std.specs.Prelude.{◌≡◌, ℕ, List};
ghost use Rattle.hx_words.specs.Words.{Command, Means};

/// The words of a line have one meaning at most.
pub fn words_have_one_meaning()
    ensures { (words : List (List ℕ)) (a b : Command) → Means words a → Means words b → a ≡ b }
{}
