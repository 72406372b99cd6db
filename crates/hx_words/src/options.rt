//! Options of a command line: each is two words, its name and a number. Those of a command stand in any order before
//! its other words, each at most once.
ghost use Rattle.std.specs.Prelude.{◌≡◌, ◌≢◌, ◌↔◌, ◌∷◌, ℕ, IsTrue, IfSome, IsSome, List, MatchOption, None, Some, Contains, map, string_bytes};
ghost use Rattle.std.specs.Fmt.{decimal};
ghost use Rattle.hx_words.specs.Options.{AreFurther, AreRead, BeginsNoOption, InRange, default_of, kept, number_of, word_of};
ghost use Rattle.hx_words.specs.declared.options.OptionName.{OptionName};

use crate::number::number;
use hx_base::{HIGHEST_MARGIN_ORDER, HIGHEST_ORDER, MOST_IN_PARTITION};

/// The name of an option.
#[derive(Clone, Copy, Debug, PartialEq, Eq)]
pub enum OptionName {
    /// The lowest order of a partition.
    Lowest,
    /// The highest order of a partition.
    Highest,
    /// How many rows a partition has at most.
    Threshold,
    /// The order of the pixels by which margins are cut.
    MarginOrder,
}

/// The options of a line, each where it is given.
#[derive(Clone, Copy, Debug, PartialEq, Eq)]
pub struct Options {
    pub lowest: Option<u64>,
    pub highest: Option<u64>,
    pub threshold: Option<u64>,
    pub margin_order: Option<u64>,
}

// The option of that name.
fn name_of(word: &str) -> Option<OptionName>
    ensures { MatchOption result ((name : OptionName) → word.now ≢ word_of name) (λ name. word.now ≡ word_of name) }
{
    match word {
        "--lowest" => Some(OptionName::Lowest),
        "--highest" => Some(OptionName::Highest),
        "--threshold" => Some(OptionName::Threshold),
        "--margin-order" => Some(OptionName::MarginOrder),
        _ => None,
    }
}

// The option whose name stands at the head of the words.
fn option_at(words: &[String]) -> Option<OptionName>
    ensures { MatchOption result (BeginsNoOption (map string_bytes words.now))
        (λ name. (more : List (List ℕ)) × (map string_bytes words.now ≡ word_of name ∷ more)) }
{
    let [first, ..] = words else {
        return None;
    };
    name_of(first.as_str())
}

fn is_among(names: &[OptionName], name: OptionName) -> bool
    ensures { IsTrue result ↔ Contains names.now name }
{
    names.contains(&name)
}

fn is_in_range(name: OptionName, number: u64) -> bool
    ensures { IsTrue result ↔ InRange name number }
{
    match name {
        OptionName::Lowest | OptionName::Highest => number <= u64::from(HIGHEST_ORDER),
        OptionName::Threshold => 1 <= number && number <= MOST_IN_PARTITION,
        OptionName::MarginOrder => number <= u64::from(HIGHEST_MARGIN_ORDER),
    }
}

// The number of an option that isn't given.
fn default_of(name: OptionName) -> u64
    ensures value { result ≡ default_of name }
    ensures range { InRange name result }
{
    match name {
        OptionName::Lowest => 0,
        OptionName::Highest => 7,
        OptionName::Threshold => 1_000_000,
        OptionName::MarginOrder => 10,
    }
}

// The number of an option, where it has the form and lies in the range.
fn value_of(name: OptionName, word: &str) -> Option<u64>
    ensures { MatchOption result ((n : ℕ) → InRange name n → word.now ≢ decimal n)
        (λ n. InRange name n × (word.now ≡ decimal n)) }
{
    let value = number(word)?;
    if !is_in_range(name, value) {
        return None;
    }
    Some(value)
}

impl Options {
    /// No option is given.
    pub fn none() -> Options
        ensures { (name : OptionName) → kept result name ≡ None }
    {
        Options {
            lowest: None,
            highest: None,
            threshold: None,
            margin_order: None,
        }
    }

    fn given(self, name: OptionName) -> Option<u64>
        ensures { result ≡ kept self name }
    {
        match name {
            OptionName::Lowest => self.lowest,
            OptionName::Highest => self.highest,
            OptionName::Threshold => self.threshold,
            OptionName::MarginOrder => self.margin_order,
        }
    }

    /// The number of an option, or its default where it isn't given.
    pub fn number(self, name: OptionName) -> u64
        requires { IfSome (kept self name) (InRange name) }
        ensures value { result ≡ number_of self name }
        ensures range { InRange name result }
    {
        match self.given(name) {
            Some(number) => number,
            None => default_of(name),
        }
    }

    // Sets an option's number.
    fn with(self, name: OptionName, number: u64) -> Options
        ensures this { kept result name ≡ Some number }
        ensures others { (other : OptionName) → other ≢ name → kept result other ≡ kept self other }
    {
        let given = Some(number);
        match name {
            OptionName::Lowest => Options {
                lowest: given,
                ..self
            },
            OptionName::Highest => Options {
                highest: given,
                ..self
            },
            OptionName::Threshold => Options {
                threshold: given,
                ..self
            },
            OptionName::MarginOrder => Options {
                margin_order: given,
                ..self
            },
        }
    }

    // Sets an option to what a word says, where it isn't given already.
    fn and(self, name: OptionName, word: &str) -> Option<Options>
        ensures { MatchOption result ((n : ℕ) → InRange name n → word.now ≡ decimal n → IsSome (kept self name))
            (λ more. (n : ℕ) × InRange name n × (word.now ≡ decimal n) × (kept self name ≡ None) × (kept more name ≡ Some n) ×
            ((other : OptionName) → other ≢ name → kept more other ≡ kept self other)) }
    {
        if self.given(name).is_some() {
            return None;
        }
        let value = value_of(name, word)?;
        Some(self.with(name, value))
    }
}

/// Reads the options at the head of words, which follow others, and says how many words they are. There are none
/// where an option isn't one of the command's, is given again, or has a number out of form or range.
pub fn read_options(
    names: &[OptionName],
    before: Options,
    words: &[String],
) -> Option<(Options, usize)>
    ensures { MatchOption result
        ((options : List (OptionName × ℕ)) (rest : List (List ℕ)) →
        AreFurther names.now before (map string_bytes words.now) options rest → ⊥)
        (λ r. AreRead names.now before (map string_bytes words.now) r.0 r.1) }
{
    let Some(name) = option_at(words) else {
        return Some((before, 0));
    };
    if !is_among(names, name) {
        return None;
    }
    let [_, value, rest @ ..] = words else {
        return None;
    };
    let options = before.and(name, value.as_str())?;
    let (options, count) = read_options(names, options, rest)?;
    Some((options, count + 2))
}
