ghost use Rattle.hx_thrift.specs.Spelling.{ReadsWhatIsSpelled, RefusesTheRest, ReadsOn, ReadsWithin, ReadsVarints};
ghost use Rattle.hx_thrift.specs.Writing.{WritesVarints, WritesHeaders, WritesLists, WritesBinaries, WritesValues, WritesShortest};

/// What the bytes of a text spell, and what is read of them, are one: for every place, kind and depth either the text
/// begins with the spelling of one value, which is read, or reading refuses. What is read ends within its text, and
/// what follows it changes nothing. So it is with a varint alone.
pub fn reading_is_spelling()
    ensures read { ReadsWhatIsSpelled }
    ensures refused { RefusesTheRest }
    ensures followed { ReadsOn }
    ensures within { ReadsWithin }
    ensures varint { ReadsVarints }
{}

/// What is written of an item spells it, and no spelling of a number is shorter. What is written of a value that fits a
/// kind, so that its numbers, lengths, sizes and ids are within their ranges, spells the value.
pub fn writing_is_spelling()
    ensures varint { WritesVarints }
    ensures shortest { WritesShortest }
    ensures header { WritesHeaders }
    ensures list { WritesLists }
    ensures binary { WritesBinaries }
    ensures value { WritesValues }
{}
