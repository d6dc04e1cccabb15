ghost use Rattle.state_words.specs.Words.{EqualWordsEqualStates};

/// Equal words are those of equal states.
pub fn words_tell_states()
    ensures { EqualWordsEqualStates }
{}
