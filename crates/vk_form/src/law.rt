ghost use Rattle.vk_form.specs.WordLaw.{EqualWordsEqualValues};

/// Equal words have equal values.
pub fn words_tell_values()
    ensures { EqualWordsEqualValues }
{}
