//! What follows from the rule.

ghost use Rattle.vs_words.specs.Rule.{UnusedIsZero};

/// As long as no pass has been used, each word is 0: so at first all are.
pub fn unused_words_are_zero()
    ensures { UnusedIsZero }
{}
