//! A law: each change of a forest is the same change of its live view.

ghost use Rattle.sts_store.specs.Agreeing.{WordsAgree};

/// Each change of a forest is the change of its live view with the same name.
pub fn words_agree<E>()
    ensures { WordsAgree E }
{}
