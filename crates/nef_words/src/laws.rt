//! The words of the command line in plain terms.

ghost use Rattle.std.specs.Prelude.{◌≡◌, ℕ, List};
ghost use Rattle.nef_words.specs.Chosen.{options_of};
ghost use Rattle.nef_words.specs.Grammar.{options_in};

/// Words choose the options that the plain grammar gives them, and are refused where this grammar refuses them.
pub fn words_laws()
    ensures grammar { (words : List (List ℕ)) → options_of words ≡ options_in words }
{}
