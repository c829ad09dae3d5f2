//! The laws of the settings.
ghost use Rattle.std.specs.Prelude.{◌≡◌, ℕ, List, Some};
ghost use Rattle.run_text.specs.declared.choices.Settings.{Settings};
ghost use Rattle.run_text.specs.Settings.{settings_of};
ghost use Rattle.run_text.specs.SaidSettings.{AreSaid};

/// Settings are what the words say: each word is `name=value` with one of the names, no two words have the same name,
/// and each setting is what the value of its word says, or its default if no word has its name.
///
/// Why words ask for no settings is said by the clause `none` of [`settings`](crate::settings()).
pub fn settings_are_said()
    ensures { (words : List (List ℕ)) (s : Settings) → settings_of words ≡ Some s
        → AreSaid words s }
{}
