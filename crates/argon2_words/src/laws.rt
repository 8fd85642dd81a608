//! Laws of the definitions: each function has no body, and its clauses are the law.
ghost use Rattle.std.specs.Prelude.{◌≡◌, ◌++◌, ◌∷◌, [], List, Some};
ghost use Rattle.host.specs.HostState.{Text};
ghost use Rattle.argon2_words.specs.Items.{Item};
ghost use Rattle.argon2_words.specs.Laws.{settings_with_last_item};
ghost use Rattle.argon2_words.specs.Settings.{settings_after, with_value};
ghost use Rattle.argon2_words.specs.declared.items.OptionName.{OptionName};
ghost use Rattle.argon2_words.specs.declared.settings.Settings.{Settings};

// The last item decides what it sets: it is applied to what the items before it made, and a value that an option is
// given again takes the place of the one before. A faulty item among those before it decides all.
fn last_item_decides()
    ensures last { (settings : Settings) (items : List Item) (item : Item)
        → settings_after settings (items ++ item ∷ []) ≡ settings_with_last_item settings items item }
    ensures again { (settings given : Settings) (name : OptionName) (before value : Text)
        → with_value settings name before ≡ Some given
        → with_value given name value ≡ with_value settings name value }
{}
