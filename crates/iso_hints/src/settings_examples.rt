//! Worked examples of what settings come to, as public laws.
ghost use Rattle.std.specs.Prelude.{◌≡◌, ◌∷◌, [], None, Some, false, true};
ghost use Rattle.iso_hints.specs.Examples.{by_default, in_file, labelled, lent, mistyped, text_of, unused};
ghost use Rattle.iso_hints.specs.SettingsTexts.{settings_text};
ghost use Rattle.iso_hints.specs.declared.setting.Value.TheVariants.{Flag, Number, Word};

/// Each setting has its value and says where this is from; then come keys that are unknown, how
/// many more, and the workers.
pub fn settings_are_told()
    ensures { settings_text
        (in_file "enabled" (Flag true)
        ∷ by_default "strategy" (Some (Word (lent "dynamic")))
        ∷ unused "parallelism" (Number 14) "strategy is dynamic"
        ∷ by_default "other" None
        ∷ [])
        (mistyped "junit.jupiter.enable" "junit.jupiter.enabled" ∷ [])
        2 1 (labelled "strategy is dynamic, --processors is 1, factor is 1")
        ≡ text_of
        ("enabled = true (file)"
        ∷ "strategy = \"dynamic\" (default)"
        ∷ "parallelism = 14 (file, not used: strategy is dynamic)"
        ∷ "other not set"
        ∷ "unknown junit.jupiter.enable: did you mean junit.jupiter.enabled?"
        ∷ "2 more unknown"
        ∷ "1 worker: strategy is dynamic, --processors is 1, factor is 1"
        ∷ []) }
{}

/// All but one are workers.
pub fn workers_are_counted()
    ensures none { settings_text [] [] 0 0 [] ≡ text_of ("0 workers: " ∷ []) }
    ensures two { settings_text (in_file "enabled" (Flag false) ∷ []) [] 0 2
        (labelled "factor is 2")
        ≡ text_of ("enabled = false (file)" ∷ "2 workers: factor is 2" ∷ []) }
{}
