//! Worked examples of the definitions, as public laws.

ghost use Rattle.std.specs.Prelude.{◌≡◌, ◌≤◌, ◌<◌, ℕ, negsuc, List, [], ◌∷◌, ◌++◌, Err, None, Ok, Some, codes, false, length, true};
ghost use Rattle.iso_model.specs.ResourceKeys.{locale_key};
ghost use Rattle.iso_model.specs.Resources.{starting_value};
ghost use Rattle.iso_model.specs.declared.limits.TheConstants.{TEXT_BYTES};
ghost use Rattle.iso_model.specs.declared.resource.Resource.TheVariants.{File, Locale, Plain};
ghost use Rattle.iso_model.specs.declared.script.Mode.TheVariants.{Concurrent, SameThread};
ghost use Rattle.iso_settings.specs.Examples.{ComesFirst, at, classes_mode, default_mode, document, enabled, factor, file_in, files, inner, locale, no, number};
ghost use Rattle.iso_settings.specs.Examples.{parallelism, properties, property_in, set, start_in, strategy, text, workers_in, world_of, wrong, yes};
ghost use Rattle.iso_settings.specs.Settings.{jupiter, settings_in};
ghost use Rattle.iso_settings.specs.Worlds.{empty_start, is_printable, starting_value_in, world_in};
ghost use Rattle.toml.specs.Data.{integer, string};
ghost use Rattle.iso_settings.specs.declared.fault.SettingsFault.TheVariants.{MissingParallelism, NotToml, OutOfRange, Unsupported, WrongValue};

/// Without any key parallel execution is off. A text that is no TOML is a fault.
pub fn settings_have_defaults()
    ensures none { settings_in (document []) 8
        ≡ Ok (record {
          parallel = false;
          default_mode = SameThread;
          classes_default_mode = SameThread;
          worker_count = 1;
        }) }
    ensures no_toml { settings_in None 8 ≡ Err NotToml }
{}

/// The default of top-level classes is that of all other nodes, unless it is given.
pub fn classes_take_the_default_mode()
    ensures same { settings_in
        (document (set "execution.parallel.mode.default" (text "concurrent") ∷ [])) 8
        ≡ Ok (record {
          parallel = false;
          default_mode = Concurrent;
          classes_default_mode = Concurrent;
          worker_count = 1;
        }) }
    ensures own { settings_in
        (document (set "execution.parallel.mode.classes.default" (text "CONCURRENT") ∷ [])) 8
        ≡ Ok (record {
          parallel = false;
          default_mode = SameThread;
          classes_default_mode = Concurrent;
          worker_count = 1;
        }) }
    ensures both { settings_in
        (document (default_mode (text "concurrent") ∷ classes_mode (text "same_thread") ∷ [])) 8
        ≡ Ok (record {
          parallel = false;
          default_mode = Concurrent;
          classes_default_mode = SameThread;
          worker_count = 1;
        }) }
{}

/// The dynamic strategy multiplies, up to 64. The fixed one does not, and needs its number only
/// where it counts.
pub fn strategies_choose_workers()
    ensures default { workers_in (enabled yes ∷ []) 3 ≡ Ok 3 }
    ensures dynamic { workers_in (enabled yes ∷ factor (number 2) ∷ []) 31 ≡ Ok 62 }
    ensures dynamic_alone { workers_in (enabled yes ∷ parallelism (number 3) ∷ []) 5 ≡ Ok 5 }
    ensures most { workers_in (enabled yes ∷ factor (number 2) ∷ []) 40 ≡ Ok 64 }
    ensures fixed { workers_in (enabled yes ∷ strategy (text "fixed") ∷ factor (number 2)
        ∷ parallelism (number 3) ∷ []) 40
        ≡ Ok 3 }
    ensures missing { workers_in (enabled yes ∷ strategy (text "fixed") ∷ []) 40
        ≡ Err MissingParallelism }
    ensures off { workers_in (strategy (text "fixed") ∷ []) 40 ≡ Ok 1 }
    ensures named { workers_in (enabled yes ∷ strategy (text "dynamic") ∷ factor (number 64) ∷ []) 1
        ≡ Ok 64 }
    ensures largest { workers_in (enabled yes ∷ strategy (text "fixed") ∷ parallelism (number 64)
        ∷ []) 1 ≡ Ok 64 }
    ensures least { workers_in (enabled yes ∷ strategy (text "fixed") ∷ parallelism (number 1)
        ∷ []) 40 ≡ Ok 1 }
{}

/// Flags and numbers may be texts, in capitals or with zeros in front, of nine digits at most.
pub fn texts_stand_for_values()
    ensures eight { workers_in (enabled (text "TRUE") ∷ strategy (text "Fixed")
        ∷ parallelism (text "8") ∷ []) 1 ≡ Ok 8 }
    ensures nine_digits { workers_in (enabled yes ∷ strategy (text "fixed")
        ∷ parallelism (text "000000008") ∷ []) 1 ≡ Ok 8 }
    ensures ten_digits { workers_in (parallelism (text "0000000008") ∷ []) 1
        ≡ Err (WrongValue (jupiter "execution.parallel.config.fixed.parallelism")) }
    ensures no_digits { workers_in (parallelism (text "") ∷ []) 1
        ≡ Err (WrongValue (jupiter "execution.parallel.config.fixed.parallelism")) }
    ensures sign { workers_in (parallelism (text "+8") ∷ []) 1
        ≡ Err (WrongValue (jupiter "execution.parallel.config.fixed.parallelism")) }
    ensures off { workers_in (enabled no ∷ []) 5 ≡ Ok 1 }
    ensures off_by_text { workers_in (enabled (text "false") ∷ []) 5 ≡ Ok 1 }
    ensures other_kind { workers_in (enabled (number 1) ∷ []) 1
        ≡ Err (WrongValue (jupiter "execution.parallel.enabled")) }
{}

/// What is left out here has a fault of its own, and so has a number out of range.
pub fn refused_values_have_their_fault()
    ensures custom { workers_in (strategy (text "custom") ∷ []) 1
        ≡ Err (Unsupported (jupiter "execution.parallel.config.strategy")) }
    ensures per_class { workers_in (set "testinstance.lifecycle.default" (text "per_class") ∷ []) 1
        ≡ Err (Unsupported (jupiter "testinstance.lifecycle.default")) }
    ensures other_lifecycle { workers_in
        (set "testinstance.lifecycle.default" (text "other") ∷ []) 1
        ≡ Err (Unsupported (jupiter "testinstance.lifecycle.default")) }
    ensures per_method { workers_in (set "testinstance.lifecycle.default" (text "Per_Method")
        ∷ []) 1 ≡ Ok 1 }
    ensures other_strategy { workers_in (strategy (text "other") ∷ []) 1
        ≡ Err (WrongValue (jupiter "execution.parallel.config.strategy")) }
    ensures other_mode { workers_in (default_mode (text "parallel") ∷ []) 1
        ≡ Err (WrongValue (jupiter "execution.parallel.mode.default")) }
    ensures no_text { workers_in (set "testinstance.lifecycle.default" yes ∷ []) 1
        ≡ Err (WrongValue (jupiter "testinstance.lifecycle.default")) }
    ensures negative { workers_in (parallelism (integer (negsuc 0)) ∷ []) 1
        ≡ Err (OutOfRange (jupiter "execution.parallel.config.fixed.parallelism")) }
    ensures above_by_text { workers_in (parallelism (text "65") ∷ []) 1
        ≡ Err (OutOfRange (jupiter "execution.parallel.config.fixed.parallelism")) }
    ensures zero { workers_in (parallelism (number 0) ∷ []) 1
        ≡ Err (OutOfRange (jupiter "execution.parallel.config.fixed.parallelism")) }
    ensures above { workers_in (factor (number 65) ∷ []) 1
        ≡ Err (OutOfRange (jupiter "execution.parallel.config.dynamic.factor")) }
{}

/// The first fault by the order of keys is answered, wherever they stand in the table. Unused keys
/// count too.
pub fn first_fault_of_settings_is_answered()
    ensures order { workers_in (parallelism (number 65) ∷ strategy (text "custom")
        ∷ enabled (text "on") ∷ []) 1
        ≡ Err (WrongValue (jupiter "execution.parallel.enabled")) }
    ensures missing_is_last { workers_in
        (enabled yes ∷ strategy (text "fixed") ∷ factor (number 0) ∷ []) 1
        ≡ Err (OutOfRange (jupiter "execution.parallel.config.dynamic.factor")) }
{}

/// Of two keys that stand next to each other in this order, the first has the fault that is
/// answered.
pub fn keys_of_settings_are_read_in_their_order()
    ensures on { ComesFirst "execution.parallel.enabled" "execution.parallel.mode.default" }
    ensures modes { ComesFirst "execution.parallel.mode.default"
        "execution.parallel.mode.classes.default" }
    ensures strategy { ComesFirst "execution.parallel.mode.classes.default"
        "execution.parallel.config.strategy" }
    ensures factor { ComesFirst "execution.parallel.config.strategy"
        "execution.parallel.config.dynamic.factor" }
    ensures parallelism { ComesFirst "execution.parallel.config.dynamic.factor"
        "execution.parallel.config.fixed.parallelism" }
    ensures lifecycle { ComesFirst "execution.parallel.config.fixed.parallelism"
        "testinstance.lifecycle.default" }
    ensures missing_is_last { workers_in
        (enabled yes ∷ strategy (text "fixed") ∷ set "testinstance.lifecycle.default" wrong ∷ []) 1
        ≡ Err (WrongValue (jupiter "testinstance.lifecycle.default")) }
{}

/// Keys of tables are joined by dots. A key that two spellings reach is wrong, whatever stands
/// there. A table is no value.
pub fn joined_keys_of_settings_are_unique()
    ensures nested { workers_in
        (at "junit" (inner (at "jupiter.execution"
        (inner (at "parallel" (inner (at "enabled" yes ∷ [])) ∷ [])) ∷ [])) ∷ []) 5
        ≡ Ok 5 }
    ensures twice { workers_in
        (at "junit.jupiter" (inner (at "execution.parallel.enabled" yes ∷ [])) ∷ enabled yes ∷ []) 5
        ≡ Err (WrongValue (jupiter "execution.parallel.enabled")) }
    ensures table { workers_in (enabled (inner []) ∷ []) 5 ≡ Ok 1 }
{}

/// In a world that says nothing each key starts as the language has it.
pub fn empty_world_starts_as_the_language_says()
    ensures empty { world_in (document []) ≡ Ok empty_start }
    ensures no_toml { world_in None ≡ Err NotToml }
    ensures starts { (key : List ℕ) → starting_value_in empty_start key ≡ starting_value key }
{}

/// A leaf of `files` is a file at its joined key, one of `properties` a property, and the locale is
/// a text.
#[tactic(auto, using(crate::proofs::ExampleLemmas::files))]
pub fn worlds_give_starting_values()
    ensures file { file_in (files (at "a" (inner (at "b" (text "t") ∷ [])) ∷ []) ∷ []) "a.b"
        ≡ Ok (File (Some (codes "t"))) }
    ensures missing { file_in (files (at "a" (inner (at "b" (text "t") ∷ [])) ∷ []) ∷ []) "a"
        ≡ Ok (File None) }
    ensures not_a_property { file_in (properties (at "a" (text "t") ∷ []) ∷ []) "a"
        ≡ Ok (File None) }
    ensures property { property_in
        (properties (at "a" (inner (at "b" (text "t") ∷ [])) ∷ []) ∷ []) "a.b"
        ≡ Ok (Some (codes "t")) }
    ensures no_property { property_in (properties (at "a.b" (text "t") ∷ []) ∷ []) "a" ≡ Ok None }
    ensures not_a_file { property_in (files (at "a.b" (text "t") ∷ []) ∷ []) "a.b" ≡ Ok None }
    ensures apart { property_in (files (at "a.b" (text "f") ∷ [])
        ∷ properties (at "a.b" (text "t") ∷ []) ∷ []) "a.b"
        ≡ Ok (Some (codes "t")) }
    ensures kept { file_in (files (at "a.b" (text "t") ∷ []) ∷ locale (text "de")
        ∷ properties [] ∷ []) "a.b"
        ≡ Ok (File (Some (codes "t"))) }
    ensures locale { start_in (locale (text "de") ∷ []) locale_key ≡ Ok (Locale (codes "de")) }
    ensures other { start_in (properties (at "a" (text "t") ∷ []) ∷ []) (codes "a") ≡ Ok Plain }
{}

/// A text and a joined key have at most 4,096 bytes, and all are printable, which is tested first.
#[tactic(auto, using(crate::proofs::ExampleLemmas::limits))]
pub fn worlds_have_limits()
    ensures fits { (t : List ℕ) → is_printable t ≡ true → length t ≤ TEXT_BYTES
        → start_in (locale (string t) ∷ []) locale_key ≡ Ok (Locale t) }
    ensures long { (t : List ℕ) → is_printable t ≡ true → TEXT_BYTES < length t
        → world_of (locale (string t) ∷ []) ≡ Err (OutOfRange (codes "locale")) }
    ensures hidden { (t : List ℕ) → is_printable t ≡ false
        → world_of (locale (string t) ∷ []) ≡ Err (WrongValue (codes "locale")) }
    ensures long_text { (t : List ℕ) → is_printable t ≡ true → TEXT_BYTES < length t
        → world_of (files (at "a" (string t) ∷ []) ∷ []) ≡ Err (OutOfRange (codes "files.a")) }
    ensures hidden_text { (t : List ℕ) → is_printable t ≡ false
        → world_of (files (at "a" (string t) ∷ []) ∷ []) ≡ Err (WrongValue (codes "files.a")) }
    ensures long_key { (k : List ℕ) → is_printable k ≡ true → TEXT_BYTES < length k
        → world_of (files ((k, text "t") ∷ []) ∷ []) ≡ Err (OutOfRange (codes "files." ++ k)) }
    ensures hidden_key { (k : List ℕ) → is_printable k ≡ false
        → world_of (files ((k, text "t") ∷ []) ∷ []) ≡ Err (WrongValue (codes "files." ++ k)) }
    ensures printable { is_printable (0x20 ∷ 0x7E ∷ []) ≡ true }
    ensures below { is_printable (0x1F ∷ []) ≡ false }
    ensures above { is_printable (0x7F ∷ []) ≡ false }
{}

/// The first fault is answered, depth first. A key that is reached a second time is wrong.
#[tactic(auto, using(crate::proofs::ExampleLemmas::files))]
pub fn first_fault_of_a_world_is_answered()
    ensures locale { world_of (locale (number 1) ∷ []) ≡ Err (WrongValue (codes "locale")) }
    ensures other { world_of (at "a" (inner []) ∷ locale (number 1) ∷ [])
        ≡ Err (WrongValue (codes "a")) }
    ensures no_table { world_of (at "files" (text "a") ∷ []) ≡ Err (WrongValue (codes "files")) }
    ensures inside { world_of
        (files (at "a" (inner (at "z" (number 1) ∷ [])) ∷ at "b" (number 1) ∷ []) ∷ [])
        ≡ Err (WrongValue (codes "files.a.z")) }
    ensures twice { world_of
        (files (at "a" (inner (at "b" (text "t") ∷ [])) ∷ at "a.b" (text "t") ∷ []) ∷ [])
        ≡ Err (WrongValue (codes "files.a.b")) }
    ensures unprintable { world_of (properties (at "a" (text "\n") ∷ []) ∷ [])
        ≡ Err (WrongValue (codes "properties.a")) }
{}
