//! Worked examples of what is told, as public laws.
ghost use Rattle.std.specs.Prelude.{◌≡◌, ◌++◌, ◌∷◌, [], Float, None, Some, codes, replicate, true};
ghost use Rattle.iso_explain_settings.specs.Examples.{lines_of, listed, refused, setting_told, warned_of, world_told};
ghost use Rattle.iso_explain_settings.specs.Explanations.{missing_text};
ghost use Rattle.iso_explain_settings.specs.Refusals.{refusal_text};
ghost use Rattle.iso_explain_settings.specs.Told.{table_text, twice_text};
ghost use Rattle.iso_explain_settings.specs.Wanted.{world_wanted};
ghost use Rattle.iso_explain_settings.specs.declared.value.Kind.TheVariants as K;
ghost use Rattle.iso_model.specs.declared.script.Mode.TheVariants.{Concurrent, SameThread};
ghost use Rattle.iso_settings.specs.Examples.{default_mode, enabled, number, parallelism, set, text, yes};
ghost use Rattle.toml.specs.Data.{float, string};

/// Of a value it is told what it is, what its key takes, and what mends it: the word that was
/// meant, or else a hint.
pub fn values_are_told()
    ensures near { setting_told K.Wrong "execution.parallel.mode.default"
        (text "concurent") "\"concurent\""
        ≡ lines_of
        (" = found: \"concurent\", a text"
        ∷ " = junit.jupiter.execution.parallel.mode.default takes \"same_thread\" or \"concurrent\""
        ∷ " = did you mean `concurrent`?"
        ∷ []) }
    ensures hint { setting_told K.Wrong "execution.parallel.enabled" (text "on") "\"on\""
        ≡ lines_of
        (" = found: \"on\", a text"
        ∷ " = junit.jupiter.execution.parallel.enabled takes true or false"
        ∷ " = write true or false, without quotes"
        ∷ []) }
    ensures point { (x : Float) → setting_told K.Wrong "execution.parallel.config.fixed.parallelism"
        (float x) "4.0"
        ≡ lines_of
        (" = found: 4.0, a float"
        ∷ " = junit.jupiter.execution.parallel.config.fixed.parallelism takes a whole number, 1 to 64"
        ∷ " = write the number without a point"
        ∷ []) }
    ensures custom { setting_told K.Unsupported "execution.parallel.config.strategy"
        (text "custom") "\"custom\""
        ≡ lines_of
        (" = found: \"custom\", a text"
        ∷ " = junit.jupiter.execution.parallel.config.strategy takes \"dynamic\" or \"fixed\""
        ∷ " = a custom strategy is a Java class, and none is run here"
        ∷ []) }
    ensures range { setting_told K.OutOfRange "execution.parallel.config.dynamic.factor"
        (number 65) "65"
        ≡ lines_of
        (" = found: 65, a whole number"
        ∷ " = junit.jupiter.execution.parallel.config.dynamic.factor takes a whole number, 1 to 64"
        ∷ []) }
{}

/// The same of worlds, whose keys are told where there is no such one.
pub fn values_of_worlds_are_told()
    ensures quotes { world_told K.Wrong "files.a.b" (number 1) "1"
        ≡ lines_of
        (" = found: 1, a whole number"
        ∷ " = files.a.b takes a text of printable ASCII, at most 4096 bytes"
        ∷ " = write it as a text, in double quotes"
        ∷ []) }
    ensures key { world_told K.Wrong "local" (text "de") "\"de\""
        ≡ lines_of
        (" = found: \"de\", a text"
        ∷ " = there is no key local: a world has files, locale and properties"
        ∷ " = did you mean `locale`?"
        ∷ []) }
    ensures table { table_text (world_wanted (codes "file")) (codes "file")
        ≡ lines_of
        (" = found: a table"
        ∷ " = there is no key file: a world has files, locale and properties"
        ∷ " = did you mean `files`?"
        ∷ []) }
    ensures header { world_told K.Wrong "files" (text "t") "\"t\""
        ≡ lines_of
        (" = found: \"t\", a text"
        ∷ " = files takes a table of texts"
        ∷ " = write a header such as [files], and a line for each text below it"
        ∷ []) }
    ensures hidden { world_told K.Wrong "locale" (string (0x7F ∷ [])) "\"\\u007F\""
        ≡ lines_of
        (" = found: \"\\u007F\", a text"
        ∷ " = locale takes a text of printable ASCII, at most 4096 bytes"
        ∷ " = a byte of the text isn't printable ASCII"
        ∷ []) }
    ensures long { world_told K.OutOfRange "locale" (string (replicate 4097 97)) "\"aaaa\""
        ≡ lines_of
        (" = found: \"aaaa\", a text of 4097 bytes"
        ∷ " = locale takes a text of printable ASCII, at most 4096 bytes"
        ∷ " = the key has 6 bytes: behind files. or properties. at most 4096"
        ∷ []) }
{}

/// No control byte of a key is shown as it is.
pub fn control_bytes_of_keys_are_not_shown()
    ensures { twice_text (27 ∷ codes "a")
        ≡ lines_of
        (" = ?a stands twice: keep one"
        ∷ " = a table, dots and quotes may spell the same key: [a] with b = 1, a.b = 1, and \"a.b\" = 1"
        ∷ []) }
{}

/// Where the number of workers is missing, a line is told that can be pasted.
pub fn missing_parallelism_is_told()
    ensures { missing_text
        ≡ lines_of
        (" = the fixed strategy takes a number of workers; write at the top of the file"
        ∷ " = \"junit.jupiter.execution.parallel.config.fixed.parallelism\" = 4"
        ∷ " = or leave the strategy out: it is then as many as --processors says"
        ∷ []) }
{}

/// Of a document that is none the place is told, its line with the parser's message, and what mends
/// it.
pub fn refusals_are_told()
    ensures word { refused "a = 1\nenabled = tru\r\n" 16 19 "invalid value, expected a string"
        ≡ lines_of
        (" --> s.toml:2:11"
        ∷ " 2 | enabled = tru"
        ∷ "   |           ^^^ invalid value, expected a string"
        ∷ " = texts stand in double quotes, true and false without"
        ∷ []) }
    ensures header { refused "[files" 6 6 "unclosed table, expected `]`"
        ≡ lines_of (" --> s.toml:1:7" ∷ " 1 | [files"
        ∷ "   |       ^ unclosed table, expected `]`" ∷ []) }
    ensures utf8 { refusal_text (27 ∷ codes "w") (codes "a = \"" ++ 0xE4 ∷ codes "\"") 5 5
        (codes "invalid UTF-8")
        ≡ lines_of
        (" --> \\u001Bw:1:6" ∷ " 1 | a = \"?\"" ∷ "   |      ^ invalid UTF-8"
        ∷ " = \\u001Bw is not UTF-8" ∷ []) }
    ensures utf16 { refusal_text (codes "w") (0xFF ∷ 0xFE ∷ 97 ∷ 0 ∷ []) 0 0 (codes "invalid UTF-8")
        ≡ lines_of
        (" --> w:1:1" ∷ " 1 | ??a?" ∷ "   | ^ invalid UTF-8"
        ∷ " = w is UTF-16: save it as UTF-8" ∷ []) }
{}

/// Each key has its value and says where this is from; then come keys that are unknown, and the
/// workers.
pub fn settings_are_listed()
    ensures { listed
        (enabled yes ∷ parallelism (text "4") ∷ default_mode (text "Concurrent") ∷ set "x" yes ∷ [])
        (record {
          parallel = true;
          default_mode = Concurrent;
          classes_default_mode = Concurrent;
          worker_count = 1;
        }) 1
        ≡ lines_of
        ("junit.jupiter.execution.parallel.enabled = true (file)"
        ∷ "junit.jupiter.execution.parallel.mode.default = \"concurrent\" (file)"
        ∷ "junit.jupiter.execution.parallel.mode.classes.default = \"concurrent\" (default)"
        ∷ "junit.jupiter.execution.parallel.config.strategy = \"dynamic\" (default)"
        ∷ "junit.jupiter.execution.parallel.config.dynamic.factor = 1 (default)"
        ∷ "junit.jupiter.execution.parallel.config.fixed.parallelism = 4 (file, not used: strategy is dynamic)"
        ∷ "junit.jupiter.testinstance.lifecycle.default = \"per_method\" (default)"
        ∷ "unknown junit.jupiter.x"
        ∷ "1 worker: strategy is dynamic, --processors is 1, factor is 1"
        ∷ []) }
{}

/// Values that aren't used and keys that are unknown are warned of.
pub fn settings_are_warned_of()
    ensures { warned_of (parallelism (text "4") ∷ enabled yes ∷ set "x" yes ∷ []) true
        ≡ lines_of
        ("jtap: warning: s.toml: junit.jupiter.execution.parallel.config.fixed.parallelism isn't used: strategy is dynamic"
        ∷ "jtap: warning: s.toml: unknown junit.jupiter.x"
        ∷ []) }
{}
