//! Worked examples of the definitions, computed by the checker. Each function does nothing: its
//! contract is the example.
ghost use Rattle.std.specs.Prelude.{◌≡◌, ◌∷◌, [], None, Some, codes, false, true};
ghost use Rattle.iso_commands.specs.Examples.{named, plain};
ghost use Rattle.iso_commands.specs.Replays.{can_be_told, replay_line};
ghost use Rattle.iso_summary.specs.Examples.{long_dash, turned_text};

/// Only what was given is told.
pub fn command_has_what_was_given()
    ensures { replay_line plain ≡ codes "replay: jtap replay --schedule run.schedule shop.jtap\n" }
{}

/// Each option is told once for each of its words, and words are quoted where a shell would read
/// them otherwise.
pub fn command_has_all_words()
    ensures { replay_line named
        ≡ codes "replay: jtap replay --schedule ./-r --settings s.toml --world w.toml --processors 4 --only a.B --match 'a.*' --only-from 'f g' --shard 2/3 a.jtap b.jtap\n" }
{}

/// It is told where a script is named, the list of paths isn't standard input, and each character
/// of a word is seen.
pub fn command_is_told_where_it_can_be_pasted()
    ensures named { can_be_told named ≡ true }
    ensures script { can_be_told (record named { scripts = [] }) ≡ false }
    ensures list { can_be_told (record named { only_from = Some (codes "-") }) ≡ false }
    ensures control { can_be_told (record plain { schedule = codes "a\nb" }) ≡ false }
    ensures turned { can_be_told (record plain { schedule = turned_text }) ≡ false }
    ensures dash { can_be_told (record plain { schedule = long_dash }) ≡ true }
{}
