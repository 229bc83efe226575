//! The suite that the calls are made on.

/// Classes with every kind of resource, blocks of every kind, every verdict, and one that is
/// disabled.
pub(crate) const SCRIPT: &[u8] = b"team shop
write \"java.util.Locale.default\" write \"java.lang.System.properties\"
class Prices \"prices #1\" {
  static rate = 19;
  field net = 100;
  before_all { rate = 20; set_prop \"a\", \"2\"; print \"opened\"; }
  after_all { print \"rate \" ++ text(rate); }
  before_each { net = net + 1; }
  after_each { clear_prop \"b\"; }
  test set {
    set_prop \"b\", prop(\"a\") ++ \"x\";
    set_locale \"pl\";
    print prop(\"b\") ++ locale();
    assert_equal 2020, net * rate;
    if has_prop(\"b\") { repeat 2 { let x = \"turn\"; print x; } } else { fail \"no\"; }
  }
  test miss { print prop(\"missing\"); }
  test skip { assume false, \"no #1\"; }
}
read \"file:a\" class Files {
  test look { print file(\"a\"); assert_equal \"t\", file(\"a\") ++ \"u\"; }
  write \"file:b\" test written { write_file \"b\", \"m\"; append_file \"b\", \"n\"; print file(\"b\"); delete_file \"b\"; }
  class Closed { before_all { fail \"no\"; } test never { } }
}
class Words {
  test join { let x = \"a\"; x = x ++ \"b\" ++ text(len(x)); if x != \"c\" { repeat 2 { let y = x ++ \"d\"; print y; } } else { fail \"no\"; }
    assert 1 < 2; assert_equal \"e\", x; }
}
disabled \"away\" class Away {
  static note = \"t\";
  test never { }
}
";

/// The class in it whose bodies have nothing to do.
pub(crate) const AWAY: u32 = 12;

/// All of its events, on the first of two workers.
pub(crate) const SCHEDULE: &[u8] = b"enter 0 1\nstep 0\nstep 0\nstep 0\nleave 0
enter 0 2\nstep 0\nstep 0\nstep 0\nstep 0\nstep 0\nstep 0\nstep 0\nstep 0\nstep 0\nstep 0\nstep 0\nstep 0\nstep 0\nstep 0\nleave 0
enter 0 3\nstep 0\nstep 0\nstep 0\nleave 0\nenter 0 4\nstep 0\nstep 0\nstep 0\nleave 0\nshut 0 1\nstep 0\nleave 0
enter 0 5\nleave 0\nenter 0 6\nstep 0\nstep 0\nleave 0\nenter 0 7\nstep 0\nstep 0\nstep 0\nstep 0\nleave 0
enter 0 8\nstep 0\nleave 0\nshut 0 8\nleave 0\nshut 0 5\nleave 0\nenter 0 10\nleave 0
enter 0 11\nstep 0\nstep 0\nstep 0\nstep 0\nstep 0\nstep 0\nstep 0\nstep 0\nstep 0\nstep 0\nstep 0\nstep 0\nleave 0
shut 0 10\nleave 0\nenter 0 12\nleave 0\nshut 0 12\nleave 0
";

/// Two workers, and nodes that are concurrent unless they are marked otherwise.
pub(crate) const SETTINGS: &str = "[junit.jupiter.execution.parallel]
enabled = true
mode.default = \"concurrent\"
config.strategy = \"fixed\"
config.fixed.parallelism = 2
";

/// A locale, a file and a property.
pub(crate) const WORLD: &str = "locale = \"de\"\nfiles.a = \"s\"\nproperties.a = \"1\"\n";
