//! The example of three teams, as it stands in `examples/teams`: properties, a locale, files, a
//! class that isn't opened, a skipped test, an isolated class.
#![tactic(auto)]

/// The starting values of its resources, as `--world` takes them.
pub const WORLD: &str = r#"locale = "de"

[files]
"/orders/today.csv" = "pen, book"
"/orders/db" = "v1"
"/ops/schema" = "v1"

[properties]
"shop.currency" = "USD"
"#;

/// The script of the team `shop`.
pub const SHOP: &str =
    r#"// Prices in system properties and labels in the default locale. What a test changes, the next one finds restored.
team shop

write "java.lang.System.properties"
class Prices "prices #1: with tax" {
    static rate = 19;
    field net = 100;

    before_all {
        set_prop "shop.currency", "EUR";
        print "prices in " ++ prop("shop.currency");
    }
    before_each { net = net + 100; }

    test tax {
        assert_equal 3800, net * rate;
    }
    test francs "another currency" {
        set_prop "shop.currency", "CHF";
        print "prices in " ++ prop("shop.currency");
    }
    test euros "the currency of the class again" {
        assert_equal "EUR", prop("shop.currency");
    }
}

read "java.util.Locale.default"
class Labels {
    test german { assert_equal "de", locale(); }
    test french "labels in French" {
        assume locale() == "fr", "French labels come with #12";
        print "not reached";
    }
    write "java.util.Locale.default"
    test polish {
        set_locale "pl";
        print locale();
    }
}
"#;

/// The script of the team `orders`.
pub const ORDERS: &str =
    r#"// Orders in files. The database has another version than its class wants, so nothing in that class runs.
team orders

class Reports {
    read "file:/orders/today.csv"
    test lines "today's orders" {
        print file("/orders/today.csv");
        assert_equal 9, len(file("/orders/today.csv"));
    }
    write "file:/orders/report.txt"
    test written {
        write_file "/orders/report.txt", "2 orders";
        append_file "/orders/report.txt", ", 1 open";
        assert_equal "2 orders, 1 open", file("/orders/report.txt");
    }
    write "file:/orders/report.txt"
    test gone "nothing is left of the report" {
        assert has_file("/orders/report.txt") == false;
    }
    test undeclared {
        print "looking";
        print file("/orders/report.txt");
    }
}

read "file:/orders/db"
class Database {
    before_all {
        print "opening the database";
        assert_equal "v2", file("/orders/db");
    }
    after_all { print "closed"; }

    test insert { print "not reached"; }

    class Queries {
        test by_name { }
    }
}
"#;

/// The script of the team `ops`.
pub const OPS: &str = r#"// Nothing else runs beside the migration.
team ops

isolated
class Migration "migration \"v2\"" {
    before_each { print "lock"; }
    after_each { print "unlock"; }

    write "file:/ops/schema"
    test moves "the schema moves to v2" {
        assert_equal "v1", file("/ops/schema");
        write_file "/ops/schema", "v2";
        print "schema " ++ file("/ops/schema");
    }

    class Rollback {
        after_each { print "undone"; }

        write "file:/ops/schema"
        test back {
            repeat 2 { print "step"; }
            fail "no way \\ back";
        }
    }
}

concurrent
class Health {
    test alive { assert true; }
    test ready { assert_equal 4, 2 + 2; }
}
"#;

/// The report of its run, by any number of workers (TAP version 14).
pub const REPORT: &str = r#"TAP version 14
1..6
# Subtest: shop.prices \#1: with tax
    1..3
    ok 1 - tax
    ok 2 - another currency
      ---
      verdict: pass
      output:
        - "prices in CHF"
      ...
    ok 3 - the currency of the class again
ok 1 - shop.prices \#1: with tax
  ---
  verdict: pass
  output:
    - "prices in EUR"
  ...
# Subtest: shop.Labels
    1..3
    ok 1 - german
    ok 2 - labels in French # SKIP French labels come with \#12
      ---
      verdict: skipped
      message: "French labels come with #12"
      at: "test row 2"
      output: []
      ...
    ok 3 - polish
      ---
      verdict: pass
      output:
        - "pl"
      ...
ok 2 - shop.Labels
# Subtest: orders.Reports
    1..4
    ok 1 - today's orders
      ---
      verdict: pass
      output:
        - "pen, book"
      ...
    ok 2 - written
    ok 3 - nothing is left of the report
    not ok 4 - undeclared
      ---
      verdict: fault
      message: "undeclared READ of file:/orders/report.txt"
      at: "test row 3"
      output:
        - "looking"
      ...
not ok 3 - orders.Reports
# Subtest: orders.Database
    1..2
    not ok 1 - insert
      ---
      verdict: blocked
      message: "expected: <v2> but was: <v1>"
      at: "class 1 before_all row 3"
      output: []
      ...
    # Subtest: Queries
        1..1
        not ok 1 - by_name
          ---
          verdict: blocked
          message: "expected: <v2> but was: <v1>"
          at: "class 1 before_all row 3"
          output: []
          ...
    not ok 2 - Queries
      ---
      verdict: blocked
      message: "expected: <v2> but was: <v1>"
      at: "class 1 before_all row 3"
      output: []
      ...
not ok 4 - orders.Database
  ---
  verdict: fail
  message: "expected: <v2> but was: <v1>"
  at: "class 1 before_all row 3"
  output:
    - "opening the database"
    - "closed"
  ...
# Subtest: ops.migration "v2"
    1..2
    ok 1 - the schema moves to v2
      ---
      verdict: pass
      output:
        - "lock"
        - "schema v2"
        - "unlock"
      ...
    # Subtest: Rollback
        1..1
        not ok 1 - back
          ---
          verdict: fail
          message: "no way \\ back"
          at: "test row 3"
          output:
            - "lock"
            - "step"
            - "step"
            - "undone"
            - "unlock"
          ...
    not ok 2 - Rollback
not ok 5 - ops.migration "v2"
# Subtest: ops.Health
    1..2
    ok 1 - alive
    ok 2 - ready
ok 6 - ops.Health
"#;
