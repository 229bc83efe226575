//! Worked examples of the definitions, as public laws.
ghost use Rattle.std.specs.Prelude.{◌≡◌, ◌++◌, ◌∷◌, [], None, codes, true};
ghost use Rattle.iso_html.specs.Bars.{body_mark, key_marks};
ghost use Rattle.iso_html.specs.Examples.{had, of_files, of_input, several, taken_by_two};
ghost use Rattle.iso_html.specs.KeyUses.{no_usage, usage_of};
ghost use Rattle.iso_html.specs.Modes.{mode_text};
ghost use Rattle.iso_html.specs.Pages.{body_text, failure_text, tree_heading};
ghost use Rattle.iso_html.specs.PictureText.{mark_text};
ghost use Rattle.iso_html.specs.Pictures.{row_shapes};
ghost use Rattle.iso_html.specs.Quotes.{quote_text};
ghost use Rattle.iso_html.specs.Trees.{node_text, tree_text};
ghost use Rattle.iso_html.specs.declared.shape.Look.TheVariants.{Failed};
ghost use Rattle.iso_html.specs.declared.shape.Shape.TheVariants.{One, Several};
ghost use Rattle.iso_junit.specs.Examples.{cart_run, holders_failed, no_nodes, text_of};
ghost use Rattle.iso_lifecycle.specs.declared.kind.BodyKind.TheVariants.{AfterAll};
ghost use Rattle.iso_plan.specs.Examples.{cart_and_desk, concurrent_by_default, one_thread, writing_children};
ghost use Rattle.iso_waits.specs.Examples.{b_before_a, wait_for_b};

/// A test that passed is closed, with its time, its path, its place and its mode.
pub fn passed_test_is_closed()
    ensures { node_text cart_run concurrent_by_default 2 ≡ text_of
        ("<li id=\"n2\"><details><summary><span class=\"ok\">&#10003; ok</span> a <small>0.000002 s</small></summary>"
        ∷ "<p><code>shop.Cart.a</code> <code><bdi>cart.jtap</bdi>:3</code></p>"
        ∷ "<p>concurrent</p>"
        ∷ "</details></li>"
        ∷ []) }
{}

/// A test that failed is open, with its message and what it printed, by its display text.
pub fn failed_test_is_open()
    ensures { node_text cart_run concurrent_by_default 7 ≡ text_of
        ("<li id=\"n7\"><details open><summary><span class=\"bad\">&#10007; fail</span> the last <small>1.500000 s</small></summary>"
        ∷ "<p><code>shop.Cart.d</code> <code><bdi>cart.jtap</bdi>:10</code></p>"
        ∷ "<p>concurrent</p>"
        ∷ "<p>expected: &lt;6&gt; but was: &lt;5&gt;</p>"
        ∷ "<pre>"
        ∷ "say &quot;hi&quot; &amp; go"
        ∷ "</pre>"
        ∷ "</details></li>"
        ∷ []) }
{}

/// What went wrong is told with the place of what ended it and the command that runs it again, and
/// leads to the node in the tree.
pub fn failed_test_has_an_entry()
    ensures { failure_text cart_run [] of_files 7 ≡ text_of
        ("<article>"
        ∷ "<h3><span class=\"bad\">&#10007; fail</span> <a href=\"#n7\">shop.Cart.d</a></h3>"
        ∷ "<p><code><bdi>cart.jtap</bdi>:11</code>: expected: &lt;6&gt; but was: &lt;5&gt;</p>"
        ∷ "<pre>"
        ∷ "say &quot;hi&quot; &amp; go"
        ∷ "</pre>"
        ∷ "<p>again: <code><bdi>jtap run --world 'my world.toml' --processors 4 --only shop.Cart.d cart.jtap</bdi></code></p>"
        ∷ "</article>"
        ∷ []) }
{}

/// A class whose own blocks ended by a fault tells how many tests it blocks. Of a script from
/// standard input no command is told.
pub fn fault_of_a_class_has_an_entry()
    ensures { failure_text cart_run [] of_input 3
        ≡ text_of
        ("<article>"
        ∷ "<h3><span class=\"bad\">&#10007; fault</span> <a href=\"#n3\">shop.Cart.Till</a></h3>"
        ∷ "<p><code><bdi>cart.jtap</bdi>:5</code>: n is frozen</p>"
        ∷ "<p>blocks 2 tests</p>"
        ∷ "</article>"
        ∷ []) }
{}

/// A class that failed is open, and so is the class in it that it blocks.
pub fn classes_hold_what_stands_in_them()
    ensures { tree_text holders_failed concurrent_by_default ≡ text_of
        ("<ul>"
        ∷ "<li id=\"n1\"><details open><summary><span class=\"bad\">&#10007; fail</span> shop.A</summary>"
        ∷ "<p><code>shop.A</code> <code><bdi>cart.jtap</bdi>:2</code></p>"
        ∷ "<p>concurrent, reads <code>iso:global</code></p>"
        ∷ "<p>no</p>"
        ∷ "<ul>"
        ∷ "<li id=\"n2\"><details open><summary><span class=\"block\">&#9632; blocked</span> B</summary>"
        ∷ "<p><code>shop.A.B</code> <code><bdi>cart.jtap</bdi>:3</code></p>"
        ∷ "<p>concurrent</p>"
        ∷ "<p>no</p>"
        ∷ "<ul>"
        ∷ "</ul>"
        ∷ "</details></li>"
        ∷ "</ul>"
        ∷ "</details></li>"
        ∷ "</ul>"
        ∷ []) }
{}

/// A skipped test is closed, with its reason; what is skipped lets its class be ok.
pub fn skipped_tests_have_their_reason()
    ensures { node_text cart_run one_thread 9 ≡ text_of
        ("<li id=\"n9\"><details><summary><span class=\"skip\">&#8211; skipped</span> e <small>0.000004 s</small></summary>"
        ∷ "<p><code>shop.Desk.e</code> <code><bdi>cart.jtap</bdi>:14</code></p>"
        ∷ "<p>same thread</p>"
        ∷ "<p>no #1</p>"
        ∷ "</details></li>"
        ∷ []) }
{}

/// Behind the mode of a node stand its locks by key, and whether it reads or writes. Descendants of
/// a node that writes are on its thread.
pub fn locks_stand_behind_the_mode()
    ensures class { mode_text cart_and_desk concurrent_by_default 1
        ≡ text_of ("<p>concurrent, reads <code>iso:global</code>, writes <code>K</code></p>" ∷ []) }
    ensures test { mode_text cart_and_desk concurrent_by_default 3
        ≡ text_of ("<p>same thread</p>" ∷ []) }
{}

/// A run of no nodes is ok, and has an empty list; nothing went wrong in it.
pub fn empty_run_has_an_empty_page()
    ensures { body_text no_nodes concurrent_by_default [] of_files None ≡ tree_heading ++ text_of
        ("<ul>"
        ∷ "</ul>"
        ∷ "</section>"
        ∷ "</main>"
        ∷ "</body>"
        ∷ "</html>"
        ∷ []) }
{}

/// Of the lines of a script the one that ended a block is marked, and what isn't printable ASCII is
/// told by a question mark.
pub fn line_that_ended_a_block_is_marked()
    ensures some { quote_text 11 (record {
      number = 10;
      text = codes "test d {";
    } ∷ record {
      number = 11;
      text = codes "\tassert 1 < x;" ++ 195 ∷ [];
    } ∷ [])
        ≡ text_of ("<pre>" ∷ "  10 | test d {" ∷ "<mark>&gt; 11 |  assert 1 &lt; x;?</mark>"
        ∷ "</pre>" ∷ []) }
    ensures none { quote_text 11 [] ≡ [] }
{}

/// Who had a key: the nodes that take it, in their order, from when they were entered until they
/// had finished. One waited for the other.
pub fn takers_of_a_key_had_it()
    ensures takers { key_marks writing_children b_before_a 1 ≡ had 2 7 9 ∷ had 3 3 6 ∷ [] }
    ensures usage { usage_of writing_children b_before_a (wait_for_b ∷ []) 1 ≡ taken_by_two }
    ensures another { usage_of writing_children b_before_a (wait_for_b ∷ []) 2 ≡ no_usage }
{}

/// The bar of a critical body has a class more, and its title says so.
pub fn critical_bodies_are_marked()
    ensures { mark_text cart_run 1000000 2 (body_mark 1 Failed true AfterAll (record {
      worker = 2;
      begin = 250000;
      end = 1000000;
    })) ≡ text_of
        ("<rect class=\"f c\" x=\"250.00\" y=\"50\" width=\"750.00\" height=\"20\"><title>shop.Cart after_all: fail, critical, 0.000250 s to 0.001000 s</title></rect>"
        ∷ []) }
{}

/// In a row, here of two pixels, a bar as wide as a pixel stands by itself, and thinner ones are
/// one bar for each pixel in which they begin.
pub fn thin_bars_of_a_pixel_are_one()
    ensures { row_shapes 2 100000 5 (had 1 0 50 ∷ had 2 150 180 ∷ had 3 20 90 ∷ had 4 20 120 ∷ [])
        ≡ One 5 (had 4 20 120) ∷ Several 5 0 (several 2 1 0 90)
        ∷ Several 5 1 (several 1 2 150 180) ∷ [] }
{}
