//! Signs and words.
ghost use Rattle.std.specs.Prelude.{◌≡◌};
ghost use Rattle.iso_html.specs.Signs.{access_verb, critical_word, mode_word, ok_sign, sign, verdict_word, word_for};
ghost use Rattle.iso_lifecycle.specs.ResultViews.{verdict_of_view};

use iso_lifecycle::view::ViewVerdict;
use iso_model::access::Access;
use iso_model::script::Mode;

/// A check mark, or a cross.
pub(crate) fn ok_sign(ok: bool) -> &'static str
    ensures { result.now ≡ ok_sign ok }
{
    if ok {
        "<span class=\"ok\">&#10003; ok</span>"
    } else {
        "<span class=\"bad\">&#10007; not ok</span>"
    }
}

/// The sign of a node with this verdict; one that passed is not ok where something in it isn't.
pub(crate) fn sign(ok: bool, verdict: ViewVerdict<'_>) -> &'static str
    ensures { result.now ≡ sign ok (verdict_of_view verdict.entry) }
{
    match verdict {
        ViewVerdict::Pass => ok_sign(ok),
        ViewVerdict::Fail(_) => "<span class=\"bad\">&#10007; fail</span>",
        ViewVerdict::Fault(_, _) => "<span class=\"bad\">&#10007; fault</span>",
        ViewVerdict::Skipped(_) => "<span class=\"skip\">&#8211; skipped</span>",
        ViewVerdict::Blocked(_) => "<span class=\"block\">&#9632; blocked</span>",
    }
}

/// A verdict in a word.
pub(crate) fn verdict_word(verdict: ViewVerdict<'_>) -> &'static str
    ensures { result.now ≡ verdict_word (verdict_of_view verdict.entry) }
{
    match verdict {
        ViewVerdict::Pass => "ok",
        ViewVerdict::Fail(_) => "fail",
        ViewVerdict::Fault(_, _) => "fault",
        ViewVerdict::Skipped(_) => "skipped",
        ViewVerdict::Blocked(_) => "blocked",
    }
}

/// A mode in words.
pub(crate) fn mode_word(mode: Mode) -> &'static str
    ensures { result.now ≡ mode_word mode }
{
    match mode {
        Mode::SameThread => "same thread",
        Mode::Concurrent => "concurrent",
    }
}

/// What a node does with a key that it takes.
pub(crate) fn access_verb(access: Access) -> &'static str
    ensures { result.now ≡ access_verb access }
{
    match access {
        Access::Read => ", reads",
        Access::Write => ", writes",
    }
}

/// That a body is critical, or that one of several is.
pub(crate) fn critical_word(critical: bool) -> &'static str
    ensures { result.now ≡ critical_word critical }
{
    if critical { ", critical" } else { "" }
}

/// The word for one thing, or the word for several.
pub(crate) fn word_for<'a>(count: u32, one: &'a str, many: &'a str) -> &'a str
    ensures { result.now ≡ word_for count one.now many.now }
{
    if count == 1 { one } else { many }
}
