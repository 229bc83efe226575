//! What mends a fault: by rules, by the table of hints, and by how forms are written.
ghost use Rattle.std.specs.Prelude.{◌≡◌, ℕ, List, map, option_map};
ghost use Rattle.iso_explain.specs.Rules.{rule_of};
ghost use Rattle.iso_explain.specs.Mending.{form_of, form_or_none, has_form, hint_of, is_joint, is_unfit, other_of, table_hint, tells_hint, told_by, told_of};
ghost use Rattle.iso_explain.specs.Spots.{IsPlaceOf};

use crate::met::met_of;
use crate::rule::{Rule, told_in};
use crate::{first, other};
use iso_hints::hint::{form_for, hint_for};
use iso_hints::place::Place;
use iso_script::explain::{Explained, Reason, Unmet, Wanted};
use iso_script_lexer::symbol::Symbol;
use iso_script_statements::fault::{ScriptFault, ScriptFaultKind};

/// The hint for a fault: what a rule says that is asked first, or else what the table says.
pub(crate) fn hint_of(place: &Place<'_>, explained: &Explained<'_>) -> Option<&'static str>
    ensures { (bytes : List ℕ) → IsPlaceOf place.now bytes explained.now.fault
        → option_map (λ h. h.now) result ≡ hint_of bytes explained.now }
{
    told_by(first::RULES, place, explained).or(table_hint(place, explained.fault))
}

/// What is told where there is no hint, and no word was meant: what another rule says, or else how
/// what is begun is written.
pub(crate) fn other_of(place: &Place<'_>, explained: &Explained<'_>) -> Option<&'static str>
    ensures { (bytes : List ℕ) → IsPlaceOf place.now bytes explained.now.fault
        → option_map (λ h. h.now) result ≡ other_of bytes explained.now }
{
    told_by(other::RULES, place, explained).or(form_of(place, explained))
}

/// What these rules say of a fault.
fn told_by(
    rules: &'static [Rule],
    place: &Place<'_>,
    explained: &Explained<'_>,
) -> Option<&'static str>
    ensures { (bytes : List ℕ) → IsPlaceOf place.now bytes explained.now.fault
        → option_map (λ h. h.now) result ≡ told_by (map rule_of rules.now) bytes explained.now }
{
    match explained.reason {
        Reason::Unmet(unmet) => told_of(rules, place, explained.fault, unmet),
        Reason::Kind | Reason::Beyond(_) => None,
    }
}

/// The same, of what is wanted and what is found.
fn told_of(
    rules: &'static [Rule],
    place: &Place<'_>,
    fault: ScriptFault,
    unmet: Unmet<'_>,
) -> Option<&'static str>
    ensures { (bytes : List ℕ) → IsPlaceOf place.now bytes fault
        → option_map (λ h. h.now) result ≡ told_of (map rule_of rules.now) bytes fault unmet.entry }
{
    if is_unfit(fault.kind) {
        told_in(rules, met_of(place, unmet))
    } else {
        None
    }
}

/// Whether a fault of this kind is a token that doesn't fit.
fn is_unfit(kind: ScriptFaultKind) -> bool
    ensures { result ≡ is_unfit kind }
{
    matches!(kind, ScriptFaultKind::Expected)
}

/// What the table of hints says of a fault, if it is of a kind that has hints.
fn table_hint(place: &Place<'_>, fault: ScriptFault) -> Option<&'static str>
    ensures { (bytes : List ℕ) → IsPlaceOf place.now bytes fault
        → option_map (λ h. h.now) result ≡ table_hint bytes fault }
{
    if tells_hint(fault.kind) {
        hint_for(place)
    } else {
        None
    }
}

/// Whether a fault of this kind may have a hint: a token that doesn't fit, or none.
fn tells_hint(kind: ScriptFaultKind) -> bool
    ensures { result ≡ tells_hint kind }
{
    matches!(
        kind,
        ScriptFaultKind::Expected | ScriptFaultKind::BadToken | ScriptFaultKind::BadByte
    )
}

/// How what is begun is written, where that says more than what is wanted.
fn form_of(place: &Place<'_>, explained: &Explained<'_>) -> Option<&'static str>
    ensures { (bytes : List ℕ) → IsPlaceOf place.now bytes explained.now.fault
        → option_map (λ h. h.now) result ≡ form_of bytes explained.now }
{
    match explained.reason {
        Reason::Unmet(unmet) => form_or_none(place, explained.fault, unmet.wanted),
        Reason::Kind | Reason::Beyond(_) => None,
    }
}

/// The same, where this is wanted.
fn form_or_none(place: &Place<'_>, fault: ScriptFault, wanted: Wanted) -> Option<&'static str>
    ensures { (bytes : List ℕ) → IsPlaceOf place.now bytes fault
        → option_map (λ h. h.now) result ≡ form_or_none bytes fault wanted }
{
    if is_unfit(fault.kind) && has_form(wanted) {
        form_for(place)
    } else {
        None
    }
}

/// Whether how a statement or head is written says more than that this is wanted: a name, a text or
/// a body, or what stands between two parts.
fn has_form(wanted: Wanted) -> bool
    ensures { result ≡ has_form wanted }
{
    match wanted {
        Wanted::Name | Wanted::Text | Wanted::Display => true,
        Wanted::Symbol(symbol) => is_joint(symbol),
        Wanted::Operator(symbol) => is_joint(symbol),
        Wanted::SameOperator(_, symbol) => is_joint(symbol),
        _ => false,
    }
}

/// Whether a symbol stands between two parts of a statement or head.
fn is_joint(symbol: Symbol) -> bool
    ensures { result ≡ is_joint symbol }
{
    matches!(symbol, Symbol::Equals | Symbol::Comma | Symbol::OpenBrace)
}
