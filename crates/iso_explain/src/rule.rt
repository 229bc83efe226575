//! Rules: what is told where something is wanted and something else is found.
ghost use Rattle.std.specs.Prelude.{◌≡◌, map, option_map};
ghost use Rattle.iso_explain.specs.Rules.{fits, rule_of, told_in};

use crate::find::{Find, finds};
use crate::met::Met;
use crate::want::{Want, wants};

/// A kind of what is wanted, a kind of what is found, and what is told.
pub(crate) type Rule = (Want, Find, &'static str);

/// What the first of these rules tells that fits what is met.
pub(crate) fn told_in(rules: &'static [Rule], met: Met) -> Option<&'static str>
    ensures { option_map (λ told. told.now) result ≡ told_in (map rule_of rules.now) met }
{
    for rule in rules {
        if fits(rule, met) {
            return Some(rule.2);
        }
    }
    None
}

/// Whether a rule fits what is met.
fn fits(rule: &Rule, met: Met) -> bool
    ensures { result ≡ fits met (rule_of rule.now) }
{
    wants(met, rule.0) && finds(met, rule.1)
}
