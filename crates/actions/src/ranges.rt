// Whether an action is in range: its numbers, its counts, and the entries up to them.
ghost use Rattle.std.specs.Prelude.{◌≡◌, ◌&&◌, leb};
ghost use Rattle.actions.specs.Actions.{uses_of, governs_of, action_fits};
ghost use Rattle.lists.specs.Lists.{every};
ghost use Rattle.rights.specs.Rights.{is_right};
ghost use Rattle.register.specs.Limits.{id_limit};

use crate::{Action, FLAGS_LIMIT};

// Whether each use's numbers are in range.
fn uses_fit(a: Action) -> bool
    ensures { result ≡ every (λ u. leb u.resource id_limit && is_right u.right) (uses_of a) }
{
    for u in &a.uses[..a.used.min(Action::USES)] {
        if register::ID_LIMIT < u.resource {
            return false;
        }
        if rights::POLICY_MODIFY < u.right {
            return false;
        }
    }
    true
}

// Whether each governed number is in range.
fn governs_fit(a: Action) -> bool
    ensures { result ≡ every (λ g. leb g id_limit) (governs_of a) }
{
    for g in &a.governs[..a.governed.min(Action::GOVERNED)] {
        if register::ID_LIMIT < *g {
            return false;
        }
    }
    true
}

// Whether an action's numbers and counts are in range.
pub fn action_fits(a: Action) -> bool
    ensures { result ≡ action_fits a }
{
    if register::ID_LIMIT < a.actor {
        return false;
    }
    if register::MOMENT_END <= a.now {
        return false;
    }
    if FLAGS_LIMIT < a.flags {
        return false;
    }
    if Action::USES < a.used {
        return false;
    }
    if Action::GOVERNED < a.governed {
        return false;
    }
    uses_fit(a) & governs_fit(a)
}
