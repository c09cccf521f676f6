// Conditions over flags that may be undefined.

ghost use Rattle.std.specs.Prelude.{◌≡◌, ◌||◌, ◌&&◌, not as negated};
ghost use Rattle.x64_machine.specs.Words.{both, of_one, same as same_flag, holds as condition_holds};

use x64_encode::Cc;
use x64_machine::Flags;

fn not(flag: Option<bool>) -> Option<bool>
    ensures { result ≡ of_one negated flag }
{
    match flag {
        Some(b) => Some(!b),
        None => None,
    }
}

fn either(a: Option<bool>, b: Option<bool>) -> Option<bool>
    ensures { result ≡ both (λ x y. x || y) a b }
{
    match a {
        None => None,
        Some(x) => match b {
            None => None,
            Some(y) => Some(x || y),
        },
    }
}

fn neither(a: Option<bool>, b: Option<bool>) -> Option<bool>
    ensures { result ≡ both (λ x y. negated (x || y)) a b }
{
    match a {
        None => None,
        Some(x) => match b {
            None => None,
            Some(y) => Some(!(x || y)),
        },
    }
}

fn is_same(x: bool, y: bool) -> bool
    ensures { result ≡ same_flag x y }
{
    if x { y } else { !y }
}

fn differ(a: Option<bool>, b: Option<bool>) -> Option<bool>
    ensures { result ≡ both (λ x y. negated (same_flag x y)) a b }
{
    match a {
        None => None,
        Some(x) => match b {
            None => None,
            Some(y) => Some(!is_same(x, y)),
        },
    }
}

fn agree(a: Option<bool>, b: Option<bool>) -> Option<bool>
    ensures { result ≡ both same_flag a b }
{
    match a {
        None => None,
        Some(x) => match b {
            None => None,
            Some(y) => Some(is_same(x, y)),
        },
    }
}

fn without(a: Option<bool>, b: Option<bool>) -> Option<bool>
    ensures { result ≡ both (λ x y. negated x && y) a b }
{
    match a {
        None => None,
        Some(x) => match b {
            None => None,
            Some(y) => Some(!x && y),
        },
    }
}

/// Whether a condition holds; nothing, where a flag that it needs is undefined.
pub(crate) fn holds(cond: Cc, flags: Flags) -> Option<bool>
    ensures { result ≡ condition_holds cond flags }
{
    match cond {
        Cc::O => flags.of,
        Cc::No => not(flags.of),
        Cc::B => flags.cf,
        Cc::Ae => not(flags.cf),
        Cc::E => flags.zf,
        Cc::Ne => not(flags.zf),
        Cc::Be => either(flags.cf, flags.zf),
        Cc::A => neither(flags.cf, flags.zf),
        Cc::S => flags.sf,
        Cc::Ns => not(flags.sf),
        Cc::L => differ(flags.sf, flags.of),
        Cc::Ge => agree(flags.sf, flags.of),
        Cc::Le => either(flags.zf, differ(flags.sf, flags.of)),
        Cc::G => without(flags.zf, agree(flags.sf, flags.of)),
    }
}
