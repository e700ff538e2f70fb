// Packages and what their names begin with (language guide: "Packages").
ghost use Rattle.std.specs.Prelude.{◌≡◌};
ghost use Rattle.std.specs.List.{list_any};
ghost use Rattle.pbx_link_definitions.specs.Names.{among, prefixes};
ghost use Rattle.pbx_link_scope.specs.Scope.{package_prefixes};
ghost use Rattle.pbx_link_rules.specs.Rules.{pool_names};
ghost use Rattle.pbx_link_rules.specs.Parts.{ends_part as ends_part_of};

use pbx_link_scope::Pooled;
use pbx_wire::Text;

/// Whether the pool defines this full name.
pub(crate) fn is_defined<P: Pooled>(pool: &P, name: &str) -> bool
    ensures { result ≡ among (pool_names (P.files pool.now)) name.now }
{
    pool.definition_with_file(name).is_some()
}

/// Whether the pool defines the whole name or a name of whole parts that it begins with.
fn has_defined_prefix<P: Pooled>(pool: &P, whole: &str) -> bool
    ensures { result ≡ list_any (among (pool_names (P.files pool.now))) (prefixes whole.now) }
{
    let mut current = whole;
    while let Some(at) = current.rfind('.') {
        if is_defined(pool, current) {
            return true;
        }
        current = &current[..at];
    }
    is_defined(pool, current)
}

/// Whether the pool defines the name of the package, if there is one, or a name that it begins with.
pub(crate) fn is_defined_package<P: Pooled>(pool: &P, declared: &Option<Text>) -> bool
    ensures { result ≡ list_any (among (pool_names (P.files pool.now))) (package_prefixes declared.now) }
{
    match declared {
        Some(whole) => has_defined_prefix(pool, whole.as_str()),
        None => false,
    }
}

/// Whether a name's part ends before this rest of the name.
fn ends_part(rest: &[u8]) -> bool
    ensures { result ≡ ends_part_of rest.now }
{
    match rest {
        [first, ..] => *first == b'.',
        [] => true,
    }
}

/// Whether the whole name is this name, or begins with it and a dot.
fn has_prefix(whole: &str, name: &str) -> bool
    ensures { result ≡ among (prefixes whole.now) name.now }
{
    match whole.as_bytes().strip_prefix(name.as_bytes()) {
        Some(rest) => ends_part(rest),
        None => false,
    }
}

/// Whether there is a package, and its name is this name, or begins with it and a dot.
pub(crate) fn is_in_package(declared: &Option<Text>, name: &str) -> bool
    ensures { result ≡ among (package_prefixes declared.now) name.now }
{
    match declared {
        Some(whole) => has_prefix(whole.as_str(), name),
        None => false,
    }
}
