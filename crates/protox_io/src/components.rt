//! Walks over the components of a path, from its begin.

ghost use Rattle.std.specs.Prelude.{◌≡◌, ◌<◌, ◌==◌, ◌&&◌, ◌∷◌, ◌++◌, [], ◌⊎◌, IsTrue, not, length, IfSome, OnSome, MatchOption, if◌then◌else◌};
ghost use Rattle.protox_io.specs.Paths as paths;
ghost use Rattle.protox_io.specs.Paths.{parts, start, is_rooted, components, component, component_eq, bare};
ghost use Rattle.protox_io.specs.Left.{component_of, part_or_none, body, left};

/// A component of a path, other than `.`.
#[derive(Clone, Copy)]
pub(crate) enum Part<'a> {
    Root,
    Parent,
    Named(&'a str),
}

pub(crate) fn same_part(left: Part<'_>, right: Part<'_>) -> bool
    ensures { result ≡ component_eq (component_of left.entry) (component_of right.entry) }
{
    match (left, right) {
        (Part::Root, Part::Root) | (Part::Parent, Part::Parent) => true,
        (Part::Named(left), Part::Named(right)) => left == right,
        _ => false,
    }
}

/// What stands before the first slash, and what stands behind it.
fn split_first(path: &str) -> (&str, &str)
    ensures parts { parts path.now ≡ part_or_none result.0.now ++ parts result.1.now }
    ensures rooted { is_rooted path.now ≡ ((length result.0.now == 0) && not (length path.now == 0)) }
    ensures shorter { (length result.1.now < length path.now) ⊎ (length path.now ≡ 0) }
{
    match path.split_once('/') {
        Some((part, rest)) => (part, rest),
        None => (path, ""),
    }
}

/// The first part that is not empty, and what stands behind it.
fn next_part(path: &str) -> Option<(&str, &str)>
    ensures parts { MatchOption result (parts path.now ≡ []) (λ x. parts path.now ≡ x.0.now ∷ parts x.1.now) }
    ensures shorter { IfSome result (λ x. length x.1.now < length path.now) }
{
    let mut rest = path;
    while !rest.is_empty() {
        let (part, later) = split_first(rest);
        rest = later;
        if !part.is_empty() {
            return Some((part, rest));
        }
    }
    None
}

/// A part other than `.`.
fn named(part: &str) -> Part<'_>
    ensures { component_of result ≡ component part.now }
{
    if part == ".." {
        Part::Parent
    } else {
        Part::Named(part)
    }
}

pub(crate) fn starts_with_slash(path: &str) -> bool
    ensures { result ≡ is_rooted path.now }
{
    let (part, _) = split_first(path);
    if part.is_empty() {
        !path.is_empty()
    } else {
        false
    }
}

/// Whether a path begins with `.` as a part.
pub(crate) fn starts_with_dot(path: &str) -> bool
    ensures { start path.now ≡ (if is_rooted path.now then paths.Root ∷ [] else if result then paths.Current ∷ [] else []) }
{
    let (part, _) = split_first(path);
    part == "."
}

/// The components of a path that are still to come, without `.`.
#[derive(Clone, Copy)]
pub(crate) struct Components<'a> {
    rest: &'a str,
    // Whether the root is still to come, which then stands in `rest`.
    rooted: bool,
    ghost opened: { IsTrue rooted → IsTrue (is_rooted rest.now) },
}

impl<'a> Components<'a> {
    pub(crate) fn new(path: &'a str) -> Self
        ensures { left result.rooted result.rest.now ≡ bare path.now }
    {
        Components {
            rest: path,
            rooted: starts_with_slash(path),
        }
    }

    pub(crate) fn next(&mut self) -> Option<Part<'a>>
        ensures left { MatchOption result (left self.old.rooted self.old.rest.now ≡ [])
            (λ part. left self.old.rooted self.old.rest.now ≡ component_of part ∷ left self.new.rooted self.new.rest.now) }
        ensures fewer { OnSome result (length self.new.rest.now < length self.old.rest.now) }
    {
        if self.rooted {
            let (_, rest) = split_first(self.rest);
            self.rooted = false;
            self.rest = rest;
            return Some(Part::Root);
        }
        'parts: loop {
            match next_part(self.rest) {
                None => return None,
                Some((part, rest)) => {
                    self.rest = rest;
                    if part != "." {
                        return Some(named(part));
                    }
                }
            }
        }
    }

    /// A text whose components are those that are still to come.
    pub(crate) fn as_text(self) -> &'a str
        ensures { components result.now ≡ left self.entry.rooted self.entry.rest.now }
    {
        let mut rest = self.rest;
        if self.rooted {
            return rest;
        }
        while !rest.is_empty() {
            let (part, later) = split_first(rest);
            if !part.is_empty() && part != "." {
                return rest;
            }
            rest = later;
        }
        rest
    }
}
