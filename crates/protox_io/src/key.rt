ghost use Rattle.std.specs.Prelude.{◌≡◌, ◌≤◌, ◌<◌, ◌+◌, ◌^◌, ◌++◌, ◌∷◌, [], ℕ, OnSome, MatchOption, length, if◌then◌else◌};
ghost use Rattle.protox_io.specs.Paths.{disk_key, key_eq, component_eq, bare, is_dot, component};
ghost use Rattle.protox_io.specs.Backwards.{component_of, components_of, key_left, IsPartStart, NamesParent, Shortens};

/// A component of a key.
#[derive(Clone, Copy)]
enum KeyPart<'a> {
    Root,
    Parent,
    Named(&'a [u8]),
}

fn same_part(left: KeyPart<'_>, right: KeyPart<'_>) -> bool
    ensures { result ≡ component_eq (component_of left.entry) (component_of right.entry) }
{
    match (left, right) {
        (KeyPart::Root, KeyPart::Root) | (KeyPart::Parent, KeyPart::Parent) => true,
        (KeyPart::Named(left), KeyPart::Named(right)) => left == right,
        _ => false,
    }
}

/// Where the last part of a path begins.
fn part_start(path: &[u8]) -> usize
    ensures { IsPartStart path.now result }
{
    let mut at = path.len();
    while at > 0 && path[at - 1] != b'/' {
        at -= 1;
    }
    at
}

/// A part without a slash. A dot is none.
fn named(part: &[u8]) -> Option<KeyPart<'_>>
    ensures named { components_of result ≡ (if is_dot part.now then [] else component part.now ∷ []) }
    ensures parent { NamesParent part.now result }
{
    if part == b".".as_slice() {
        return None;
    }
    if part == b"..".as_slice() {
        return Some(KeyPart::Parent);
    }
    Some(KeyPart::Named(part))
}

/// Takes the last part from a path: what is left, and the component, if the part is one.
fn take_last(path: &[u8]) -> (&[u8], Option<KeyPart<'_>>)
    requires { 0 < length path.now }
    ensures bare { bare path.now ≡ bare result.0.now ++ components_of result.1 }
    ensures shorter { Shortens path.now result.0.now result.1 }
{
    let start = part_start(path);
    if start < path.len() {
        let (front, part) = path.split_at(start);
        return (front, named(part));
    }
    let (front, _) = path.split_at(start - 1);
    if front.is_empty() {
        (front, Some(KeyPart::Root))
    } else {
        (front, None)
    }
}

/// The components of a path's key, the last first. Each `..` waits for a component to take away.
#[derive(Drop)]
struct KeyBackwards<'a> {
    rest: &'a [u8],
    pending: usize,
    ghost bounded: { pending + length rest.now < 2 ^ 64 },
}

impl<'a> KeyBackwards<'a> {
    fn new(path: &'a str) -> Self
        ensures { key_left result.pending result.rest.now ≡ key_left 0 path.now }
    {
        KeyBackwards {
            rest: path.as_bytes(),
            pending: 0,
        }
    }

    fn next(&mut self) -> Option<KeyPart<'a>>
        ensures left { MatchOption result (key_left self.old.pending self.old.rest.now ≡ [])
            (λ part. key_left self.old.pending self.old.rest.now ≡ component_of part ∷ key_left self.new.pending self.new.rest.now) }
        ensures fewer { OnSome result (self.new.pending + length self.new.rest.now < self.old.pending + length self.old.rest.now) }
    {
        while !self.rest.is_empty() {
            let (front, part) = take_last(self.rest);
            self.rest = front;
            match part {
                None => {}
                Some(KeyPart::Parent) => self.pending += 1,
                Some(KeyPart::Root) => {
                    self.pending = 0;
                    return Some(KeyPart::Root);
                }
                Some(KeyPart::Named(name)) => {
                    if self.pending == 0 {
                        return Some(KeyPart::Named(name));
                    }
                    self.pending -= 1;
                }
            }
        }
        if self.pending == 0 {
            return None;
        }
        self.pending -= 1;
        Some(KeyPart::Parent)
    }
}

/// Whether a disk files both paths under one key. It takes no memory: both keys are made from their ends.
pub(crate) fn same_key(left: &str, right: &str) -> bool
    ensures { result ≡ key_eq (disk_key left.now) (disk_key right.now) }
{
    let mut left = KeyBackwards::new(left);
    let mut right = KeyBackwards::new(right);
    'parts: loop {
        match (left.next(), right.next()) {
            (None, None) => return true,
            (Some(a), Some(b)) => {
                if !same_part(a, b) {
                    return false;
                }
            }
            (None, Some(_)) => return false,
            (Some(_), None) => return false,
        }
    }
}
