//! What has a name.

ghost use Rattle.std.specs.Prelude.{◌≡◌, ◌<◌, IfSome, List, ℕ, length, map};
ghost use Rattle.std.specs.Str.{bytes_eq};
ghost use Rattle.trick_model.specs.Names.{find_name};

use trick_lang::Variable;
use trick_model::{Event, Group};

/// What has a name.
pub(crate) trait Named {
    /// Its name.
    ghost name: { Self → List ℕ };

    /// Whether its name has these bytes.
    fn is_named(&self, bytes: &[u8]) -> bool
        ensures { result ≡ bytes_eq bytes.now (name self.now) };
}

impl Named for Variable {
    ghost name = { λ variable. variable.name };

    fn is_named(&self, bytes: &[u8]) -> bool {
        bytes == self.name.as_slice()
    }
}

impl Named for Group {
    ghost name = { λ group. group.name };

    fn is_named(&self, bytes: &[u8]) -> bool {
        bytes == self.name.as_slice()
    }
}

impl Named for Event {
    ghost name = { λ event. event.name };

    fn is_named(&self, bytes: &[u8]) -> bool {
        bytes == self.name.as_slice()
    }
}

/// The place of the first item of this name.
pub(crate) fn place_of<T: Named>(items: &[T], name: &[u8]) -> Option<usize>
    ensures place { result ≡ find_name name.now (map T.name items.now) }
    ensures within { IfSome result (λ place. place < length items.now) }
{
    for place in 0..items.len() {
        if items[place].is_named(name) {
            return Some(place);
        }
    }
    None
}
