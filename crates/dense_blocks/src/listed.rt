ghost use Rattle.std.specs.Prelude.{◌≡◌, ◌<◌, length, slice_set};

use std::marker::Model;

/// A `Vec`, seen by contracts as the list of its members.
#[derive(Debug, Drop)]
pub struct Listed<T> {
    items: Vec<T>,
}

impl<T> Model for Listed<T> {
    ghost use Rattle.std.specs.Prelude.{List};

    ghost Value = { List T };

    ghost view = { λ l. l.items.items };
}

impl<T> Listed<T> {
    /// The list of these members; takes no memory.
    pub fn of(items: Vec<T>) -> Listed<T>
        ensures { result ≡ items.items }
    {
        Listed { items }
    }

    /// The members, in order.
    pub fn as_slice(&self) -> &[T]
        ensures { result.now ≡ self.now }
    {
        self.items.as_slice()
    }
}

impl<T: Drop> Listed<T> {
    /// Puts the member at `index` in place of the one there; takes no memory.
    pub fn set(&mut self, index: usize, member: T)
        requires { index < length self.old }
        ensures { self.new ≡ slice_set self.old index member }
    {
        self.items[index] = member;
    }
}
