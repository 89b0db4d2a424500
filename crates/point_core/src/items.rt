//! `Items`: a list that callers can read but not change, for fields of public types.
ghost use Rattle.std.specs.Prelude.{◌≡◌};

use std::marker::Model;
use std::mem::swap;

/// A list that is only read. It is made of a `Vec`, and gives it back; contracts see it as a list.
#[derive(Debug, Drop)]
pub struct Items<T> {
    items: Vec<T>,
}

impl<T> Model for Items<T> {
    ghost use Rattle.std.specs.Prelude.{List};

    ghost Value = { List T };

    ghost view = { λ l. l.items.items };
}

impl<T> Items<T> {
    pub fn of(items: Vec<T>) -> Self
        ensures { result ≡ items.items }
    {
        Items { items }
    }

    pub fn as_slice(&self) -> &[T]
        ensures { result.now ≡ self.now }
    {
        self.items.as_slice()
    }

    /// Exchanges the list for the items of a `Vec`. Does not allocate.
    pub fn exchange(&mut self, items: &mut Vec<T>)
        ensures taken { self.new ≡ items.old.items }
        ensures given { items.new.items ≡ self.old }
    {
        swap(&mut self.items, items);
    }

    /// The `Vec` that the list was made of.
    pub fn into_vec(self) -> Vec<T>
        ensures { result.items ≡ self }
    {
        let Items { items } = self;
        items
    }
}

impl<T: PartialEq> PartialEq for Items<T> {
    ghost use Rattle.std.specs.Cmp.Lexicographic.{pointwise, lists_per};

    ghost eq = { pointwise T.eq };

    ghost laws = { lists_per T.laws };

    fn eq(&self, other: &Items<T>) -> bool {
        self.as_slice() == other.as_slice()
    }
}

impl<T: Eq> Eq for Items<T> {
    ghost use Rattle.std.specs.Cmp.Lexicographic.{lists_equiv};

    ghost laws = { lists_equiv T.Eq.laws };
}
