ghost use Rattle.std.specs.Prelude.{◌≡◌, [], List, length, IfOk, IfErr};
ghost use Rattle.std.specs.Cmp.Lexicographic.{pointwise, lists_per, lists_equiv};

use std::alloc::{AllocError, Global};
use std::marker::Model;
use std::sync::Arc;

/// A list that does not change. A clone shares its items.
#[derive(Debug, Drop)]
pub struct Sequence<T> {
    items: Arc<Vec<T>>,
}

impl<T> Model for Sequence<T> {
    ghost use Rattle.std.specs.Prelude.{List};
    ghost use Rattle.std.specs.Arc.{arc_value};

    ghost Value = { List T };

    ghost view = { λ s. (arc_value s.items).items };
}

impl<T: Drop> Sequence<T> {
    pub fn from_vec(alloc: Global, items: Vec<T>) -> Result<Sequence<T>, AllocError>
        ensures { IfOk result (λ s. s ≡ items.items) }
    {
        Ok(Sequence {
            items: Arc::new(alloc, items)?,
        })
    }
}

impl<T> Sequence<T> {
    pub fn as_slice(&self) -> &[T]
        ensures { result.now ≡ self.now }
    {
        self.items.as_slice()
    }

    pub fn len(&self) -> usize
        ensures { result ≡ length self.now }
    {
        self.items.len()
    }
}

impl<T: Drop> Clone for Sequence<T> {
    ghost is_clone = { λ x y. y ≡ x };

    fn clone(&self) -> Result<Sequence<T>, AllocError> {
        Ok(Sequence {
            items: Arc::try_clone(&self.items)?,
        })
    }
}

impl<T: PartialEq> PartialEq for Sequence<T> {
    ghost eq = { pointwise T.eq };

    ghost laws = { lists_per T.laws };

    fn eq(&self, other: &Sequence<T>) -> bool {
        *self.items == *other.items
    }
}

impl<T: Eq> Eq for Sequence<T> {
    ghost laws = { lists_equiv T.Eq.laws };
}
