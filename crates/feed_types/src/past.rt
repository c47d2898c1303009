//! A list that only proofs read: what went by, where nothing of it is kept.

ghost use Rattle.std.specs.Prelude.{◌≡◌, List, [], ◌∷◌, ◌++◌};
ghost use Rattle.std.specs.Borrow.{ftrue};

use std::marker::{Model, PhantomData};

/// The items so far, in order. It takes no memory, and its calls do nothing when they run.
#[derive(Drop)]
pub struct Past<T> {
    of: PhantomData<T>,
    pub ghost items: { List T },
}

impl<T> Model for Past<T> {
    ghost also_owns = { λ _. ftrue };
}

// It owns nothing.
unsafe impl<T: Send> Send for Past<T> {}

impl<T> Past<T> {
    /// Returns the list of no items.
    pub fn new() -> Past<T>
        ensures { result.items ≡ [] }
    {
        Past { of: PhantomData }
    }

    /// Returns the list with one more item, at its end.
    #[inline(always)]
    pub fn with(&self, _item: &T) -> Past<T>
        ensures { result.items ≡ self.now.items ++ _item.now ∷ [] }
    {
        Past { of: PhantomData }
    }
}
