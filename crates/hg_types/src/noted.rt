//! Values that are noted, which only contracts see.

ghost use Rattle.std.specs.Prelude.{◌≡◌, List, [], ◌∷◌, map};
ghost use Rattle.std.specs.Borrow.{ftrue};

use std::marker::{Model, PhantomData};

/// The values that were noted, which contracts see as `items`: none, or one. It has no bytes, and its functions do
/// nothing when they run: so what it says is as true as the code that notes it.
#[derive(Drop)]
pub struct Noted<T> {
    of: PhantomData<T>,
    pub ghost items: { List T },
}

impl<T> Model for Noted<T> {
    ghost also_owns = { λ _. ftrue };
}

// It owns nothing.
unsafe impl<T: Send> Send for Noted<T> {}

impl<T> Noted<T> {
    /// Nothing is noted.
    pub fn nothing() -> Noted<T>
        ensures { result.items ≡ [] }
    {
        Noted { of: PhantomData }
    }

    /// This value is noted.
    pub fn of(value: &T) -> Noted<T>
        ensures { result.items ≡ value.now ∷ [] }
    {
        Noted { of: PhantomData }
    }

    /// Each value is noted with this one beside it.
    pub fn beside<U>(&self, other: &U) -> Noted<(T, U)>
        ensures { result.items ≡ map (λ item. (item, other.now)) self.now.items }
    {
        Noted { of: PhantomData }
    }

    /// The same values are noted once more.
    pub fn again(&self) -> Noted<T>
        ensures { result.items ≡ self.now.items }
    {
        Noted { of: PhantomData }
    }
}
