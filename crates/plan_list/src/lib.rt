// A list of at most so many elements, which lie in the value itself and are copied with it. Assumes nothing.
#![tactic(auto)]

ghost use Rattle.std.specs.Prelude.{◌≡◌, ◌+◌, ◌^◌, ◌<◌, ◌≤◌, [], ◌∷◌, ◌++◌, length};
ghost use Rattle.std.specs.Iterator.Runs.{EveryRun, ItemsMapTo};
ghost use Rattle.std.specs.Slice.Iter.{iter_rest, iter_steps};
ghost use Rattle.arrayvec.specs.ArrayVec.{array_vec_len};

use std::alloc::AllocError;
use std::marker::Model;
use std::ops::DerefSlice;
use std::slice;

mod blank;

pub use blank::Blank;

// A list of at most CAP elements. A copy of it is the same list.
pub struct List<T: Blank, const CAP: usize> {
    places: [T; CAP],
    len: usize,
}

impl<T: Blank, const CAP: usize> Model for List<T, CAP> {
    ghost use Rattle.std.specs.Prelude.{◌≡◌, ◌-◌, ◌≤◌, ◌++◌, length, take, drop, replicate};
    ghost use Rattle.arrayvec.specs.ArrayVec.{ArrayVec as Items, array_vec_code};
    ghost use Rattle.plan_list.specs.Places.{used, filled};

    ghost Value = { Items T };

    ghost coded = { array_vec_code T.code };

    ghost view = { λ l. record { items = take l.len l.places } };

    ghost invariant = { λ l. (l.len ≤ CAP) × (length l.places ≡ CAP) × (drop l.len l.places ≡ replicate (CAP - l.len) T.blank) };

    ghost inverse = { λ v. record { places = v.items ++ replicate (CAP - length v.items) T.blank; len = length v.items } };

    ghost inverse_ok = { λ l h i. record { places = filled l.places h.0 h.1 T.blank h.2 i; len = used l.places h.0 h.1 i } };
}

impl<T: Blank, const CAP: usize> Clone for List<T, CAP> {
    ghost is_clone = { λ l m. m ≡ l };

    ghost is_infallible = { λ _. Unit {0} };

    fn clone(&self) -> Result<Self, AllocError> {
        Ok(*self)
    }
}

impl<T: Blank, const CAP: usize> Copy for List<T, CAP> {}

impl<T: Blank, const CAP: usize> List<T, CAP> {
    // The list with no element.
    pub fn new() -> Self
        ensures { result.items ≡ [] }
    {
        List {
            places: [T::blank(); CAP],
            len: 0,
        }
    }

    // How many elements there are.
    #[inline]
    pub fn len(&self) -> usize
        ensures value { result ≡ array_vec_len self.now }
        ensures fits { result ≤ CAP }
    {
        self.as_slice().len()
    }

    // The elements.
    #[inline]
    pub fn as_slice(&self) -> &[T]
        ensures value { result.now ≡ self.now.items }
        ensures fits { length result.now ≤ CAP }
    {
        &self.places[..self.len]
    }

    // Puts an element behind the others. There must be room.
    #[inline]
    pub fn push(&mut self, element: T)
        requires { array_vec_len self.old < CAP }
        ensures items { self.new.items ≡ self.old.items ++ element ∷ [] }
        ensures len { array_vec_len self.new ≡ array_vec_len self.old + 1 }
    {
        let len = self.len;
        self.places[len] = element;
        self.len = len + 1;
    }

    // Takes every element out. It writes the places that were in use, and no other.
    pub fn clear(&mut self)
        ensures { self.new.items ≡ [] }
    {
        for place in 0..self.len {
            self.places[place] = T::blank();
        }
        self.len = 0;
    }
}

impl<T: Blank, const CAP: usize> Default for List<T, CAP> {
    ghost is_default = { λ l. l.items ≡ [] };

    fn default() -> Self {
        Self::new()
    }
}

impl<T: Blank, const CAP: usize> DerefSlice for List<T, CAP> {
    type Elem = T;

    ghost deref_gives = { λ l xs. (xs ≡ l.items) × (length xs ≤ CAP) };

    #[inline]
    fn deref(&self) -> &[T] {
        self.as_slice()
    }
}

impl<'a, T: Blank, const CAP: usize> IntoIterator for &'a List<T, CAP> {
    type Item = &'a T;

    type IntoIter = slice::Iter<'a, T>;

    ghost into_iter_gives = { λ l it. (iter_rest it ≡ l.now.items) × (length (iter_rest it) < 2 ^ 64)
        × EveryRun (iter_steps {A = T}) (λ p. ItemsMapTo p (λ x. x.now) (iter_rest p.from)) };

    fn into_iter(self) -> slice::Iter<'a, T> {
        self.as_slice().iter()
    }
}
