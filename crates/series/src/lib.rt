// A list of at most N items, which lie in the value itself: it is copied as they are.
#![tactic(auto)]

ghost use Rattle.std.specs.Prelude.{⊤, ◌≡◌, ◌+◌, ◌<◌, ◌≤◌, [], ◌∷◌, ◌++◌, length, take};
ghost use Rattle.std.specs.Borrow.{sem};
ghost use Rattle.series.specs.Front.{lends_front};

use std::alloc::AllocError;
use std::fmt;
use std::marker::Model;
use std::ops::{DerefSlice, DerefSliceMut};

// What stands in a place that holds no item.
pub trait Blank: Sized {
    ghost blank: { Self };

    fn blank() -> Self
        ensures { result ≡ blank };
}

// The places past the last item hold blanks, so two series of the same items are the same value.
#[derive(Drop)]
pub struct Series<T: Blank, const N: usize> {
    places: [T; N],
    count: usize,
}

impl<T: Blank, const N: usize> Model for Series<T, N> {
    ghost use Rattle.std.specs.Prelude.{length, take};
    ghost use Rattle.series.specs.Series.{Series as Items, Filled, filled};
    ghost use Rattle.series.specs.Places.{filled-items, length-items};

    ghost Value = { Items T };

    ghost view = { λ v. record { items = take v.count v.places } };

    ghost invariant = { λ v. Filled N T.blank v.count v.places };

    ghost inverse = { λ v. record { places = filled N T.blank v.items; count = length v.items } };

    ghost inverse_ok = { λ v h i. record {
      places = filled-items N T.blank v.count v.places h i;
      count = length-items N T.blank v.count v.places h i;
    } };
}

impl<T: Blank, const N: usize> Series<T, N> {
    ghost use Rattle.series.specs.Lends.{lends_slice};

    pub fn new() -> Self
    where
        T: Copy,
        ensures { result.items ≡ [] }
    {
        Series {
            places: [T::blank(); N],
            count: 0,
        }
    }

    // One item more, after the others.
    pub fn push(&mut self, item: T)
    where
        T: Drop,
        requires { length self.old.items < N }
        ensures { self.new.items ≡ self.old.items ++ item ∷ [] }
    {
        self.places[self.count] = item;
        self.count += 1;
    }

    pub fn len(&self) -> usize
        ensures value { result ≡ length self.now.items }
        ensures fits { result ≤ N }
    {
        self.as_slice().len()
    }

    pub fn as_slice(&self) -> &[T]
        ensures value { result.now ≡ self.now.items }
        ensures fits { length result.now ≤ N }
    {
        &self.places[..self.count]
    }

    pub fn as_mut_slice(&mut self) -> &mut [T]
        ensures* writes_back { sem 𝓛 (lends_slice T.row N.row T.Blank self.entry result) }
        ensures value { result.now ≡ self.old.items }
        ensures fits { length result.now ≤ N }
    {
        front(&mut self.places, self.count)
    }
}

impl<T: Blank + Copy, const N: usize> Default for Series<T, N> {
    ghost is_default = { λ v. v.items ≡ [] };

    fn default() -> Self {
        Self::new()
    }
}

impl<T: Blank + Copy, const N: usize> Clone for Series<T, N> {
    ghost is_clone = { λ v w. w ≡ v };

    ghost is_infallible = { λ _. ⊤ };

    fn clone(&self) -> Result<Self, AllocError> {
        Ok(*self)
    }
}

impl<T: Blank + Copy, const N: usize> Copy for Series<T, N> {}

impl<T: Blank + PartialEq, const N: usize> PartialEq for Series<T, N> {
    ghost use Rattle.std.specs.Cmp.{on_per};
    ghost use Rattle.std.specs.Cmp.Lexicographic.{pointwise, lists_per};

    ghost eq = { λ v w. pointwise T.eq v.items w.items };

    ghost laws = { on_per (λ v. v.items) (lists_per T.laws) };

    fn eq(&self, other: &Self) -> bool {
        self.as_slice() == other.as_slice()
    }
}

impl<T: Blank + Eq, const N: usize> Eq for Series<T, N> {
    ghost use Rattle.std.specs.Cmp.{on_equiv};
    ghost use Rattle.std.specs.Cmp.Lexicographic.{lists_equiv};

    ghost laws = { on_equiv (λ v. v.items) (lists_equiv T.Eq.laws) };
}

impl<T: Blank + fmt::Debug, const N: usize> fmt::Debug for Series<T, N> {
    fn fmt<W: fmt::Write>(&self, f: &mut fmt::Formatter<W>) -> fmt::Result {
        f.debug_list().entries(self.as_slice()).finish()
    }
}

impl<T: Blank, const N: usize> DerefSlice for Series<T, N> {
    type Elem = T;

    ghost deref_gives = { λ v xs. (xs ≡ v.items) × (length xs ≤ N) };

    fn deref(&self) -> &[T] {
        self.as_slice()
    }
}

impl<T: Blank, const N: usize> DerefSliceMut for Series<T, N> {
    ghost use Rattle.series.specs.Lends.{lends_slice};

    fn deref_mut(&mut self) -> &mut [T]
        ensures* writes_back { sem 𝓛 (lends_slice T.row N.row T.Blank self.entry result) }
        ensures value { result.now ≡ self.old.items }
        ensures fits { length result.now ≤ N }
    {
        self.as_mut_slice()
    }
}

// The first elements of an array, for writing.
fn front<T, const N: usize>(all: &mut [T; N], count: usize) -> &mut [T]
    requires { count ≤ N }
    ensures* writes_back { sem 𝓛 (lends_front T.row N all.entry count result) }
    ensures value { result.now ≡ take count all.old }
{
    &mut all[..count]
}
