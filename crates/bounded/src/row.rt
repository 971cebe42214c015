// A list of at most N items, in an array of N places with its length.
ghost use Rattle.std.specs.Prelude.{⊤, ◌≡◌, ◌+◌, ◌<◌, ◌≤◌, ◌↔◌, IsTrue, [], ◌∷◌, ◌++◌, length, map, replicate, slice_set};

use std::alloc::AllocError;
use std::ops::DerefSlice;

// kept: an array with its length: no call below the programs may allocate, and this is the one place where such a pair stands
#[derive(Copy)]
pub struct Row<T: Copy, const N: usize> {
    slots: [T; N],
    len: usize,
    ghost within: { len ≤ N },
}

impl<T: Copy, const N: usize> Row<T, N> {
    ghost use Rattle.bounded.specs.Rows.{items, places};

    // No item, and this one at every place where one could lie.
    pub fn blank(item: T) -> Self
        ensures none { items result ≡ [] }
        ensures places { places result ≡ replicate N item }
    {
        Row {
            slots: [item; N],
            len: 0,
        }
    }

    // These items, and the blank one at the places after them.
    pub fn of(blank: T, list: &[T]) -> Self
        requires { length list.now ≤ N }
        ensures { items result ≡ list.now }
    {
        let mut row = Self::blank(blank);
        row.extend_from_slice(list);
        row
    }

    pub fn as_slice(&self) -> &[T]
        ensures { result.now ≡ items self.now }
    {
        &self.slots[..self.len]
    }

    pub fn len(&self) -> usize
        ensures is { result ≡ length (items self.now) }
        ensures within { result ≤ N }
    {
        self.as_slice().len()
    }

    pub fn is_empty(&self) -> bool
        ensures { IsTrue result ↔ (items self.now ≡ []) }
    {
        self.as_slice().is_empty()
    }

    pub fn push(&mut self, item: T)
        requires { length (items self.old) < N }
        ensures { items self.new ≡ items self.old ++ item ∷ [] }
    {
        self.slots[self.len] = item;
        self.len += 1;
    }

    pub fn extend_from_slice(&mut self, more: &[T])
        requires { length (items self.old) + length more.now ≤ N }
        ensures { items self.new ≡ items self.old ++ more.now }
    {
        let end = self.len + more.len();
        let slots: &mut [T] = &mut self.slots;
        slots[self.len..end].copy_from_slice(more);
        self.len = end;
    }

    // The row of what a function makes of each item, and this one at the places after them.
    pub fn map<U: Copy, F: Fn(T) -> U>(&self, blank: U, f: F) -> Row<U, N>
        requires { F.IsAlwaysCallable f }
        ensures { (g : T → U) → ((x : T) (y : U) → F.post f x y → y ≡ g x) → items result ≡ map g (items self.now) }
    {
        let mut made = Row::blank(blank);
        for item in self.as_slice() {
            made.push(f(*item));
        }
        made
    }

    // Puts an item in the place of another.
    pub fn set(&mut self, place: usize, item: T)
        requires { place < length (items self.old) }
        ensures { items self.new ≡ slice_set (items self.old) place item }
    {
        self.slots[place] = item;
    }
}

// kept: a clone by hand: a derive is refused over a ghost field where the type of an item is a parameter
impl<T: Copy, const N: usize> Clone for Row<T, N> {
    ghost is_clone = { λ a b. b ≡ a };

    ghost is_infallible = { λ _. ⊤ };

    fn clone(&self) -> Result<Self, AllocError> {
        Ok(*self)
    }
}

impl<T: Copy, const N: usize> DerefSlice for Row<T, N> {
    ghost use Rattle.bounded.specs.Rows.{items};

    type Elem = T;

    ghost deref_gives = { λ row list. list ≡ items row };

    fn deref(&self) -> &[T] {
        self.as_slice()
    }
}
