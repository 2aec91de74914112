// One table of a day: an array with room for its rows, and how many are in use.
ghost use Rattle.std.specs.Prelude.{◌≡◌, ◌+◌, ◌<◌, ◌≤◌, ◌==◌, [], ◌∷◌, ◌++◌, length, take};
ghost use Rattle.std.specs.Fn.{FnOnceReturnsAtMut, FnOnceTakesAtMut};

use std::alloc::AllocError;

// Not the kit's `ArrayVec`: no copy can be made of one, and it fills its array row by row.
/// Rows in the order in which they were added: the first `len` of the array.
#[derive(Copy)]
pub struct Table<R, const CAP: usize> {
    pub rows: [R; CAP],
    pub len: usize,
    ghost few: { len ≤ CAP },
    ghost whole: { length rows ≡ CAP },
}

impl<R: Copy, const CAP: usize> Clone for Table<R, CAP> {
    ghost is_clone = { λ t copy. copy ≡ t };

    ghost is_infallible = { λ _. Unit {0} };

    fn clone(&self) -> Result<Self, AllocError> {
        Ok(*self)
    }
}

#[tactic(auto, unfolding(crate::specs::Used::used))]
impl<R: Copy, const CAP: usize> Table<R, CAP> {
    ghost use Rattle.tables.specs.Used.{used};

    /// A table with no rows.
    pub fn new() -> Self
    where
        R: Default,
        ensures { used result ≡ [] }
    {
        Table {
            rows: [R::default(); CAP],
            len: 0,
        }
    }

    /// How many rows there are.
    pub fn len(&self) -> usize
        ensures value { result ≡ length (used self.now) }
        ensures fits { result ≤ CAP }
    {
        self.len
    }

    /// Whether there is no room for another row.
    pub fn is_full(&self) -> bool
        ensures value { result ≡ (length (used self.now) == CAP) }
        ensures fits { length (used self.now) ≤ CAP }
    {
        self.len == CAP
    }

    /// The rows.
    pub fn as_slice(&self) -> &[R]
        ensures value { result.now ≡ used self.now }
        ensures fits { length result.now ≤ CAP }
    {
        &self.rows[..self.len]
    }

    /// Adds a row behind the others.
    pub fn push(&mut self, row: R)
        requires { length (used self.old) < CAP }
        ensures rows { used self.new ≡ used self.old ++ row ∷ [] }
        ensures len { length (used self.new) ≡ length (used self.old) + 1 }
    {
        self.rows[self.len] = row;
        self.len += 1;
    }

    /// Adds rows behind the others.
    pub fn extend_from_slice(&mut self, rows: &[R])
        requires { length (used self.old) + length rows.now ≤ CAP }
        ensures { used self.new ≡ used self.old ++ rows.now }
    {
        for row in rows {
            self.push(*row);
        }
    }

    // As a closure: of a part of an array that is handed out as `&mut`, a proof does not know what it leaves.
    /// Makes a change to the rows.
    pub fn edit<F: FnOnce(&mut [R])>(&mut self, change: F)
        requires { FnOnceTakesAtMut F.FnOnce change (used self.old) }
        ensures rows { FnOnceReturnsAtMut F.FnOnce change (used self.old) tt (used self.new) }
        ensures len { length (used self.new) ≡ length (used self.old) }
    {
        edit_front(&mut self.rows, self.len, change);
    }

    /// Takes out all rows.
    pub fn clear(&mut self)
        ensures { used self.new ≡ [] }
    {
        self.len = 0;
    }
}

/// Makes a change to the first `len` rows.
fn edit_front<R, F: FnOnce(&mut [R])>(rows: &mut [R], len: usize, change: F)
    requires within { len ≤ length rows.old }
    requires takes { FnOnceTakesAtMut F.FnOnce change (take len rows.old) }
    ensures front { FnOnceReturnsAtMut F.FnOnce change (take len rows.old) tt (take len rows.new) }
    ensures len { length rows.new ≡ length rows.old }
{
    change(&mut rows[..len]);
}
