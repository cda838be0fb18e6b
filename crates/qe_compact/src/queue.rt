//! Lists of which the front is taken.

ghost use Rattle.std.specs.Prelude.{◌≡◌, ◌^◌, ◌<◌, ◌≤◌, ◌++◌, length, drop, IfOk, OnOk, OnErr};

use qe_base::NoMemory;
use std::alloc::Global;
use std::marker::Model;

/// A list of which the front is taken. It stands in one piece of memory, so it is a slice at any time; what was taken
/// keeps its place until all is. Contracts see what is left.
#[derive(Drop)]
pub(crate) struct Queue<T> {
    items: Vec<T>,
    taken: usize,
}

impl<T> Model for Queue<T> {
    ghost use Rattle.std.specs.Prelude.{◌≤◌, List, length, drop};
    ghost use Rattle.std.specs.Coded.{coded_list};

    ghost Value = { List T };

    ghost coded = { coded_list T.code };

    ghost view = { λ q. drop q.taken q.items.items };

    ghost invariant = { λ q. q.taken ≤ length q.items.items };
}

impl<T> Queue<T> {
    /// The items of a vector.
    pub(crate) fn new(items: Vec<T>) -> Self
        ensures items { result ≡ items.items }
        ensures short { length result < 2 ^ 63 }
    {
        Queue { items, taken: 0 }
    }

    /// What is left.
    pub(crate) fn slice(&self) -> &[T]
        ensures { result.now ≡ self.now }
    {
        &self.items[self.taken..]
    }
}

impl<T: Copy> Queue<T> {
    /// Adds items at the end.
    pub(crate) fn extend(&mut self, items: &[T]) -> Result<(), NoMemory>
        ensures ok { OnOk result (self.new ≡ self.old ++ items.now) }
        ensures err { OnErr result (self.new ≡ self.old) }
    {
        self.items.extend_from_slice(items)?;
        Ok(())
    }

    /// Takes so many items from the front. It takes no memory.
    pub(crate) fn drop_front(&mut self, count: usize)
        requires { count ≤ length self.old }
        ensures { self.new ≡ drop count self.old }
    {
        self.taken += count;
        if self.taken == self.items.len() {
            self.items.clear();
            self.taken = 0;
        }
    }

    /// Another list of what is left.
    pub(crate) fn copy(&self, alloc: Global) -> Result<Self, NoMemory>
        ensures { IfOk result (λ other. other ≡ self.now) }
    {
        let items = Vec::from_slice(alloc, self.slice())?;
        Ok(Queue::new(items))
    }
}
