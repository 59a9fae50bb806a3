//! Stacks, which contracts see as lists with the topmost item first.

ghost use Rattle.std.specs.Prelude.{◌≡◌, ◌<◌, ◌+◌, ◌-◌, ◌≤◌, OnOk, OnErr, IfNone, IfOk, List, [], ◌∷◌, ◌++◌, length, reverse, take, drop, slice_get, slice_index_or, option_to_list};
ghost use Rattle.std.specs.Option.{option_copied};
ghost use Rattle.ps_step.specs.declared.item.Item.TheVariants.{Procedure};

use crate::item::Item;
use ps_store::ArrayId;
use std::alloc::{AllocError, Global};
use std::marker::Model;
use std::mem;

/// A stack, kept with its topmost item last.
#[derive(Drop)]
pub struct Stack<T> {
    items: Vec<T>,
}

impl<T> Model for Stack<T> {
    ghost use Rattle.std.specs.Prelude.{List, reverse};

    ghost Value = { List T };

    ghost view = { λ s. reverse s.items.items };
}

impl<T: Copy> Stack<T> {
    /// An empty stack.
    pub fn new(alloc: Global) -> Stack<T>
        ensures { result ≡ [] }
    {
        Stack {
            items: Vec::new(alloc),
        }
    }

    /// The stack of these items, the topmost last.
    pub fn from_vec(items: Vec<T>) -> Stack<T>
        ensures { result ≡ reverse items.items }
    {
        Stack { items }
    }

    /// The items, the topmost last.
    pub fn into_vec(self) -> Vec<T>
        ensures { reverse result.items ≡ self }
    {
        self.items
    }

    /// A stack of copies of these items, the topmost last.
    pub fn copy_of(alloc: Global, items: &[T]) -> Result<Stack<T>, AllocError>
        ensures { IfOk result (λ stack. stack ≡ reverse items.now) }
    {
        let items = Vec::from_slice(alloc, items)?;
        Ok(Stack { items })
    }

    /// The allocator of the items.
    pub fn allocator(&self) -> Global {
        *self.items.allocator()
    }

    /// How many items there are.
    pub fn len(&self) -> usize
        ensures { result ≡ length self.now }
    {
        self.items.len()
    }

    /// Puts an item on top.
    pub fn push(&mut self, item: T) -> Result<(), AllocError>
        ensures ok { OnOk result (self.new ≡ item ∷ self.old) }
        ensures err { OnErr result (self.new ≡ self.old) }
    {
        self.items.push(item)?;
        Ok(())
    }

    /// Takes the topmost item.
    pub fn pop(&mut self) -> Option<T>
        ensures items { self.old ≡ option_to_list result ++ self.new }
        ensures none { IfNone result (self.new ≡ []) }
    {
        self.items.pop()
    }

    /// The item with so many above it.
    pub fn get(&self, depth: usize) -> Option<T>
        ensures { result ≡ slice_get self.now depth }
    {
        let len = self.items.len();
        if depth < len {
            Some(self.items[len - 1 - depth])
        } else {
            None
        }
    }

    /// The topmost item.
    #[inline(always)]
    pub fn top(&self) -> Option<&T>
        ensures { option_copied result ≡ slice_get self.now 0 }
    {
        self.items.last()
    }

    /// The item with so many above it, which is there.
    fn item(&self, depth: usize) -> T
        requires { depth < length self.now }
        ensures { (d : T) → result ≡ slice_index_or self.now depth d }
    {
        self.items[self.items.len() - 1 - depth]
    }

    /// The item with so many above it, which is there.
    pub fn at(&self, depth: usize) -> T
        requires { depth < length self.now }
        ensures value { (d : T) → result ≡ slice_index_or self.now depth d }
        ensures next { drop depth self.now ≡ result ∷ drop (depth + 1) self.now }
    {
        self.item(depth)
    }

    /// Takes the `count` topmost items, and puts one in their place.
    pub fn replace(&mut self, count: usize, item: T)
        requires some { 1 ≤ count }
        requires enough { count ≤ length self.old }
        ensures { self.new ≡ item ∷ drop count self.old }
    {
        let rest = self.items.len() - count;
        self.items[rest] = item;
        self.items.truncate(rest + 1);
    }

    /// Puts an item in place of the topmost one.
    #[inline(always)]
    pub fn set_top(&mut self, item: T)
        requires { 1 ≤ length self.old }
        ensures { self.new ≡ item ∷ drop 1 self.old }
    {
        let last = self.items.len() - 1;
        self.items[last] = item;
    }

    /// Takes the `count` topmost items.
    pub fn take(&mut self, count: usize)
        requires { count ≤ length self.old }
        ensures { self.new ≡ drop count self.old }
    {
        let rest = self.items.len() - count;
        self.items.truncate(rest);
    }

    /// Takes all items.
    pub fn clear(&mut self)
        ensures { self.new ≡ [] }
    {
        self.items.clear();
    }

    /// Takes all items, as a stack of their own.
    pub fn take_all(&mut self) -> Stack<T>
        ensures all { result ≡ self.old }
        ensures none { self.new ≡ [] }
    {
        let alloc = *self.items.allocator();
        Stack {
            items: mem::replace(&mut self.items, Vec::new(alloc)),
        }
    }

    /// Puts items on top, the last one topmost.
    pub fn push_all(&mut self, items: &[T]) -> Result<(), AllocError>
        ensures ok { OnOk result (self.new ≡ reverse items.now ++ self.old) }
        ensures err { OnErr result (self.new ≡ self.old) }
    {
        self.items.extend_from_slice(items)?;
        Ok(())
    }

    /// The `count` topmost items, the topmost last.
    pub fn topmost(&self, count: usize) -> &[T]
        requires { count ≤ length self.now }
        ensures { result.now ≡ reverse (take count self.now) }
    {
        &self.items[self.items.len() - count..]
    }

    /// The `count` items under the topmost one, the uppermost last.
    pub fn under_top(&self, count: usize) -> &[T]
        requires { count < length self.now }
        ensures { result.now ≡ reverse (take count (drop 1 self.now)) }
    {
        let end = self.items.len() - 1;
        &self.items[end - count..end]
    }

    /// Copies the `count` topmost items.
    pub fn copy_topmost(&mut self, count: usize) -> Result<(), AllocError>
        requires { count ≤ length self.old }
        ensures { OnOk result (self.new ≡ take count self.old ++ self.old) }
    {
        let rest = self.items.len() - count;
        self.items.extend_from_within(rest..)?;
        Ok(())
    }

    /// Turns the `count` topmost items by `by` places, so that the `by` topmost go under the others.
    pub fn roll(&mut self, count: usize, by: usize)
        requires enough { count ≤ length self.old }
        requires within { by ≤ count }
        ensures { self.new ≡ drop by (take count self.old) ++ take by self.old ++ drop count self.old }
    {
        let rest = self.items.len() - count;
        self.items[rest..].rotate_right(by);
    }

    /// An empty stack on the same allocator.
    pub fn fresh(&self) -> Stack<T>
        ensures { result ≡ [] }
    {
        Stack {
            items: Vec::new(*self.items.allocator()),
        }
    }
}

impl Stack<Item> {
    /// The procedure on top goes on with the object at another index.
    #[inline(always)]
    pub fn continue_at(&mut self, a: ArrayId, at: usize, next: usize)
        requires { self.old ≡ Procedure a at ∷ drop 1 self.old }
        ensures { self.new ≡ Procedure a next ∷ drop 1 self.old }
    {
        let last = self.items.len() - 1;
        if let Item::Procedure(_, index) = &mut self.items[last] {
            *index = next;
        }
    }
}
