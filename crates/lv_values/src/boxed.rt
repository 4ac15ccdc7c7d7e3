//! A box that contracts see as its value.
ghost use Rattle.std.specs.Prelude.{◌≡◌, IfOk};

use crate::items::Copying;
use crate::memory::NoMemory;
use std::alloc::Global;
use std::marker::Model;

/// One value on the heap. Contracts see the value, so a copy equals what it copies.
#[derive(Debug, Drop)]
pub struct Boxed<T> {
    inner: Box<T>,
}

impl<T> Model for Boxed<T> {
    ghost Value = { T };

    ghost coded = { T.code };

    ghost view = { λ b. b.inner.value };
}

impl<T> Boxed<T> {
    /// The value.
    pub fn get(&self) -> &T
        ensures { result.now ≡ self.now }
    {
        &self.inner
    }

    /// The value, moved off the heap.
    pub fn into_inner(self) -> T
        ensures { result ≡ self }
    {
        let Boxed { inner } = self;
        Box::into_inner(inner)
    }
}

impl<T: Drop> Boxed<T> {
    /// The value, moved to the heap.
    pub fn new(alloc: Global, value: T) -> Result<Boxed<T>, NoMemory>
        ensures { IfOk result (λ b. b ≡ value) }
    {
        Ok(Boxed {
            inner: Box::new(alloc, value)?,
        })
    }
}

impl<T: Copying> Copying for Boxed<T> {
    fn copy(&self, alloc: Global) -> Result<Self, NoMemory> {
        Boxed::new(alloc, self.get().copy(alloc)?)
    }
}
