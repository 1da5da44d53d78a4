// A value with several owners, which contracts see as the value.
ghost use Rattle.std.specs.Prelude.{◌≡◌, IfOk};
ghost use Rattle.std.specs.Arc.{arc_value};

use crate::NoMemory;
use std::alloc::Global;
use std::marker::Model;
use std::ops::Deref;
use std::sync::Arc;

/// An `Arc` that contracts see as its value. Two shared values with equal contents are equal.
#[derive(Drop)]
pub struct Shared<T> {
    inner: Arc<T>,
}

impl<T> Model for Shared<T> {
    ghost Value = { T };

    ghost coded = { T.code };

    ghost view = { λ shared. arc_value shared.inner };
}

impl<T: Drop> Shared<T> {
    /// A refusal drops the value.
    pub fn new(alloc: Global, value: T) -> Result<Shared<T>, NoMemory>
        ensures { IfOk result (λ shared. shared ≡ value) }
    {
        Ok(Shared {
            inner: Arc::new(alloc, value)?,
        })
    }
}

impl<T> Shared<T> {
    /// One more owner of the same value.
    pub fn share(&self) -> Result<Shared<T>, NoMemory>
        ensures { IfOk result (λ shared. shared ≡ self.now) }
    {
        Ok(Shared {
            inner: Arc::try_clone(&self.inner)?,
        })
    }
}

impl<T> From<Arc<T>> for Shared<T> {
    ghost use Rattle.std.specs.Arc.{arc_value};

    ghost from_gives = { λ arc shared. shared ≡ arc_value arc };

    fn from(inner: Arc<T>) -> Shared<T> {
        Shared { inner }
    }
}

impl<T> Deref for Shared<T> {
    type Target = T;

    fn deref(&self) -> &T
        ensures { result.now ≡ self.now }
    {
        &self.inner
    }
}
