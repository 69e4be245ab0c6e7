//! A key with its value, which the nodes of several trees share.
ghost use Rattle.std.specs.Prelude.{◌≡◌, IfOk, OnOk, OnErr};
ghost use Rattle.std.specs.Map.Iter.{deref_pair};

use plain_data::ExactClone;
use std::alloc::{AllocError, Global};
use std::marker::Model;
use std::mem;
use std::sync::Arc;

/// A key with its value. Contracts see the two.
#[derive(Debug, Drop)]
pub(crate) struct Entry<K, V> {
    key: Arc<K>,
    value: Arc<V>,
}

impl<K, V> Model for Entry<K, V> {
    ghost Value = { K × V };

    ghost view = { λ e. (e.key.value, e.value.value) };
}

impl<K, V> Entry<K, V> {
    /// The key.
    pub(crate) fn key(&self) -> &K
        ensures { result.now ≡ self.now.0 }
    {
        &self.key
    }

    /// The value.
    pub(crate) fn value(&self) -> &V
        ensures { result.now ≡ self.now.1 }
    {
        &self.value
    }

    /// The key and the value.
    pub(crate) fn pair(&self) -> (&K, &V)
        ensures { deref_pair result ≡ self.now }
    {
        (self.key(), self.value())
    }
}

impl<K: Drop, V: Drop> Entry<K, V> {
    /// Room for a key with its value.
    pub(crate) fn new(alloc: Global, key: K, value: V) -> Result<Entry<K, V>, AllocError>
        ensures { IfOk result (λ e. e ≡ (key, value)) }
    {
        Ok(Entry {
            key: Arc::new(alloc, key)?,
            value: Arc::new(alloc, value)?,
        })
    }

    /// The same entry once more, which takes no memory.
    pub(crate) fn shared(&self) -> Result<Entry<K, V>, AllocError>
        ensures { IfOk result (λ e. e ≡ self.now) }
    {
        Ok(Entry {
            key: Arc::try_clone(&self.key)?,
            value: Arc::try_clone(&self.value)?,
        })
    }

    /// The key with another value, which takes no memory.
    pub(crate) fn with_value(&self, value: Arc<V>) -> Result<Entry<K, V>, AllocError>
        ensures { IfOk result (λ e. e ≡ (self.now.0, value.value)) }
    {
        Ok(Entry {
            key: Arc::try_clone(&self.key)?,
            value,
        })
    }

    /// The value alone, for other entries.
    pub(crate) fn into_value(self) -> Arc<V>
        ensures { result.value ≡ self.1 }
    {
        self.value
    }
}

impl<K: Drop, V: ExactClone + Drop> Entry<K, V> {
    /// Exchanges the value, and answers the one before as one's own: a copy where other entries share it.
    pub(crate) fn exchange(&mut self, value: V) -> Result<V, AllocError>
        ensures before { IfOk result (λ before. before ≡ self.old.1) }
        ensures ok { OnOk result (self.new ≡ (self.old.0, value)) }
        ensures err { OnErr result (self.new ≡ self.old) }
    {
        let slot = Arc::make_mut(&mut self.value)?;
        Ok(mem::replace(slot, value))
    }
}
