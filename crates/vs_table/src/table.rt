//! A sorted table whose memory can be taken ahead.

ghost use Rattle.std.specs.Prelude.{◌≡◌, ◌≤◌, ◌+◌, ◌↔◌, [], length, IsTrue, IsSome, OnOk, MatchOption, MatchResult};
ghost use Rattle.std.specs.Option.{option_copied, option_copied_mut};
ghost use Rattle.std.specs.Borrow.{sem};
ghost use Rattle.vs_table.specs.Entries.{IsRising, value_of, with_value, without_key, entry_above, Updates};
ghost use Rattle.vs_table.specs.Place.{FoundAt, MissingAt};

use std::alloc::Global;
use std::marker::Model;
use std::mem;
use vs_base::NoMemory;

/// A map from keys to values, kept in the order of its keys, with room for more. Contracts see the
/// entries, which rise by key, and for how many more there is memory.
#[derive(Drop)]
pub struct Table<K: Ord, V> {
    entries: Vec<(K, V)>,
}

impl<K: Ord, V> Model for Table<K, V> {
    ghost use Rattle.std.specs.Prelude.{List, ℕ, ◌-◌, vec_len, vec_capacity, refl};
    ghost use Rattle.std.specs.Coded.{code_by, coded×, coded_ℕ, coded_list};
    ghost use Rattle.vs_base.specs.Listed.{Listed};
    ghost use Rattle.vs_table.specs.Entries.{IsRising};

    ghost Value = { Listed (K × V) };

    ghost coded = { code_by (List (K × V) × ℕ) (coded× (coded_list (coded× K.code V.code)) coded_ℕ)
        (λ l. (l.items, l.room)) (λ p. record { items = p.0; room = p.1 }) (λ _. refl) };

    ghost view = { λ t. record {
      items = t.entries.items;
      room = vec_capacity t.entries - vec_len t.entries;
    } };

    ghost invariant = { λ t. IsRising K.cmp t.entries.items };
}

impl<K: Ord, V> Table<K, V> {
    ghost use Rattle.vs_table.specs.Lends.{lends_value};

    /// The empty map, without room.
    pub fn new(alloc: Global) -> Table<K, V>
        ensures { result.items ≡ [] }
    {
        Table {
            entries: Vec::new(alloc),
        }
    }

    /// The number of entries.
    pub fn len(&self) -> usize
        ensures { result ≡ length self.now.items }
    {
        self.entries.len()
    }

    pub fn is_empty(&self) -> bool
        ensures { IsTrue result ↔ (self.now.items ≡ []) }
    {
        self.entries.is_empty()
    }

    /// The entries, in the order of their keys.
    pub fn entries(&self) -> &[(K, V)]
        ensures all { result.now ≡ self.now.items }
        ensures rising { IsRising K.cmp self.now.items }
    {
        self.entries.as_slice()
    }

    /// The value at this key.
    pub fn get(&self, key: &K) -> Option<&V>
        ensures { option_copied result ≡ value_of K.cmp self.now.items key.now }
    {
        match self.place(key) {
            Ok(i) => Some(&self.entries[i].1),
            Err(_) => None,
        }
    }

    pub fn contains(&self, key: &K) -> bool
        ensures { IsTrue result ↔ IsSome (value_of K.cmp self.now.items key.now) }
    {
        self.get(key).is_some()
    }

    /// The first entry whose key is above this one.
    pub fn after(&self, key: &K) -> Option<&(K, V)>
        ensures { option_copied result ≡ entry_above K.cmp self.now.items key.now }
    {
        match self.place(key) {
            Ok(i) => self.entries.get(i + 1),
            Err(i) => self.entries.get(i),
        }
    }

    /// Puts a value at this key, and gives back the one that stood there. It takes no memory.
    pub fn insert(&mut self, key: K, value: V) -> Option<V>
    where
        K: Drop,
        requires { value_of K.cmp self.old.items key ≡ None → 1 ≤ self.old.room }
        ensures old { result ≡ value_of K.cmp self.old.items key }
        ensures items { self.new.items ≡ with_value K.cmp self.old.items key value }
        ensures updates { Updates K.cmp self.old.items self.new.items key (Some value) }
        ensures room { MatchOption result
            (self.new.room + 1 ≡ self.old.room)
            (λ _. self.new.room ≡ self.old.room) }
    {
        match self.place(&key) {
            Ok(i) => Some(mem::replace(&mut self.entries[i].1, value)),
            Err(i) => {
                self.entries.insert(i, (key, value)).unwrap();
                None
            }
        }
    }

    /// The value at this key, to be written to.
    pub fn get_mut(&mut self, key: &K) -> Option<&mut V>
        ensures* writes_back { sem 𝓛 (lends_value K.row V.row K.cmp K.eq K.partial_cmp self.entry key.now result) }
        ensures value { option_copied_mut result ≡ value_of K.cmp self.old.items key.now }
        ensures updates { (value : V) →
            Updates K.cmp
            self.old.items
            (with_value K.cmp self.old.items key.now value)
            key.now
            (Some value) }
    {
        match self.place(key) {
            Ok(i) => Some(&mut self.entries[i].1),
            Err(_) => None,
        }
    }

    /// Removes the entry of this key, and leaves its place free. It takes no memory.
    pub fn remove(&mut self, key: &K) -> Option<V>
    where
        K: Drop,
        ensures taken { result ≡ value_of K.cmp self.old.items key.now }
        ensures items { self.new.items ≡ without_key K.cmp self.old.items key.now }
        ensures updates { Updates K.cmp self.old.items self.new.items key.now None }
        ensures room { MatchOption result
            (self.new.room ≡ self.old.room)
            (λ _. self.new.room ≡ self.old.room + 1) }
    {
        match self.place(key) {
            Ok(i) => {
                let (_, value) = self.entries.remove(i);
                Some(value)
            }
            Err(_) => None,
        }
    }

    /// Makes room for one more entry.
    pub fn reserve(&mut self) -> Result<(), NoMemory>
        ensures room { OnOk result (1 ≤ self.new.room) }
        ensures items { self.new.items ≡ self.old.items }
        ensures kept { self.old.room ≤ self.new.room }
    {
        self.entries.reserve(1)?;
        Ok(())
    }

    /// Removes every entry, and keeps the memory.
    pub fn clear(&mut self)
    where
        K: Drop,
        V: Drop,
        ensures items { self.new.items ≡ [] }
        ensures room { self.new.room ≡ self.old.room + length self.old.items }
    {
        self.entries.clear();
    }

    // Where the key stands, or where it would.
    fn place(&self, key: &K) -> Result<usize, usize>
        ensures { MatchResult result
            (FoundAt K.cmp self.now.items key.now)
            (MissingAt K.cmp self.now.items key.now) }
    {
        self.entries.binary_search_by(|entry| entry.0.cmp(key))
    }
}
