//! Keys in order, each once, that are looked up by their words.
ghost use Rattle.std.specs.Prelude.{◌≡◌, ◌<◌, [], Some, IsTrue, IfOk, OnOk, OnErr, length};
ghost use Rattle.std.specs.List.{list_any};
ghost use Rattle.indexmap.specs.IndexSet.{insert_key};
ghost use Rattle.station_table.specs.Keys.{same_key, key_place};
ghost use Rattle.station_table.specs.Inside.KeyWords.{as_key};
ghost use Rattle.station_table.specs.Limits.{KeysDiffer};

use crate::key_words::KeyWords;
use crate::keys::GridKey;
use indexmap::IndexSet;
use std::alloc::{AllocError, Global};
use std::marker::Model;

/// Keys in the order in which they were put, each once. Contracts see the list of them.
#[derive(Drop)]
pub(crate) struct KeyIndex<'a> {
    words: IndexSet<KeyWords<'a>>,
}

impl<'a> Model for KeyIndex<'a> {
    ghost use Rattle.std.specs.Prelude.{List, map};
    ghost use Rattle.station_table.specs.declared.keys.GridKey.{GridKey};
    ghost use Rattle.station_table.specs.Inside.KeyWords.{as_key};

    ghost Value = { List GridKey };

    ghost view = { λ index. map as_key index.words.keys };
}

impl<'a> KeyIndex<'a> {
    /// The index of no keys.
    pub(crate) fn new(alloc: Global) -> KeyIndex<'a>
        ensures { result ≡ [] }
    {
        KeyIndex {
            words: IndexSet::new(alloc),
        }
    }

    /// The index of these keys.
    pub(crate) fn of(alloc: Global, keys: &'a [GridKey]) -> Result<KeyIndex<'a>, AllocError>
        requires { KeysDiffer keys.now }
        ensures { IfOk result (λ index. index ≡ keys.now) }
    {
        let mut index = KeyIndex {
            words: IndexSet::with_capacity(alloc, keys.len())?,
        };
        for key in keys {
            index.put(KeyWords::of(key))?;
        }
        Ok(index)
    }

    /// Puts a key after the others, unless it is there.
    pub(crate) fn put(&mut self, words: KeyWords<'a>) -> Result<(), AllocError>
        ensures { OnOk result (self.new ≡ insert_key same_key self.old (as_key words.entry)) }
    {
        self.words.insert(words)?;
        Ok(())
    }

    /// The place of a key that is there, from 0.
    #[tactic(auto, unfolding(crate::specs::Keys::key_place))]
    pub(crate) fn key_place(&self, words: &KeyWords<'a>) -> usize
        requires { IsTrue (list_any (same_key (as_key words.now)) self.now) }
        ensures place { key_place self.now (as_key words.now) ≡ Some result }
        ensures within { result < length self.now }
    {
        match self.words.get_index_of(words) {
            Some(place) => place,
            None => unreachable!(),
        }
    }

    /// How many keys there are.
    pub(crate) fn len(&self) -> usize
        ensures { result ≡ length self.now }
    {
        self.words.len()
    }

    /// The keys, their names copied.
    pub(crate) fn to_keys(&self, alloc: Global) -> Result<Vec<GridKey>, AllocError>
        ensures { IfOk result (λ keys. keys.items ≡ self.now) }
    {
        let mut keys = Vec::with_capacity(alloc, self.words.len())?;
        for words in self.words.as_slice() {
            keys.push(words.to_key(alloc)?)?;
        }
        Ok(keys)
    }
}
