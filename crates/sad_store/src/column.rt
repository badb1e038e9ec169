// Keys of halves by their places, with an index of them.
ghost use Rattle.std.specs.Prelude.{◌≡◌, ◌<◌, ◌≤◌, ◌++◌, ◌∷◌, [], None, Some, OnOk, length, remove, slice_get, take, vec_len, vec_capacity};
ghost use Rattle.std.specs.Option.{option_map};
ghost use Rattle.indexmap.specs.IndexMap.{IsEmpty};
ghost use Rattle.sad_store.specs.Columns.{IsIndexed, is_key, last_place};

use ikl_base::NoMemory;
use indexmap::IndexMap;
use std::alloc::Global;

type Places = IndexMap<u64, usize>;

/// The keys of halves that have one, in the order of the halves, and an index: where the last half with each key stands.
///
/// The index is left out where memory was short for it. The keys are walked then.
#[derive(Debug, Drop)]
pub(crate) struct KeyColumn {
    keys: Vec<Option<u64>>,
    places: Option<Places>,
}

// The index with a key more, at the place after those before it.
fn inserted(places: Places, before: &[Option<u64>], key: u64) -> Option<Places>
    requires { IsIndexed before.now (Some places) }
    ensures { IsIndexed (before.now ++ Some key ∷ []) result }
{
    let mut places = places;
    match places.insert(key, before.len()) {
        Ok(_) => Some(places),
        Err(_) => None,
    }
}

// The same with what stands at the next place, a key or none.
fn noted(places: Option<Places>, before: &[Option<u64>], key: Option<u64>) -> Option<Places>
    requires { IsIndexed before.now places }
    ensures { IsIndexed (before.now ++ key ∷ []) result }
{
    match (places, key) {
        (None, _) => None,
        (Some(places), None) => Some(places),
        (Some(places), Some(key)) => inserted(places, before, key),
    }
}

// An index without keys, with the memory of the one before it.
fn emptied(alloc: Global, places: Option<Places>) -> Places
    ensures { IsEmpty result }
{
    match places {
        Some(mut places) => {
            places.clear();
            places
        }
        None => IndexMap::new(alloc),
    }
}

// The index of these keys.
fn indexed(alloc: Global, places: Option<Places>, keys: &[Option<u64>]) -> Option<Places>
    ensures { IsIndexed keys.now result }
{
    let mut places = Some(emptied(alloc, places));
    for i in 0..keys.len() {
        places = noted(places, &keys[..i], keys[i]);
    }
    places
}

// Whether this key stands at a place.
fn is_at(keys: &[Option<u64>], i: usize, key: u64) -> bool
    requires { i < length keys.now }
    ensures { option_map (is_key key) (slice_get keys.now i) ≡ Some result }
{
    keys[i] == Some(key)
}

// Where the last of these keys that is this one stands.
fn last_in(keys: &[Option<u64>], key: u64) -> Option<usize>
    ensures { result ≡ last_place key keys.now }
{
    let mut i = keys.len();
    while i > 0 {
        i -= 1;
        if is_at(keys, i, key) {
            return Some(i);
        }
    }
    None
}

impl KeyColumn {
    pub(crate) fn new(alloc: Global) -> KeyColumn
        ensures keys { result.keys.items ≡ [] }
        ensures indexed { IsIndexed result.keys.items result.places }
    {
        KeyColumn {
            keys: Vec::new(alloc),
            places: Some(IndexMap::new(alloc)),
        }
    }

    // Room for one key more.
    pub(crate) fn make_room(&mut self) -> Result<(), NoMemory>
        ensures keys { self.new.keys.items ≡ self.old.keys.items }
        ensures places { self.new.places ≡ self.old.places }
        ensures more { OnOk result (vec_len self.new.keys < vec_capacity self.new.keys) }
    {
        self.keys.reserve(1)?;
        Ok(())
    }

    // One key more, for which there is room.
    pub(crate) fn push(&mut self, key: Option<u64>)
        requires room { vec_len self.old.keys < vec_capacity self.old.keys }
        requires indexed { IsIndexed self.old.keys.items self.old.places }
        ensures keys { self.new.keys.items ≡ self.old.keys.items ++ key ∷ [] }
        ensures indexed { IsIndexed self.new.keys.items self.new.places }
    {
        self.places = noted(self.places.take(), self.keys.as_slice(), key);
        match self.keys.push(key) {
            Ok(()) => {}
            Err(_) => unreachable!(),
        }
    }

    // Takes the key at this place out, and moves those after it to the front by one.
    pub(crate) fn remove(&mut self, i: usize)
        requires within { i < length self.old.keys.items }
        ensures keys { self.new.keys.items ≡ remove self.old.keys.items i }
        ensures indexed { IsIndexed self.new.keys.items self.new.places }
    {
        self.keys.remove(i);
        let alloc = *self.keys.allocator();
        self.places = indexed(alloc, self.places.take(), self.keys.as_slice());
    }

    // Where the last half with this key stands.
    pub(crate) fn last(&self, key: u64) -> Option<usize>
        requires indexed { IsIndexed self.now.keys.items self.now.places }
        ensures { result ≡ last_place key self.now.keys.items }
    {
        match &self.places {
            Some(places) => places.get(&key).copied(),
            None => last_in(self.keys.as_slice(), key),
        }
    }

    // Whether the half at this place has this key.
    pub(crate) fn is_at(&self, i: usize, key: u64) -> bool
        requires within { i < length self.now.keys.items }
        ensures { option_map (is_key key) (slice_get self.now.keys.items i) ≡ Some result }
    {
        is_at(self.keys.as_slice(), i, key)
    }
}
