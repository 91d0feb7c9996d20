//! Defines values, lists and dictionaries.

ghost use Rattle.std.specs.Prelude.{◌≡◌, ◌<◌, ◌≤◌, ◌+◌, ◌*◌, ◌||◌, length, OnOk, OnErr, IfOk, IsTrue, ◌==◌};
ghost use Rattle.std.specs.Prelude.{option_map, string_bytes, slice_get, Some, Ok, Err, MatchResult, if◌then◌else◌};
ghost use Rattle.values.specs.Data.{no_items, item, items_append, count, no_entries, entry_count, entry_values, AreDistinct, keys_in, find};
ghost use Rattle.values.specs.Data.{merged_entries};
ghost use Rattle.values.specs.Data.{boolean_in, integer_in, text_in, items_in, entries_in, object_in, is_disabler, has_disabler};
ghost use Rattle.values.specs.Data.{have_disabler};
ghost use Rattle.values.specs.Data.{text, list as list_data, dictionary as dictionary_data, object as object_data};
ghost use Rattle.values.specs.declared.refusal.OperationRefusal.TheVariants as refusal;
ghost use Rattle.values.specs.Tables.{Answers};
ghost use Rattle.values.specs.Weight.{weight, depth, items_weight, items_depth, entries_weight, entries_depth};
ghost use Rattle.values.specs.Limits.{is_within as is_within_limits, items_fit, within as within_limits};
ghost use Rattle.values.specs.View.{data_of, items_of};

mod builder;
mod content;

use crate::dictionary_keys::Keys;
use crate::object::Object;
use crate::refusal::OperationRefusal;
use crate::text::Text;
pub use builder::DictionaryBuilder;
pub use content::Content;
use std::alloc::{AllocError, Global};
use std::marker::Model;
use std::mem;
use std::rc::Rc;
use support::limits::{ITEMS, LEVELS, WEIGHT};

/// Holds a value of the language: an elementary type of the manual, or an object.
#[cycle(value)]
pub enum Value {
    Boolean(bool),
    Integer(i128),
    Text(Text),
    List(Rc<List>),
    Dictionary(Rc<Dictionary>),
    Object(Rc<Object>),
}

// Values are dropped in many functions, so dropping one is proved once, in this function.
impl Drop for Value {
    #[cycle(value)]
    #[inline]
    fn drop(self) {
        match self {
            Value::Boolean(_) => {}
            Value::Integer(_) => {}
            Value::Text(_) => {}
            Value::List(_) => {}
            Value::Dictionary(_) => {}
            Value::Object(_) => {}
        }
    }
}

/// Holds a list of at most 65,536 items, 64 levels and weight 33,554,432.
#[cycle(value)]
pub struct List {
    items: Vec<Value>,
    // The weight of the items alone.
    weight: u64,
    // The depth of the deepest item.
    depth: u32,
    has_disabler: bool,
}

/// Holds a dictionary, in order of insertion, of at most 65,536 entries, 64 levels and weight 33,554,432.
#[cycle(value)]
pub struct Dictionary {
    keys: Keys,
    // The value of each key, at the index of the key.
    values: Vec<Value>,
    weight: u64,
    depth: u32,
}

impl Drop for List {
    #[cycle(value)]
    fn drop(self) {
        let List {
            items: _,
            weight: _,
            depth: _,
            has_disabler: _,
        } = self;
    }
}

impl Drop for Dictionary {
    #[cycle(value)]
    fn drop(self) {
        let Dictionary {
            keys: _,
            values: _,
            weight: _,
            depth: _,
        } = self;
    }
}

impl Model for List {
    ghost use Rattle.values.specs.Data.{Items};
    ghost use Rattle.values.specs.Coding.{items_code};
    ghost use Rattle.values.specs.Weight.{items_weight};
    ghost use Rattle.std.proofs.Common.{arith};

    ghost Value = { Items };

    ghost coded = { items_code };

    ghost use Rattle.values.specs.View.{items_of, IsList};

    ghost view = { λ a. items_of a.items.items };

    ghost invariant = { IsList };

    ghost size = { items_weight };

    ghost use Rattle.values.specs.Falls.{most-le-items_weight};

    ghost size_decreases = { λ a h. omega (arith, most-le-items_weight a.items.items) };
}

impl Model for Dictionary {
    ghost use Rattle.values.specs.Data.{Entries};
    ghost use Rattle.values.specs.Coding.{entries_code};
    ghost use Rattle.values.specs.Weight.{entries_weight};
    ghost use Rattle.std.proofs.Common.{arith};

    ghost Value = { Entries };

    ghost coded = { entries_code };

    ghost use Rattle.values.specs.View.{entries_of, IsDictionary};

    ghost view = { λ a. entries_of a.keys a.values.items };

    ghost invariant = { IsDictionary };

    ghost size = { entries_weight };

    ghost use Rattle.values.specs.Falls.{most-le-entries_weight};

    ghost size_decreases = { λ a h. omega (arith, most-le-entries_weight a.keys a.values.items h.pairs) };
}

impl Clone for Value {
    ghost use Rattle.std.specs.Prelude.{◌≡◌};
    ghost use Rattle.values.specs.View.{data_of};

    ghost is_clone = { λ v w. data_of w ≡ data_of v };

    #[inline(always)]
    fn clone(&self) -> Result<Value, AllocError> {
        match self {
            Value::Boolean(boolean) => Ok(Value::Boolean(*boolean)),
            Value::Integer(integer) => Ok(Value::Integer(*integer)),
            Value::Text(text) => Ok(Value::Text(text.clone()?)),
            Value::List(list) => Ok(Value::List(list.clone()?)),
            Value::Dictionary(dictionary) => Ok(Value::Dictionary(dictionary.clone()?)),
            Value::Object(object) => Ok(Value::Object(object.clone()?)),
        }
    }
}

impl Value {
    /// Returns the boolean, and `None` for a value of another type.
    pub fn as_boolean(&self) -> Option<bool>
        ensures { result ≡ boolean_in (data_of self.now) }
    {
        match self {
            Value::Boolean(boolean) => Some(*boolean),
            _ => None,
        }
    }

    /// Returns the integer, and `None` for a value of another type.
    pub fn as_integer(&self) -> Option<i128>
        ensures { result ≡ integer_in (data_of self.now) }
    {
        match self {
            Value::Integer(integer) => Some(*integer),
            _ => None,
        }
    }

    /// Returns the text, and `None` for a value of another type.
    pub fn as_text(&self) -> Option<&Text>
        ensures { option_map (λ t. t.now) result ≡ text_in (data_of self.now) }
    {
        match self {
            Value::Text(text) => Some(text),
            _ => None,
        }
    }

    /// Returns the list, and `None` for a value of another type.
    pub fn as_list(&self) -> Option<&List>
        ensures { option_map (λ l. l.now) result ≡ items_in (data_of self.now) }
    {
        match self {
            Value::List(list) => Some(list),
            _ => None,
        }
    }

    /// Returns the dictionary, and `None` for a value of another type.
    pub fn as_dictionary(&self) -> Option<&Dictionary>
        ensures { option_map (λ d. d.now) result ≡ entries_in (data_of self.now) }
    {
        match self {
            Value::Dictionary(dictionary) => Some(dictionary),
            _ => None,
        }
    }

    /// Returns the object, and `None` for a value of another type.
    pub fn as_object(&self) -> Option<&Object>
        ensures { option_map (λ o. o.now) result ≡ object_in (data_of self.now) }
    {
        match self {
            Value::Object(object) => Some(object),
            _ => None,
        }
    }

    /// Returns whether the value is a disabler itself.
    pub fn is_disabler(&self) -> bool
        ensures { result ≡ is_disabler (data_of self.now) }
    {
        match self.as_object() {
            Some(object) => matches!(object, Object::Disabler),
            None => false,
        }
    }

    /// Returns whether the value is a disabler, or a list that contains one at any depth of lists. Dictionaries are not searched.
    pub fn has_disabler(&self) -> bool
        ensures { result ≡ has_disabler (data_of self.now) }
    {
        match self {
            Value::List(list) => list.has_disabler(),
            _ => self.is_disabler(),
        }
    }

    /// Returns the value of a string, or `OperationRefusal::Limit` if it is longer than 16,777,216 bytes.
    pub fn of_string(
        alloc: Global,
        string: String,
    ) -> Result<Result<Value, OperationRefusal>, AllocError>
        ensures { IfOk result (λ r. Answers (within_limits (text (string_bytes string))) r) }
    {
        match Text::new(alloc, string)? {
            Ok(text) => Ok(Ok(Value::Text(text))),
            Err(refusal) => Ok(Err(refusal)),
        }
    }

    /// Returns the value of a copy of a string, or `OperationRefusal::Limit` if it is longer than 16,777,216 bytes.
    #[inline(always)]
    pub fn of_str(alloc: Global, bytes: &str) -> Result<Result<Value, OperationRefusal>, AllocError>
        ensures { IfOk result (λ r. Answers (within_limits (text bytes.now)) r) }
    {
        match Text::of_str(alloc, bytes)? {
            Ok(text) => Ok(Ok(Value::Text(text))),
            Err(refusal) => Ok(Err(refusal)),
        }
    }

    /// Returns the value of a list.
    pub fn of_list(alloc: Global, list: List) -> Result<Value, AllocError>
        ensures { IfOk result (λ v. data_of v ≡ list_data list) }
    {
        Ok(Value::List(Rc::new(alloc, list)?))
    }

    /// Returns the value of a dictionary.
    pub fn of_dictionary(alloc: Global, dictionary: Dictionary) -> Result<Value, AllocError>
        ensures { IfOk result (λ v. data_of v ≡ dictionary_data dictionary) }
    {
        Ok(Value::Dictionary(Rc::new(alloc, dictionary)?))
    }

    /// Returns the value of an object.
    pub fn of_object(alloc: Global, object: Object) -> Result<Value, AllocError>
        ensures { IfOk result (λ v. data_of v ≡ object_data object) }
    {
        Ok(Value::Object(Rc::new(alloc, object)?))
    }

    /// Returns the weight of the value: a text weighs its bytes plus one, a list or a dictionary the sum of its items and keys plus one,
    /// anything else one.
    pub fn weight(&self) -> u64
        ensures weight { result ≡ weight (data_of self.now) }
        ensures within { result ≤ 33554432 }
    {
        match self {
            Value::Text(text) => text.as_str().len() as u64 + 1,
            Value::List(list) => list.weight() + 1,
            Value::Dictionary(dictionary) => dictionary.weight() + 1,
            Value::Boolean(_) | Value::Integer(_) | Value::Object(_) => 1,
        }
    }

    /// Returns how many levels of lists and dictionaries the value has.
    pub fn depth(&self) -> u32
        ensures depth { result ≡ depth (data_of self.now) }
        ensures within { result ≤ 64 }
    {
        match self {
            Value::List(list) => list.depth() + 1,
            Value::Dictionary(dictionary) => dictionary.depth() + 1,
            Value::Boolean(_) | Value::Integer(_) | Value::Text(_) | Value::Object(_) => 0,
        }
    }
}

// Returns whether a list or a dictionary with this many items, this weight and this depth is within the limits.
fn is_within(items: usize, weight: u128, levels: u32) -> bool
    ensures { result ≡ is_within_limits items weight levels }
{
    items <= ITEMS && weight <= u128::from(WEIGHT) && levels <= LEVELS
}

impl List {
    /// Returns an empty list.
    pub fn new(alloc: Global) -> List
        ensures { result ≡ no_items }
    {
        List {
            items: Vec::new(alloc),
            weight: 0,
            depth: 0,
            has_disabler: false,
        }
    }

    /// Returns the list of some items, or `OperationRefusal::Limit` if it is too large.
    pub fn from_items(items: Vec<Value>) -> Result<List, OperationRefusal>
        ensures { result ≡ (if items_fit (items_of items.items) then Ok (items_of items.items) else Err refusal.Limit) }
    {
        if items.len() > ITEMS {
            return Err(OperationRefusal::Limit);
        }
        let weight = weight_of(&items);
        let depth = deepest(&items);
        if !is_within(items.len(), (weight + 1) as u128, depth + 1) {
            return Err(OperationRefusal::Limit);
        }
        let has_disabler = have_disabler(&items);
        Ok(List {
            items,
            weight,
            depth,
            has_disabler,
        })
    }

    /// Returns the items as a slice.
    pub fn items(&self) -> &[Value]
        ensures items { items_of result.now ≡ self.now }
        ensures within { IsTrue (items_fit self.now) }
    {
        &self.items
    }

    /// Returns a list of the same items.
    pub fn copy_of(alloc: Global, list: &List) -> Result<List, AllocError>
        ensures { IfOk result (λ l. l ≡ list.now) }
    {
        let _items = list.items();
        let mut copy = List::new(alloc);
        copy.extend(list)?;
        Ok(copy)
    }

    /// Returns the weight of the items, without the one for the list itself.
    pub fn weight(&self) -> u64
        ensures weight { result ≡ items_weight self.now }
        ensures within { result + 1 ≤ 33554432 }
    {
        self.weight
    }

    /// Returns the depth of the deepest item.
    pub fn depth(&self) -> u32
        ensures depth { result ≡ items_depth self.now }
        ensures within { result + 1 ≤ 64 }
    {
        self.depth
    }

    /// Returns whether a disabler is among the items, or in a list among them at any depth of lists.
    pub fn has_disabler(&self) -> bool
        ensures { result ≡ have_disabler self.now }
    {
        self.has_disabler
    }

    /// Returns the number of items.
    pub fn len(&self) -> usize
        ensures len { result ≡ count self.now }
        ensures within { result ≤ 65536 }
    {
        self.items.len()
    }

    /// Returns whether the list is empty.
    pub fn is_empty(&self) -> bool
        ensures { result ≡ (count self.now == 0) }
    {
        self.len() == 0
    }

    /// Returns whether the list is within the limits with one more item.
    pub fn has_room(&self, value: &Value) -> bool
        ensures { result ≡ items_fit (items_append self.now (item (data_of value.now) no_items)) }
    {
        is_within(
            self.len() + 1,
            (self.weight() + value.weight() + 1) as u128,
            self.depth().max(value.depth()) + 1,
        )
    }

    /// Returns whether the list is within the limits with the items of another list.
    pub fn has_room_for(&self, other: &List) -> bool
        ensures { result ≡ items_fit (items_append self.now other.now) }
    {
        is_within(
            self.len() + other.len(),
            (self.weight() + other.weight() + 1) as u128,
            self.depth().max(other.depth()) + 1,
        )
    }

    /// Appends an item, for which there must be room. After an `Err` the list is unchanged.
    pub fn push(&mut self, value: Value) -> Result<(), AllocError>
        requires { IsTrue (items_fit (items_append self.old (item (data_of value) no_items))) }
        ensures ok { OnOk result (self.new ≡ items_append self.old (item (data_of value) no_items)) }
        ensures err { OnErr result (self.new ≡ self.old) }
    {
        let weight = value.weight();
        let depth = value.depth();
        let has_disabler = either(self.has_disabler, value.has_disabler());
        self.items.push(value)?;
        self.weight += weight;
        self.depth = self.depth.max(depth);
        self.has_disabler = has_disabler;
        Ok(())
    }

    /// Appends the items of another list, for which there must be room.
    pub fn extend(&mut self, other: &List) -> Result<(), AllocError>
        requires { IsTrue (items_fit (items_append self.old other.now)) }
        ensures { OnOk result (self.new ≡ items_append self.old other.now) }
    {
        let items = other.items();
        for item in items {
            self.push(item.clone()?)?;
        }
        Ok(())
    }
}

impl Dictionary {
    /// Returns an empty dictionary.
    pub fn new(alloc: Global) -> Dictionary
        ensures { result ≡ no_entries }
    {
        Dictionary {
            keys: Keys::new(alloc),
            values: Vec::new(alloc),
            weight: 0,
            depth: 0,
        }
    }

    /// Adds the entries of another dictionary, or returns `OperationRefusal::Limit` if it becomes too large; then the entries are lost.
    pub fn merge(
        &mut self,
        alloc: Global,
        others: &Dictionary,
    ) -> Result<Result<(), OperationRefusal>, AllocError>
        ensures { IfOk result (λ r. MatchResult r
            (λ _. within_limits (dictionary_data (merged_entries self.old others.now)) ≡ Ok (dictionary_data self.new))
            (λ e. within_limits (dictionary_data (merged_entries self.old others.now)) ≡ Err e)) }
    {
        let old = mem::replace(self, Dictionary::new(alloc));
        let mut builder = DictionaryBuilder::of_dictionary(old);
        builder.put_all(others)?;
        match builder.finish() {
            Ok(dictionary) => {
                *self = dictionary;
                Ok(Ok(()))
            }
            Err(refusal) => Ok(Err(refusal)),
        }
    }

    /// Returns the weight of the keys and values.
    pub fn weight(&self) -> u64
        ensures weight { result ≡ entries_weight self.now }
        ensures within { result + 1 ≤ 33554432 }
    {
        self.weight
    }

    /// Returns the depth of the deepest value.
    pub fn depth(&self) -> u32
        ensures depth { result ≡ entries_depth self.now }
        ensures within { result + 1 ≤ 64 }
    {
        self.depth
    }

    /// Returns the number of entries.
    pub fn len(&self) -> usize
        ensures len { result ≡ entry_count self.now }
        ensures within { result ≤ 65536 }
    {
        self.values.len()
    }

    /// Returns the value of a key, and `None` if the key is absent.
    pub fn get(&self, key: &Text) -> Option<&Value>
        ensures { option_map (λ v. data_of v.now) result ≡ find key.now self.now }
    {
        let index = self.keys.get_index_of(key)?;
        self.values.get(index)
    }

    /// Returns the keys, in order of insertion.
    pub fn keys(&self) -> &[Text]
        ensures { result.now ≡ keys_in self.now }
    {
        self.keys.as_slice()
    }

    /// Returns the values, in order of insertion.
    pub fn values(&self) -> &[Value]
        ensures values { items_of result.now ≡ entry_values self.now }
        ensures distinct { AreDistinct self.now }
        ensures within { entries_weight self.now + 1 ≤ 33554432 }
    {
        &self.values
    }

    /// Returns the key at an index, which must be less than the number of entries.
    pub fn key(&self, index: usize) -> &Text
        requires { index < entry_count self.now }
        ensures { slice_get (keys_in self.now) index ≡ Some result.now }
    {
        match self.keys.get_index(index) {
            Some(key) => key,
            None => unreachable!(),
        }
    }
}

fn either(one: bool, other: bool) -> bool
    ensures { result ≡ (one || other) }
{
    one || other
}

/// Returns whether one of some values is a disabler, or a list that contains one at any depth of lists.
pub fn have_disabler(values: &[Value]) -> bool
    ensures { result ≡ have_disabler (items_of values.now) }
{
    for value in values {
        if value.has_disabler() {
            return true;
        }
    }
    false
}

// Returns the weight of some values.
fn weight_of(values: &[Value]) -> u64
    requires { length values.now ≤ 65536 }
    ensures weight { result ≡ items_weight (items_of values.now) }
    ensures within { result ≤ 65536 * 33554432 }
{
    let mut weight = 0;
    for value in values {
        weight += value.weight();
    }
    weight
}

// Returns the depth of the deepest of some values.
fn deepest(values: &[Value]) -> u32
    ensures deepest { result ≡ items_depth (items_of values.now) }
    ensures within { result ≤ 64 }
{
    let mut depth = 0;
    for value in values {
        depth = depth.max(value.depth());
    }
    depth
}
