//! States laws of all texts and dictionaries. A law is the contract of a function that does nothing.
ghost use Rattle.operations.specs.methods.KeyOrder.{KeysAscend};
ghost use Rattle.operations.specs.methods.PlaceNumbers.{PlacesCount};

/// Proves that the texts returned by `keys` ascend by their bytes, and are the keys of the dictionary.
pub fn keys_ascend()
    ensures { KeysAscend }
{}

/// Proves that a placeholder of `format` refers to the value at the number that its digits spell, however large.
pub fn places_count()
    ensures { PlacesCount }
{}
