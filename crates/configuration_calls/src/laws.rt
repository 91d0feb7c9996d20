//! States laws of configuration data made of a dictionary. A law is the contract of a function that does nothing.
ghost use Rattle.configuration_calls.specs.NameOrder.{NamesAscend};

/// Proves that the names of configuration data made of a dictionary ascend by their bytes, and are the dictionary's keys.
pub fn names_ascend()
    ensures { NamesAscend }
{}
