//! Laws of the order of keys. Each function does nothing: its contract is the law.

ghost use Rattle.line_stamps.specs.Laws.{KeysAreTotallyOrdered, TiedKeysAreOne, LeastOfJoinedLists};

/// Keys are totally ordered.
pub fn keys_are_totally_ordered()
    ensures { KeysAreTotallyOrdered }
{}

/// Keys that tie are one key.
pub fn tied_keys_are_one()
    ensures { TiedKeysAreOne }
{}

/// The least key of two lists joined is the lesser of their least keys.
pub fn least_of_joined_lists()
    ensures { LeastOfJoinedLists }
{}
