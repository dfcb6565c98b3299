//! Laws of slices. Each function does nothing: its contract is the law.

ghost use Rattle.manager_slice.specs.Laws.{OnlyOwnersGiveBack};

/// A slice refuses with 11 NotOwner exactly if a core gives a line back and isn't its owner.
pub fn only_owners_give_back()
    ensures { OnlyOwnersGiveBack }
{}
