//! Operations in numbers, whose numbers may be out of range.

ghost use Rattle.std.specs.Prelude.{◌↔◌, IsTrue};

/// The numbers of an operation.
pub(crate) trait InNumbers {
    /// That they are in range.
    ghost in_range: { Self → Type 0 };

    /// Whether they are in range.
    fn is_in_range(&self) -> bool
        ensures { IsTrue result ↔ in_range self.now };
}
