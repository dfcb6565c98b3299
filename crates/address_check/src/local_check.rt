//! Checks that workers may make piece by piece.

ghost use Rattle.std.specs.Prelude.{◌≡◌, List, [], ◌++◌, Option, None};
ghost use Rattle.line_stamps.specs.Least.{lesser};

/// A check of a list of items, which gives the same fault piece by piece as at once.
pub trait LocalCheck {
    /// A part of the list that stays whole.
    type Item: Sync;

    /// The fault of an item. The check answers the least.
    type Fault: Ord + Copy + Send;

    // The fault of a list of items.
    ghost fault_of: { Self → List Self.Item → Option Self.Fault };

    /// The least fault of some items.
    fn fault(&self, items: &[Self::Item]) -> Option<Self::Fault>
        ensures { result ≡ fault_of self.now items.now };

    // An empty list has no fault.
    ghost empty: { (check : Self) → fault_of check [] ≡ None };

    // The fault of two lists joined is the lesser of theirs.
    ghost joined: { (check : Self) (xs ys : List Self.Item) →
        fault_of check (xs ++ ys)
        ≡ lesser Self.Fault.cmp (fault_of check xs) (fault_of check ys) };
}

/// The lesser of two faults, if there is one, and the first if they tie.
pub fn lesser_fault<F: Ord + Copy>(a: Option<F>, b: Option<F>) -> Option<F>
    ensures { result ≡ lesser F.cmp a b }
{
    match (a, b) {
        (None, b) => b,
        (Some(a), None) => Some(a),
        (Some(a), Some(b)) => { if b < a { Some(b) } else { Some(a) } }
    }
}
