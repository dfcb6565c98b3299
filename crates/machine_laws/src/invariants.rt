//! Invariants, which no event of the core machine breaks. Each function does nothing: its contract is the law.

ghost use Rattle.machine_laws.specs.Laws.{
  HandsAlwaysTell,
  OwnersAgree,
  StampsHold,
  SwapsHold,
  VersionsAgree,
  VersionsHold,
};

/// After any events, with everything in flight counted as arrived, a core owns a line exactly if the line's slice names it as the owner.
/// And a message in hand describes its core's line as it is.
pub fn owners_agree()
    ensures owners { OwnersAgree }
    ensures hands { HandsAlwaysTell }
{}

/// After any events the stamps and leases of lines and copies hold: no operation is later than the lease of its line, no store is
/// inside the lease of a copy, and a modified line has no other copy of its version.
pub fn stamps_hold()
    ensures { StampsHold }
{}

/// After any events each line has the value of its source, whose stamp and rank are the line's or less, and each operation has read the
/// last store to its address with a lesser key. Two copies of one address with equal `wts`, or a copy and its home, have the same value
/// and source.
pub fn versions_hold()
    ensures sources { VersionsHold }
    ensures agree { VersionsAgree }
{}

/// After any events a swap that hits reads the value and source of its line's home, each earlier operation at the address has a lesser
/// key, and each swap in a log has read its right store.
pub fn swaps_hold()
    ensures { SwapsHold }
{}
