//! The rules of stamps and ranks.

ghost use Rattle.std.specs.Prelude.{◌≡◌};
ghost use Rattle.lease_rule.specs.Lease.{load_stamp, store_stamp, rank_of, renewed_rts, write_back_rts, self_increment, AnswersStamp, AnswersRank};

use line_stamps::{LineStamps, Rank, Stamp, StampFault};

/// The stamp of a load: the core's own, or, if that is later, the stamp of the line's write.
pub fn load_stamp(pts: Stamp, wts: Stamp) -> Stamp
    ensures { result ≡ load_stamp pts wts }
{
    pts.max(wts)
}

/// The stamp of a store: after the line's lease, or, if the owner has modified the line since it
/// got it, no earlier than the lease's end; and never before the core's own. 4 StampLimit if it is
/// above 2^48.
pub fn store_stamp(pts: Stamp, rts: Stamp, modified: bool) -> Result<Stamp, StampFault>
    ensures { AnswersStamp result (store_stamp pts rts modified) }
{
    let free = if modified { rts } else { rts.plus(1)? };
    Ok(pts.max(free))
}

/// The rank of an operation of stamp `t`: not before the core's last operation if that had the
/// same stamp, and after the line's store if that had it. 5 RankLimit if it is above
/// 4,294,967,295.
pub fn rank_of(t: Stamp, pts: Stamp, r: Rank, wts: Stamp, wr: Rank) -> Result<Rank, StampFault>
    ensures { AnswersRank result (rank_of t pts r wts wr) }
{
    let own = if t == pts { r } else { Rank::ZERO };
    let after_store = if t == wts { wr.next()? } else { Rank::ZERO };
    Ok(own.max(after_store))
}

/// The end of the lease that a slice gives to a core at `pts`. 4 StampLimit if it is above 2^48.
pub fn renewed_rts(stamps: LineStamps, pts: Stamp, lease: u64) -> Result<Stamp, StampFault>
    ensures { AnswersStamp result (renewed_rts stamps pts lease) }
{
    let after_write = stamps.wts.plus(lease)?;
    let after_core = pts.plus(lease)?;
    Ok(stamps.rts.max(after_write).max(after_core))
}

/// The end of the lease of a line that its owner writes back, after a recall for the stamp
/// `asked`. 4 StampLimit if it is above 2^48.
pub fn write_back_rts(stamps: LineStamps, asked: Stamp, lease: u64) -> Result<Stamp, StampFault>
    ensures { AnswersStamp result (write_back_rts stamps asked lease) }
{
    let after_write = stamps.wts.plus(lease)?;
    Ok(stamps.rts.max(after_write).max(asked))
}

/// The core's stamp after a self-increment. 4 StampLimit if it is above 2^48.
pub fn self_increment(pts: Stamp) -> Result<Stamp, StampFault>
    ensures { AnswersStamp result (self_increment pts) }
{
    pts.plus(1)
}
