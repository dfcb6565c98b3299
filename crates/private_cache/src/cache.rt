//! The private cache.

ghost use Rattle.std.specs.Prelude.{◌≡◌, ◌<◌, ◌↔◌, IsTrue, IsSome, IsNone, IfSome, IsSomeAnd, IsOk, IfOk, IfErr, OnOk, OnErr, MatchOption, MatchResult, ℕ};
ghost use Rattle.mem_op.specs.declared.id.Source.{Source};
ghost use Rattle.std.specs.FinMap as map;
ghost use Rattle.std.specs.Option.{option_copied};
ghost use Rattle.lease_rule.specs.Lease.{store_stamp, rank_of};
ghost use Rattle.private_cache.specs.Answers.{past_limit};

use super::answer::{Evicted, Read, Store};
use super::fault::FillFault;
use super::held::{Held, copy_of, filled};
use lease_rule::{Config, load_stamp, rank_of, store_stamp, write_back_rts};
use line_stamps::{Line, LineStamps, Message, Rank, Recall, RecallKind, Reply, Stamp, StampFault};
use lru::LruCache;
use mem_op::{Addr, OpId, Source, Word};
use std::alloc::{AllocError, Global};
use std::marker::Model;
use std::num::NonZeroUsize;

/// The lines of a core, with the order in which it last used them.
#[derive(Drop)]
pub struct PrivateCache {
    lines: LruCache<Addr, Held>,
}

impl Model for PrivateCache {
    ghost use Rattle.std.specs.Prelude.{nat_eq};
    ghost use Rattle.std.specs.List.{IsDistinct};
    ghost use Rattle.std.specs.Map.{keys_of};
    ghost use Rattle.std.specs.FinMap as map;
    ghost use Rattle.private_cache.specs.CacheParts.{CacheParts, cache_code};

    ghost Value = { CacheParts };

    ghost coded = { cache_code };

    ghost view = { λ c. record {
      lines = map.from_entries c.lines.entries;
      order = keys_of c.lines.entries;
      capacity = c.lines.cap;
    } };

    ghost invariant = { λ c. IsDistinct nat_eq (keys_of c.lines.entries) };
}

impl PrivateCache {
    ghost use Rattle.private_cache.specs.Table.{load_hit, store_hit, swap_hit, read_at, stored, recalled};
    ghost use Rattle.private_cache.specs.Steps.{empty_cache, line_at, used, kept, without, after_operation, after_recall, has_room, fill_line, least_recently_used, IsLeastExclusive};
    ghost use Rattle.private_cache.specs.Answers.{hit_fault, give_fault, load_answer, store_answer, swap_answer, recall_answer, evict_answer};

    /// An empty cache of as many lines as the configuration says. Err if memory was refused.
    pub fn new(alloc: Global, config: &Config) -> Result<PrivateCache, AllocError>
        ensures { IfOk result (λ cache. cache ≡ empty_cache config.now.cache_lines) }
    {
        let capacity = NonZeroUsize::new(config.cache_lines()).unwrap();
        Ok(PrivateCache {
            lines: LruCache::new(alloc, capacity)?,
        })
    }

    /// The line of the address, if it is there. Takes no memory.
    pub fn line(&self, addr: Addr) -> Option<&Held>
        ensures { option_copied result ≡ line_at self.now addr }
    {
        self.lines.peek(&addr)
    }

    // Puts this line at the address, and makes it the most recently used. The address must be there or have room.
    fn put(&mut self, addr: Addr, held: &Held) -> Result<(), FillFault>
        requires { IsTrue (has_room self.old addr) }
        ensures ok { OnOk result (self.new ≡ used self.old addr held.now) }
        ensures err { OnErr result (self.new ≡ self.old) }
        ensures there { IsSome (line_at self.old addr) → IsOk result }
        ensures fault { IfErr result (λ fault. fault ≡ FillFault.OutOfMemory) }
    {
        match self.lines.put(addr, *held) {
            Ok(_) => Ok(()),
            Err(_) => Err(FillFault::OutOfMemory),
        }
    }

    // Puts this line at the address, which must be there, and leaves the order of use.
    fn replace_line(&mut self, addr: Addr, held: &Held)
        requires { IsSome (line_at self.old addr) }
        ensures { self.new ≡ kept self.old addr held.now }
    {
        if let Some(place) = self.lines.peek_mut(&addr) {
            *place = *held;
        }
    }

    // Takes the line of the address out.
    fn take_out(&mut self, addr: Addr) -> Option<Held>
        ensures value { result ≡ line_at self.old addr }
        ensures after { self.new ≡ without self.old addr }
    {
        self.lines.pop(&addr)
    }

    // Whether there is room for one more line, or the address is there.
    fn has_room(&self, addr: Addr) -> bool
        ensures value { result ≡ has_room self.now addr }
        ensures some { 0 < self.now.capacity }
    {
        self.lines.len() < self.lines.cap().get() || self.lines.contains(&addr)
    }

    // The address of the least recently used line.
    fn oldest(&self) -> Option<Addr>
        ensures value { result ≡ least_recently_used self.now }
        ensures there { IfSome result (λ oldest. IsSome (line_at self.now oldest)) }
        ensures none { IsNone result → map.len self.now.lines ≡ 0 }
    {
        let (oldest, _) = self.lines.peek_lru()?;
        Some(*oldest)
    }

    /// The answer that a load at `addr` would get. Takes no memory.
    #[inline(always)]
    pub fn peek_load(&self, addr: Addr, pts: Stamp, r: Rank) -> Result<Read, StampFault>
        ensures { let held = line_at self.now addr in
            let hit = load_hit pts r held in
            MatchResult result
            (λ load. (load ≡ load_answer addr pts held hit) × (hit_fault hit ≡ None))
            (λ fault. hit_fault hit ≡ Some fault) }
    {
        let held = self.line(addr);
        let miss = Message::ShReq {
            addr,
            copy: copy_of(held),
            pts,
        };
        let Some(held) = held else {
            return Ok(Read::Miss(miss));
        };
        let line = held.line();
        let stamps = line.stamps();
        if held.is_shared() && stamps.rts < pts {
            return Ok(Read::Miss(miss));
        }
        let stamp = load_stamp(pts, stamps.wts);
        let rank = rank_of(stamp, pts, r, stamps.wts, stamps.wr)?;
        Ok(Read::Hit {
            value: line.value(),
            source: line.source(),
            stamp,
            rank,
        })
    }

    /// Loads the word at `addr` for a core of stamp `pts` and rank `r`. A hit makes the line the
    /// most recently used; a miss answers the request to send and changes nothing. 5 RankLimit
    /// if the load's rank is above the limit. Takes no memory.
    pub fn load(&mut self, addr: Addr, pts: Stamp, r: Rank) -> Result<Read, StampFault>
        ensures answer { let held = line_at self.old addr in
            let hit = load_hit pts r held in
            MatchResult result
            (λ load. (load ≡ load_answer addr pts held hit) × (hit_fault hit ≡ None))
            (λ fault. hit_fault hit ≡ Some fault) }
        ensures ok { let hit = load_hit pts r (line_at self.old addr) in
            OnOk result (self.new ≡ after_operation self.old addr hit) }
        ensures err { OnErr result (self.new ≡ self.old) }
    {
        let load = self.peek_load(addr, pts, r)?;
        if let Read::Hit { stamp, .. } = &load {
            self.read(addr, *stamp);
        }
        Ok(load)
    }

    /// Stores a word at `addr` for a core of stamp `pts` and rank `r`; `id` is the store's id. A
    /// hit makes the line the most recently used; a miss answers the request to send and changes
    /// nothing. 4 StampLimit or 5 RankLimit if the store's stamp or rank is above its limit.
    /// Takes no memory.
    pub fn store(
        &mut self,
        addr: Addr,
        value: Word,
        id: OpId,
        pts: Stamp,
        r: Rank,
    ) -> Result<Store, StampFault>
        ensures answer { let held = line_at self.old addr in
            let hit = store_hit value (Source.Store id) pts r held in
            MatchResult result
            (λ store. (store ≡ store_answer addr held hit) × (hit_fault hit ≡ None))
            (λ fault. hit_fault hit ≡ Some fault) }
        ensures ok { let hit = store_hit value (Source.Store id) pts r (line_at self.old addr) in
            OnOk result (self.new ≡ after_operation self.old addr hit) }
        ensures err { OnErr result (self.new ≡ self.old) }
    {
        match self.swap(addr, value, id, pts, r)? {
            Read::Hit { stamp, rank, .. } => Ok(Store::Hit { stamp, rank }),
            Read::Miss(request) => Ok(Store::Miss(request)),
        }
    }

    /// The answer that a swap at `addr` would get, whatever it stores. A store hits or misses as a
    /// swap does. Takes no memory.
    #[inline(always)]
    pub fn peek_swap(&self, addr: Addr, pts: Stamp, r: Rank) -> Result<Read, StampFault>
        ensures { (value : ℕ) (source : Source) → let held = line_at self.now addr in
            let hit = swap_hit value source pts r held in
            MatchResult result
            (λ swap. (swap ≡ swap_answer addr held hit) × (hit_fault hit ≡ None))
            (λ fault. hit_fault hit ≡ Some fault) }
    {
        let held = self.line(addr);
        let Some(Held::Exclusive { modified, line }) = held else {
            return Ok(Read::Miss(Message::ExReq {
                addr,
                copy: copy_of(held),
            }));
        };
        let (stamp, rank) = store_time(*modified, line.stamps(), pts, r)?;
        Ok(Read::Hit {
            value: line.value(),
            source: line.source(),
            stamp,
            rank,
        })
    }

    /// Reads the word at `addr` and stores another in its place, for a core of stamp `pts` and rank
    /// `r`; `id` is the swap's id. A hit answers the word that was there, and makes the line the
    /// most recently used; a miss answers the request to send and changes nothing. 4 StampLimit or
    /// 5 RankLimit if the swap's stamp or rank is above its limit. Takes no memory.
    pub fn swap(
        &mut self,
        addr: Addr,
        value: Word,
        id: OpId,
        pts: Stamp,
        r: Rank,
    ) -> Result<Read, StampFault>
        ensures answer { let held = line_at self.old addr in
            let hit = swap_hit value (Source.Store id) pts r held in
            MatchResult result
            (λ swap. (swap ≡ swap_answer addr held hit) × (hit_fault hit ≡ None))
            (λ fault. hit_fault hit ≡ Some fault) }
        ensures ok { let hit = swap_hit value (Source.Store id) pts r (line_at self.old addr) in
            OnOk result (self.new ≡ after_operation self.old addr hit) }
        ensures err { OnErr result (self.new ≡ self.old) }
    {
        let swap = self.peek_swap(addr, pts, r)?;
        if let Read::Hit { stamp, rank, .. } = &swap {
            self.write(addr, value, id, *stamp, *rank);
        }
        Ok(swap)
    }

    /// Makes a load that hits, as `peek_load` said: this is its stamp. An owner extends the lease to
    /// it, and the line becomes the most recently used. Does nothing if no line is there. Takes no
    /// memory.
    pub fn read(&mut self, addr: Addr, stamp: Stamp)
        ensures { MatchOption (line_at self.old addr)
            (self.new ≡ self.old)
            (λ held. self.new ≡ used self.old addr (read_at held stamp)) }
    {
        if let Some(held) = self.lines.get_mut(&addr) {
            *held = held.read_at(stamp);
        }
    }

    /// Makes the store or swap `id` that hits, as `peek_swap` said: these are its stamp and rank. The
    /// line becomes the most recently used. Does nothing if no line is there. Takes no memory.
    pub fn write(&mut self, addr: Addr, value: Word, id: OpId, stamp: Stamp, rank: Rank)
        ensures { MatchOption (line_at self.old addr)
            (self.new ≡ self.old)
            (λ _. self.new ≡ used self.old addr (stored value (Source.Store id) stamp rank)) }
    {
        if let Some(held) = self.lines.get_mut(&addr) {
            *held = Held::Exclusive {
                modified: true,
                line: Line::new(value, Source::Store(id), LineStamps::at(stamp, rank)),
            };
        }
    }

    /// The address of the least recently used line, which must go before a reply can fill `addr`;
    /// none if `addr` is there, or there is room for it. Takes no memory.
    pub fn victim(&self, addr: Addr) -> Option<Addr>
        ensures none { IsNone result ↔ IsTrue (has_room self.now addr) }
        ensures least { IfSome result (λ victim. least_recently_used self.now ≡ Some victim) }
        ensures there { IfSome result (λ victim. IsSome (line_at self.now victim)) }
    {
        if self.has_room(addr) {
            return None;
        }
        self.oldest()
    }

    /// The least address whose line is Exclusive; none if no line is. Takes no memory.
    pub fn least_exclusive(&self) -> Option<Addr>
        ensures { IsLeastExclusive self.now result }
    {
        let mut least: Option<Addr> = None;
        for (addr, held) in self.lines.iter() {
            if !held.is_shared() {
                least = match &least {
                    None => Some(*addr),
                    Some(found) => Some((*found).min(*addr)),
                };
            }
        }
        least
    }

    /// Takes the line of `addr` out. The core drops a Shared one, and must give an Exclusive one
    /// back. Takes no memory.
    pub fn evict(&mut self, addr: Addr) -> Evicted
        ensures answer { result ≡ evict_answer addr (line_at self.old addr) }
        ensures after { self.new ≡ without self.old addr }
    {
        match &self.take_out(addr) {
            None => Evicted::Nothing,
            Some(Held::Shared(_)) => Evicted::Dropped,
            Some(Held::Exclusive { line, .. }) => {
                Evicted::GiveBack(Message::FlushRep { addr, line: *line })
            }
        }
    }

    /// The answer that a recall would get. Takes no memory.
    pub fn peek_recall(&self, recall: &Recall, lease: u64) -> Result<Option<Message>, StampFault>
        ensures { let given = recalled recall.now lease (line_at self.now recall.now.addr) in
            MatchResult result
            (λ answer. (answer ≡ recall_answer recall.now given) × (give_fault given ≡ None))
            (λ fault. give_fault given ≡ Some fault) }
    {
        let addr = recall.addr;
        let Some(Held::Exclusive { line, .. }) = &self.line(addr).copied() else {
            return Ok(None);
        };
        match recall.kind {
            RecallKind::WriteBack => {
                let stamps = line.stamps();
                let rts = write_back_rts(stamps, recall.rts, lease)?;
                let line = line.with_stamps(LineStamps { rts, ..stamps });
                Ok(Some(Message::WbRep { addr, line }))
            }
            RecallKind::Flush => Ok(Some(Message::FlushRep { addr, line: *line })),
        }
    }

    /// Gives an Exclusive line back, as the recall asks. Answers the message to send, or none if the
    /// line isn't there as Exclusive, and then nothing changes. A write-back keeps the line as
    /// Shared and leaves the order of use; a flush takes the line out. It doesn't look at the
    /// recall's owner. 4 StampLimit if the `rts` of a write-back is above the limit. Takes no
    /// memory.
    pub fn recall(&mut self, recall: &Recall, lease: u64) -> Result<Option<Message>, StampFault>
        ensures answer { let given = recalled recall.now lease (line_at self.old recall.now.addr) in
            MatchResult result
            (λ answer. (answer ≡ recall_answer recall.now given) × (give_fault given ≡ None))
            (λ fault. give_fault given ≡ Some fault) }
        ensures ok { let given = recalled recall.now lease (line_at self.old recall.now.addr) in
            OnOk result (self.new ≡ after_recall self.old recall.now given) }
        ensures err { OnErr result (self.new ≡ self.old) }
    {
        let message = self.peek_recall(recall, lease)?;
        match &message {
            Some(Message::WbRep { addr, line }) => self.replace_line(*addr, &Held::Shared(*line)),
            Some(_) => {
                let _ = self.take_out(recall.addr);
            }
            None => {}
        }
        Ok(message)
    }

    /// Whether the reply fits the line of `addr`, and there is room for it. Takes no memory.
    pub fn fits(&self, addr: Addr, reply: &Reply) -> bool
        ensures { IsTrue result ↔ IsSome (fill_line self.now addr reply.now) }
    {
        self.has_room(addr) && filled(self.line(addr), reply).is_some()
    }

    /// Fills the line of `addr` from a reply, and makes it the most recently used. 14 BadReply if
    /// the reply doesn't fit the line, or a new line finds the cache full. 10 OutOfMemory only if
    /// the line isn't there. A refusal changes nothing.
    pub fn fill(&mut self, addr: Addr, reply: &Reply) -> Result<(), FillFault>
        ensures ok { OnOk result (IsSomeAnd (fill_line self.old addr reply.now)
            (λ held. self.new ≡ used self.old addr held)) }
        ensures bad_reply { (result ≡ Err FillFault.BadReply)
            ↔ (fill_line self.old addr reply.now ≡ None) }
        ensures out_of_memory { result ≡ Err FillFault.OutOfMemory
            → IsNone (line_at self.old addr) }
        ensures err { OnErr result (self.new ≡ self.old) }
    {
        if !self.has_room(addr) {
            return Err(FillFault::BadReply);
        }
        let Some(held) = &filled(self.line(addr), reply) else {
            return Err(FillFault::BadReply);
        };
        self.put(addr, held)
    }
}

// The stamp and the rank of a store or a swap at a line that its core owns.
#[inline(always)]
fn store_time(
    modified: bool,
    stamps: LineStamps,
    pts: Stamp,
    r: Rank,
) -> Result<(Stamp, Rank), StampFault>
    ensures { let stamp = store_stamp pts stamps.rts modified in
        let rank = rank_of stamp pts r stamps.wts stamps.wr in
        MatchResult result
        (λ time. (time ≡ (stamp, rank)) × (past_limit stamp rank ≡ None))
        (λ fault. past_limit stamp rank ≡ Some fault) }
{
    let stamp = store_stamp(pts, stamps.rts, modified)?;
    let rank = rank_of(stamp, pts, r, stamps.wts, stamps.wr)?;
    Ok((stamp, rank))
}
