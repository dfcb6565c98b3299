//! Drawn traces, each of which the search decides. An answer that doesn't pass its check would be a bug of the search, and `search` gives
//! undecided for it.

use mem_op::CoreId;
use rand_core::SeedableRng;
use rand_core::utils::NextWord;
use rand_pcg::Pcg32;
use refutation::Answer;
use search::search;
use std::alloc::Global;
use std::test::Fail;
use trace::{Access, Address, Trace};

/// Draws a number below 4.
fn draw(generator: &mut Pcg32) -> u64 {
    u64::from(generator.next_word()) % 4
}

/// Twelve operations of four cores at most, which use two addresses. An operation reads the word that was stored there last, or one that was drawn,
/// so some of the traces are consistent and some aren't.
fn drawn_trace(alloc: Global, seed: u64) -> Result<Trace, Fail> {
    let mut generator = Pcg32::seed_from_u64(seed);
    let mut trace = Trace::new(alloc);
    let mut last = [0; 2];
    for _ in 0..12 {
        let core = CoreId::new(draw(&mut generator))?;
        let addr = usize::from(draw(&mut generator) < 2);
        let (kind, age) = (draw(&mut generator), draw(&mut generator));
        let (drawn, stored) = (draw(&mut generator), draw(&mut generator));
        let there = last.get(addr).copied().unwrap_or(0);
        let read = if age == 0 { drawn } else { there };
        if let Some(word) = last.get_mut(addr) {
            *word = if kind > 1 { stored } else { there };
        }
        let addr = addr as Address;
        let access = match kind {
            2 => Access::store(addr, stored),
            3 => Access::swap(addr, read, stored),
            _ => Access::load(addr, read),
        };
        trace.push(core, access)?;
    }
    Ok(trace)
}

#[test]
fn drawn_traces_are_decided(rt: HostRuntime) -> Result<(), Fail> {
    let (mut orders, mut refutations) = (0u64, 0u64);
    for seed in 0..400 {
        match search(rt.alloc(), &drawn_trace(rt.alloc(), seed)?, 100_000)? {
            Answer::Order(_) => orders = orders.saturating_add(1),
            Answer::Refutation(_) => refutations = refutations.saturating_add(1),
            Answer::Undecided => assert!(rt; false, "seed {seed}"),
        }
    }
    assert!(rt;
        orders > 50 && refutations > 50,
        "{orders} orders, {refutations} refutations"
    );
    Ok(())
}
