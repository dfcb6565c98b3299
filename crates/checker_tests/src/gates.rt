//! Who enters the gate of the judge, and when.

use log_file::MemSource;
use std::sync::atomic::{AtomicUsize, Ordering};
use std::test::Fail;
use verdict::{Gate, Phase, judge};

/// A gate that keeps each worker until this many have entered the phase, for at most 100,000,000 looks. The addresses come after all cores.
#[derive(Drop)]
struct Meeting {
    wanted: usize,
    cores: AtomicUsize,
    addresses: AtomicUsize,
    late: AtomicUsize,
}

impl Gate for Meeting {
    fn enter(&self, phase: Phase, piece: usize) {
        let (entered, before) = match phase {
            Phase::Cores => (&self.cores, self.wanted),
            Phase::Addresses => (&self.addresses, self.cores.load(Ordering::SeqCst)),
        };
        let is_due = before == self.wanted && 1 <= piece && piece <= self.wanted;
        let _ = entered.fetch_add(1, Ordering::SeqCst);
        for _ in 0..100_000_000u64 {
            if is_due && entered.load(Ordering::SeqCst) >= self.wanted {
                return;
            }
        }
        let _ = self.late.fetch_add(1, Ordering::SeqCst);
    }
}

#[test]
fn workers_enter_each_phase_at_once(rt: HostRuntime) -> Result<(), Fail> {
    let zero = b"tardis-log 1 core 0 of 2\nS 0 1 1 0\nL 1 0 1 0 init\nend 2\n";
    let one = b"tardis-log 1 core 1 of 2\nS 1 1 1 0\nL 0 0 1 0 init\nend 2\n";
    for workers in [1, 2] {
        let gate = Meeting {
            wanted: workers,
            cores: AtomicUsize::new(0),
            addresses: AtomicUsize::new(0),
            late: AtomicUsize::new(0),
        };
        let mut logs = [MemSource::new(zero, &[]), MemSource::new(one, &[])];
        let verdict = judge(&rt, rt.alloc(), &mut logs, workers, &gate)?;
        assert_eq!(rt; verdict.to_string(rt.alloc())?.as_str(), "no: 1.1 SOURCE");
        assert_eq!(rt; gate.cores.load(Ordering::SeqCst), workers);
        assert_eq!(rt; gate.addresses.load(Ordering::SeqCst), workers);
        assert_eq!(rt; gate.late.load(Ordering::SeqCst), 0);
    }
    Ok(())
}
