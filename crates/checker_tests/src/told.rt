//! Refutations as texts and as pictures, also those by sets of states, which the search finds if it finds nothing else.

use pictures::draw_refutation;
use refutation::Refutation;
use refuted_cases::Names;
use std::test::Fail;
use telling::tell;
use trace::Trace;

/// A trace, a refutation of it, what is told of that, and what its picture has, one part a line; what comes after a `-` isn't there.
#[derive(Clone, Copy)]
struct Case {
    trace: &'static [u8],
    steps: &'static [u8],
    told: &'static str,
    parts: &'static str,
}

// Store buffering. What isn't shown isn't in the legend either.
const BUFFERED: Case = Case {
    trace: b"0: M[0] := 1\n0: M[1] == 0\n1: M[1] := 1\n1: M[0] == 0\n",
    steps: b"tardis-refutation 1\nread 0.1 : init\nfrom-read 0 1.0 :\nread 1.1 : init\nfrom-read 2 0.0 :\ncycle : 3 1\nend 5\n",
    told: "no: no order of 4 operations
0.1 loaded 0 from address 1, which only the initial 0 gives; so it comes before 1.0, which stored 1 there
1.1 loaded 0 from address 0, which only the initial 0 gives; so it comes before 0.0, which stored 1 there
but 0.0, 0.1, 1.0, 1.1, 0.0 would go round: 0.0 before 0.1 and 1.0 before 1.1 by program order
",
    parts: "<title>no: no order of 4 operations</title>
Each arrow leads to what comes later. The red ones go round.
>core 0</text>
>core 1</text>
>0.1  M[1] == 0 (initial)</text>
class=\"arrow fromread red\" marker-end=\"url(#red)\"
class=\"arrow program red\" marker-end=\"url(#red)\"
</svg>
-reads-from
-coherence order
-cases",
};

// Two cores count by swaps, and both count from 1 to 2. The text tells where the cores stand in the first of the states in which most is performed.
const LOST_UPDATE: Case = Case {
    trace: b"0: { M[0] == 0; M[0] := 1 }\n0: { M[0] == 1; M[0] := 2 }\n1: M[0] == 1\n1: { M[0] == 1; M[0] := 2 }\n",
    steps: b"tardis-refutation 1\nstates 0 | 0 0 : 0 | 1 1 : 1 | 1 2 : 2 ! 2 1 : 2 : 2 1\nend 1\n",
    told: "no: no order of 4 operations
but no order of the operations at address 0 comes to its end, as 4 states show; in the furthest one
  core 0 has done 0.0 and waits at 0.1 for a 1 at address 0, which has 2
  core 1 has done 1.1, its last
",
    parts: "In the furthest of 4 states. The red operations wait.
>0.0  M[0] == 0; M[0] := 1</text>
<rect class=\"box swap red\"
>0.1  M[0] == 1; M[0] := 2 (finds 2)</text>
-class=\"arrow program red\"",
};

// A dead state, since nothing stores a 2: core 1 isn't at the load of it yet, and core 0 waits for nothing.
const DEAD_STATE: Case = Case {
    trace: b"0: M[0] := 1\n0: M[1] := 1\n1: M[1] == 1\n1: M[0] == 2\n",
    steps: b"tardis-refutation 1\nstates 0 1 ! 0 0 : 0 0 : 2 1\nend 1\n",
    told: "no: no order of 4 operations
but no order of the operations at addresses 0 and 1 comes to its end, as 1 state shows; in the furthest one
  core 0 has done nothing and may go on
  core 1 has done nothing and would wait at 1.1 for a 2 at address 0, which has 0
",
    parts: "<title>no: no order of 4 operations</title>",
};

#[test]
fn refutations_are_told_and_drawn(rt: HostRuntime) -> Result<(), Fail> {
    for case in &[BUFFERED, LOST_UPDATE, DEAD_STATE] {
        let trace = Trace::parse(rt.alloc(), case.trace)?;
        let steps = Refutation::parse(rt.alloc(), case.steps)?;
        let names = Names::none(rt.alloc());
        let told = tell(rt.alloc(), &names, &trace, &steps)?;
        assert_eq!(rt; told.as_str(), case.told);
        let svg = draw_refutation(rt.alloc(), told.as_str(), &names, &trace, &steps)?;
        for part in case.parts.lines() {
            let is_there = match part.strip_prefix('-') {
                Some(absent) => !svg.as_str().contains(absent),
                None => svg.as_str().contains(part),
            };
            assert!(rt; is_there, "{part}");
        }
    }
    Ok(())
}
