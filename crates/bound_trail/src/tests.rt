use crate::Trail;
use box_eval::osc_base::Row;
use box_eval::{Bounds, Ends, Pair};

#[test]
fn two_sets_and_their_undoing(rt: HostRuntime) {
    let mut pairs = Row::new(rt.alloc());
    pairs.push(Pair { low: 0, high: 9 }).expect(&rt, "memory");
    pairs.push(Pair { low: -5, high: 5 }).expect(&rt, "memory");
    let mut trail = Trail::new(rt.alloc(), &Bounds { pairs }, 2).expect(&rt, "memory");
    assert_eq!(rt; (trail.len(), trail.mark(), trail.room()), (2, 0, 2));
    trail.set_low(0, 3);
    trail.set_high(1, -5);
    assert_eq!(rt; (trail.mark(), trail.room()), (2, 0));
    assert_eq!(rt;
        (trail.low(0), trail.high(0), trail.low(1), trail.high(1)),
        (3, 9, -5, -5)
    );
    trail.undo_to(1);
    assert_eq!(rt; (trail.mark(), trail.room()), (1, 1));
    assert_eq!(rt;
        (trail.low(0), trail.high(0), trail.low(1), trail.high(1)),
        (3, 9, -5, 5)
    );
    trail.set_low(1, 5);
    trail.undo_to(0);
    assert_eq!(rt; (trail.mark(), trail.room()), (0, 2));
    assert_eq!(rt;
        (trail.low(0), trail.high(0), trail.low(1), trail.high(1)),
        (0, 9, -5, 5)
    );
}
