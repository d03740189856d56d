use crate::{NumberQueue, WakeRing};
use std::collections::VecDeque;
use std::test::*;

#[test]
fn keeps_distinct_numbers_in_order(rt: HostRuntime) -> Result<(), Fail> {
    let mut ring = NumberQueue::new(rt.alloc(), 3)?;
    assert!(rt; ring.push_back(0));
    assert!(rt; ring.push_back(1));
    assert!(rt; ring.push_back(2));
    assert!(rt; !ring.push_back(1));
    assert!(rt; ring.remove(1));
    assert!(rt; !ring.remove(1));
    assert_eq!(rt; ring.len(), 2);
    assert_eq!(rt; ring.pop_front(), Some(0));
    assert_eq!(rt; ring.pop_front(), Some(2));
    assert_eq!(rt; ring.pop_front(), None);
    assert_eq!(rt; ring.len(), 0);
    let mut empty = NumberQueue::new(rt.alloc(), 0)?;
    assert_eq!(rt; empty.pop_front(), None);
    Ok(())
}

/// What `push_back` has to return, worked out on a plain list.
fn push_plain(list: &mut VecDeque<u32>, i: u32) -> Result<bool, Fail> {
    if list.contains(&i) {
        return Ok(false);
    }
    list.push_back(i)?;
    Ok(true)
}

/// What `remove` has to return.
fn remove_plain(list: &mut VecDeque<u32>, i: u32) -> bool {
    match list.iter().position(|x| *x == i) {
        Some(at) => list.remove(at).is_some(),
        None => false,
    }
}

#[test]
fn stays_in_step_with_a_plain_list(rt: HostRuntime) -> Result<(), Fail> {
    let mut ring = NumberQueue::new(rt.alloc(), 64)?;
    let mut list: VecDeque<u32> = VecDeque::new(rt.alloc());
    let mut pushed = 0u32;
    let mut removed = 0u32;
    let mut popped = 0u32;
    for k in 0..10_000u32 {
        let i = (k * k + 7 * k) % 61;
        if k % 3 == 0 {
            let answer = ring.push_back(i);
            assert_eq!(rt; answer, push_plain(&mut list, i)?, "call {k}");
            pushed += u32::from(answer);
        } else if k % 3 == 1 {
            let answer = ring.remove(i);
            assert_eq!(rt; answer, remove_plain(&mut list, i), "call {k}");
            removed += u32::from(answer);
        } else {
            let answer = ring.pop_front();
            assert_eq!(rt; answer, list.pop_front(), "call {k}");
            popped += u32::from(answer.is_some());
        }
        assert_eq!(rt; ring.len() as usize, list.len(), "call {k}");
    }
    assert_eq!(rt; (pushed, removed, popped), (3_334, 55, 3_278));
    assert_eq!(rt; ring.pop_front(), Some(51));
    assert_eq!(rt; ring.pop_front(), None);
    Ok(())
}

#[test]
fn takes_the_queue_first_and_then_sweeps(rt: HostRuntime) -> Result<(), Fail> {
    let mut ring = WakeRing::swept(rt.alloc(), 6, 2)?;
    assert!(rt; ring.add(4));
    assert!(rt; ring.add(3));
    assert!(rt; ring.add(1));
    assert!(rt; ring.add(0));
    assert!(rt; !ring.add(3));
    assert_eq!(rt; ring.take(), Some(1));
    assert_eq!(rt; ring.take(), Some(0));
    assert_eq!(rt; ring.take(), Some(3));
    assert!(rt; ring.add(2));
    assert_eq!(rt; ring.take(), Some(4));
    assert!(rt; ring.add(5));
    assert!(rt; ring.remove(5));
    assert!(rt; ring.add(3));
    assert_eq!(rt; ring.take(), Some(3));
    assert_eq!(rt; ring.take(), Some(2));
    assert_eq!(rt; ring.take(), None);
    Ok(())
}

#[test]
fn sweeps_anew_once_nothing_waits(rt: HostRuntime) -> Result<(), Fail> {
    let mut ring = WakeRing::swept(rt.alloc(), 3, 0)?;
    assert!(rt; ring.add(2));
    assert_eq!(rt; ring.take(), Some(2));
    assert!(rt; ring.add(0));
    assert!(rt; ring.add(1));
    assert_eq!(rt; ring.take(), Some(1));
    assert_eq!(rt; ring.take(), Some(0));
    assert_eq!(rt; ring.take(), None);
    assert!(rt; ring.add(2));
    assert!(rt; ring.add(1));
    assert_eq!(rt; ring.take(), Some(1));
    Ok(())
}
