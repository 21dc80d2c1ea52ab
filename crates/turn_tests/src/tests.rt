// What callers of a lock are answered.
use super::*;
use std::test::Fail;
use turn_lock::TurnLock;

#[test]
fn two_threads_meet(rt: HostRuntime) -> Result<(), Fail> {
    let (lock, pass) = TurnLock::new(rt.alloc(), Tally::with_room(rt.alloc(), 7, 256)?)?;
    let Some(mut pass) = two_hundred(&rt, &lock, pass) else {
        panic!(rt; "an addition was not recorded")
    };
    assert_eq!(rt; pass.number(), 0);
    assert_eq!(rt; lock.call(&rt, &mut pass, Ask::Total), Some(7 + 2 * 4950));
    Ok(())
}

#[test]
fn eight_threads_meet_in_a_tree(rt: HostRuntime) -> Result<(), Fail> {
    let (lock, pass) = TurnLock::new(rt.alloc(), Tally::with_room(rt.alloc(), 0, 1024)?)?;
    let Some(mut pass) = eight_hundred(&rt, &lock, pass) else {
        panic!(rt; "an addition was not recorded")
    };
    assert_eq!(rt; lock.call(&rt, &mut pass, Ask::Total), Some(8 * 4950));
    Ok(())
}

#[test]
fn numbers_rise(rt: HostRuntime) -> Result<(), Fail> {
    let (lock, mut pass) = TurnLock::new(rt.alloc(), Tally::with_room(rt.alloc(), 0, 4)?)?;
    let Some((mut one, mut other)) = two_more(&rt, &lock, &mut pass) else {
        panic!(rt; "no number was left")
    };
    assert_eq!(rt; (pass.number(), one.number(), other.number()), (0, 1, 2));
    assert_eq!(rt; add(&rt, &lock, &mut one, 10), Some(0));
    assert_eq!(rt; add(&rt, &lock, &mut other, 20), Some(10));
    assert_eq!(rt; add(&rt, &lock, &mut one, 30), Some(30));
    let Some((late, last)) = two_between(&rt, &lock, &mut pass, one) else {
        panic!(rt; "no number was left")
    };
    assert_eq!(rt; (late.number(), last.number()), (3, 4));
    lock.join(&mut other, pass);
    assert_eq!(rt; lock.call(&rt, &mut other, Ask::Total), Some(60));
    Ok(())
}

#[test]
fn every_second_entry_is_refused(rt: HostRuntime) -> Result<(), Fail> {
    let evens = Evens::with_room(rt.alloc(), 8)?;
    let (lock, mut pass) = TurnLock::new(rt.alloc(), evens)?;
    assert_eq!(rt; lock.call(&rt, &mut pass, 0), true);
    assert_eq!(rt; lock.call(&rt, &mut pass, 1), false);
    assert_eq!(rt; lock.call(&rt, &mut pass, 2), true);
    assert_eq!(rt; lock.call(&rt, &mut pass, 3), false);
    Ok(())
}
