use crate::playing::{told_here, wrong_answers};
use fab_meeting::{Meeting, RollCall};
use std::test::Fail;

#[test]
fn two_members_hear_each_other(rt: HostRuntime) -> Result<(), Fail> {
    assert_eq!(rt; wrong_answers(&rt, rt.alloc(), 2, 10_000)?, 0);
    Ok(())
}

#[test]
fn eight_members_hear_each_other(rt: HostRuntime) -> Result<(), Fail> {
    assert_eq!(rt; wrong_answers(&rt, rt.alloc(), 8, 10_000)?, 0);
    Ok(())
}

#[test]
fn one_member_hears_itself(rt: HostRuntime) -> Result<(), Fail> {
    assert_eq!(rt; wrong_answers(&rt, rt.alloc(), 1, 1_000)?, 0);
    Ok(())
}

#[test]
fn a_seat_counts_its_meetings(rt: HostRuntime) -> Result<(), Fail> {
    let (_meeting, seats) = Meeting::new(rt.alloc(), 3)?;
    assert!(rt; seats.len() == 3 && seats[2].made() == 0);
    Ok(())
}

#[test]
fn all_members_are_told_that_all_are_here(rt: HostRuntime) -> Result<(), Fail> {
    assert_eq!(rt; told_here(&rt, rt.alloc(), 8, 8)?, 8);
    Ok(())
}

#[test]
fn nobody_waits_for_a_member_that_does_not_come(rt: HostRuntime) -> Result<(), Fail> {
    assert_eq!(rt; told_here(&rt, rt.alloc(), 3, 2)?, 0);
    Ok(())
}

/// As where no thread can be had, so that the members come one after another.
#[test]
fn one_after_another_they_give_up(rt: HostRuntime) -> Result<(), Fail> {
    let roll = RollCall::new(2);
    let first = roll.all_here(&rt);
    let second = roll.all_here(&rt);
    assert!(rt; !first && !second);
    Ok(())
}
