// Runs: steps of a byte or two that stand one after another, found by flat loops, with no exit in them. In a check of an accepted list that is off a pair
// nearly every step is passed so; what no run takes is walked step by step, which alone refuses.
ghost use Rattle.std.specs.Prelude.{◌≡◌, ◌+◌, ◌-◌, ◌^◌, ◌≤◌, ◌<◌, length, IfSome};
ghost use Rattle.read_list.specs.Runs.{Steps, InPlace, HighPart, RunReady, RunFrom, after, past};

use crate::{State, StepRun, Walk};
use base_cursor::Cursor;
use base_rows::larger;

// 0 for a byte that is a step by itself, else 1.
fn no_step(b: u8) -> u8
    ensures { result ≡ 0 → (0 < b) × (b < 128) }
{
    u8::from(b == 0 || b >= 128)
}

// The sum of some bytes that are a step each.
fn sum_single(s: &[u8], at: usize, count: usize) -> Option<usize>
    requires { (at + count ≤ length s.now) × (count ≤ 63) }
    ensures { IfSome result (Steps s.now at count (at + count)) }
{
    let mut sum: u16 = 0;
    let mut most: u8 = 0;
    for i in 0..count {
        let b = s[at + i];
        sum += u16::from(b);
        most = larger(most, no_step(b));
    }
    if most == 0 {
        Some(usize::from(sum))
    } else {
        None
    }
}

// 0 for a byte that may follow `before`, else 1.
fn out_of_place(before: u8, b: u8) -> u8
    ensures { result ≡ 0 → InPlace before b }
{
    if b == 0 {
        1
    } else if b < 128 {
        0
    } else {
        before / 128
    }
}

// What a byte adds in the second place of a step.
fn high_part(before: u8, b: u8) -> u16
    ensures { HighPart before b result × (result < 128) }
{
    if before < 128 { 0 } else { u16::from(b % 128) }
}

// The sum of steps of a byte or two, `count` in `size` bytes, if these are such. A byte adds its low seven bits, and 127 times that more where it is the second
// of its step.
fn sum_mixed(s: &[u8], at: usize, size: usize, count: usize) -> Option<usize>
    requires { (at + size ≤ length s.now) × (0 < size) × (size ≤ 126) }
    ensures { IfSome result (Steps s.now at count (at + size)) }
{
    let first = s[at];
    let mut low = u16::from(first % 128);
    let mut high: u16 = 0;
    let mut long: u8 = first / 128;
    let mut most: u8 = out_of_place(0, first);
    for i in 1..size {
        let before = s[at + i - 1];
        let b = s[at + i];
        low += u16::from(b % 128);
        high += high_part(before, b);
        long += b / 128;
        most = larger(most, out_of_place(before, b));
    }
    if most != 0 {
        return None;
    }
    if s[at + size - 1] >= 128 {
        return None;
    }
    if size - usize::from(long) != count {
        return None;
    }
    Some(usize::from(low) + 127 * usize::from(high))
}

// The sum of `count` steps of `size` bytes, if these are steps of a byte or two.
fn sum_steps(s: &[u8], at: usize, size: usize, count: usize) -> Option<usize>
    requires { (at + size ≤ length s.now) × (count ≤ 63) }
    ensures { IfSome result (Steps s.now at count (at + size)) }
{
    if size == count {
        return sum_single(s, at, count);
    }
    if size < count || size > 126 {
        return None;
    }
    sum_mixed(s, at, size, count)
}

// How many bytes the `count` steps are likely to take: all of the group's by its size byte; in the last group those to the record's end, or a byte each where
// these are too many. A guess alone: what is wrong is no run.
fn likely_size(s: &[u8], st: State, more: usize, count: usize) -> usize
    requires at_in_bounds { st.at.at ≤ length s.now }
    requires at_in_bounds_2 { st.room < more → st.size.at + 1 ≤ length s.now }
{
    if st.room < more {
        let read = st.size.number(s, 1);
        return read.value.min(255) + 63;
    }
    let left = s.len() - st.at.at;
    if left > 126 { count } else { left }
}

// The steps of the rest of a group or of the list, if they are a run.
pub fn run_of(s: &[u8], n: usize, st: State, more: usize) -> Option<StepRun>
    requires { RunReady s.now n st more }
    ensures { IfSome result (RunFrom s.now n st more) }
{
    if st.room == 0 {
        return None;
    }
    let at = st.at.at;
    let count = st.room.min(more);
    let size = likely_size(s, st, more, count);
    if size > s.len() - at {
        return None;
    }
    let sum = sum_steps(s, at, size, count)?;
    if sum >= n - st.last {
        return None;
    }
    Some(StepRun { count, size, sum })
}

// The place after a run.
pub fn after_run(st: State, run: StepRun) -> State
    requires { (run.count ≤ st.room) × (st.last + run.sum < 2 ^ 64) × (st.passed + run.count < 2 ^ 64) × (st.at.at + run.size < 2 ^ 64) }
    ensures { result ≡ after st run }
{
    State {
        room: st.room - run.count,
        last: st.last + run.sum,
        passed: st.passed + run.count,
        at: Cursor {
            at: st.at.at + run.size,
        },
        ..st
    }
}

// The place after `done` more entries of a group, where the next step stands at `here`.
pub fn walked(first: State, count: usize, done: usize, last: usize, here: Cursor) -> Walk
    requires { (done ≤ first.room) × (done ≤ count) × (first.passed + done < 2 ^ 64) }
    ensures { (result.st ≡ past first done last here.at) × (result.more ≡ count - done) }
{
    let st = State {
        room: first.room - done,
        last,
        passed: first.passed + done,
        at: here,
        ..first
    };
    Walk {
        st,
        more: count - done,
    }
}
