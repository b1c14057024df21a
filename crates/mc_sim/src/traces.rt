//! What each line of a pool script does, reported line by line.

use mc_pool_script::{is_of_pool, steps_of_pool_script};
use mc_script::{SimError, lines_of};
use mc_store::{FixedHasher, LruStore};
use mc_world::Step;
use std::alloc::Global;
use std::str;

/// Reports on standard error what each line of a pool script does that follows the head and the points. It reports
/// nothing of a server's script.
pub fn trace<R: Eprint>(rt: &R, alloc: Global, input: &[u8]) -> Result<(), SimError> {
    if !is_of_pool(input) {
        return Ok(());
    }
    let steps = steps_of_pool_script::<LruStore<FixedHasher>>(alloc, input)?;
    tell_all(rt, input, steps.as_slice());
    Ok(())
}

/// Reports it for the last lines, one for each step.
fn tell_all<R: Eprint>(rt: &R, input: &[u8], steps: &[Step]) {
    let lines = lines_of(input).fold(0_usize, |count, _| count.saturating_add(1));
    let before = lines.saturating_sub(steps.len());
    for ((number, line), step) in lines_of(input).skip(before).zip(steps) {
        tell(rt, number, line, *step);
    }
}

/// Reports it for a line. Best effort: a failed write is ignored.
fn tell<R: Eprint>(rt: &R, number: u64, line: &[u8], step: Step) {
    let did = match step {
        Step::Done => "done",
        Step::Nothing => "nothing",
    };
    let _ = match str::from_utf8(line) {
        Ok(text) => eprintln!(rt; "line {number}: {did}: {text}"),
        Err(_) => eprintln!(rt; "line {number}: {did}"),
    };
}
