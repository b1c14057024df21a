//! The memory limit of a process's control groups.

use mc_program::earlier as lower;
use std::fs;
use std::fs::Files;

/// The file in which the system names the control groups of this process: a line for each tree of groups, `<number>:<what it
/// limits>:<group>`.
const GROUPS: &str = "/proc/self/cgroup";

/// The most groups above each other that are read.
const MOST_GROUPS: u32 = 32;

/// Returns the lowest memory limit, in bytes, of the control groups of this process, of either version of Linux; none if there is none, or
/// the system does not report it.
pub fn group_limit<R: Files + AllocGlobal>(rt: &R) -> Option<u64> {
    let groups = fs::read_to_string(rt, GROUPS).ok()?;
    let mut lowest = None;
    for line in groups.lines() {
        let limit = if let Some(group) = line.strip_prefix("0::") {
            limit_above(rt, "/sys/fs/cgroup", group, "memory.max")
        } else if let Some((_, group)) = line.split_once(":memory:") {
            limit_above(rt, "/sys/fs/cgroup/memory", group, "memory.limit_in_bytes")
        } else {
            None
        };
        lowest = lower(lowest, limit);
    }
    lowest
}

/// Returns the lowest limit of a group and of those above it. A limit is in a file of the group's folder.
fn limit_above<R: Files + AllocGlobal>(rt: &R, tree: &str, group: &str, file: &str) -> Option<u64> {
    let mut lowest = None;
    let mut group = group;
    for _ in 0..MOST_GROUPS {
        lowest = lower(lowest, limit_of(rt, tree, group, file));
        let Some((above, _)) = group.rsplit_once('/') else {
            break;
        };
        group = above;
    }
    lowest
}

/// Returns the limit of a group, if it has one.
fn limit_of<R: Files + AllocGlobal>(rt: &R, tree: &str, group: &str, file: &str) -> Option<u64> {
    let path = format!(in rt.alloc(); "{tree}{group}/{file}").ok()?;
    let limit = fs::read_to_string(rt, path.as_str()).ok()?;
    limit.trim().parse().ok()
}
