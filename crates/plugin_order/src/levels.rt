//! The longest chain from each plugin, or a cycle.
ghost use Rattle.std.specs.Prelude.{◌≡◌, ℕ, ◌+◌, ◌<◌, ◌≤◌, ◌⊎◌, Option, Some, None, IsTrue, IfSome, IfNone, IfOk, length, vec_len, slice_index, drop};
ghost use Rattle.plugin_order.specs.Chains.{IsLongest, IsCycle, IsApart};
ghost use Rattle.plugin_order.specs.Table.{holds, height_of};
ghost use Rattle.plugin_order.specs.Heights.{IsHeight, IsStuck, IsLevels};

use crate::rules::Rules;
use fw_base::NoMemory;
use std::alloc::Global;

/// The heights of all plugins, or plugins in a cycle.
#[derive(Drop)]
pub enum Levels {
    Heights(Vec<u32>),
    Cycle(Vec<usize>),
}

/// The length of the longest chain of rules from each plugin, or a cycle of rules between plugins that differ.
pub fn find_levels(alloc: Global, rules: &Rules) -> Result<Levels, NoMemory>
    ensures { IfOk result (IsLevels rules.now) }
{
    let mut heights = [None; 64];
    while let Some(p) = ready(rules, &heights) {
        heights[p] = Some(height_over(rules, &heights, p));
    }
    match missing(rules.count, &heights) {
        Some(start) => Ok(Levels::Cycle(cycle_from(alloc, rules, &heights, start)?)),
        None => Ok(Levels::Heights(collected(alloc, rules.count, &heights)?)),
    }
}

fn height_at(heights: &[Option<u32>], p: usize) -> Option<u32>
    requires { p < length heights.now }
    ensures { result ≡ height_of heights.now p }
{
    heights[p]
}

/// The first plugin that a rule of p leads to and that has no height yet.
fn waits_on(rules: &Rules, heights: &[Option<u32>], p: usize) -> Option<usize>
    requires room { length heights.now ≡ 64 }
    requires at { p < rules.now.count }
    ensures some { IfSome result (λ q. (q < rules.now.count) × IsTrue (holds rules.now p q) × (height_of heights.now q ≡ None)) }
    ensures none { IfNone result ((q : ℕ) → IsTrue (holds rules.now p q) → height_of heights.now q ≡ None → ⊥) }
{
    for q in 0..rules.count {
        if rules.holds(p, q) && height_at(heights, q).is_none() {
            return Some(q);
        }
    }
    None
}

/// The first plugin that has no height yet, while all that its rules lead to have theirs.
fn ready(rules: &Rules, heights: &[Option<u32>]) -> Option<usize>
    requires { length heights.now ≡ 64 }
    ensures some { IfSome result (λ p. (p < rules.now.count) × (height_of heights.now p ≡ None)
        × ((q : ℕ) → IsTrue (holds rules.now p q) → height_of heights.now q ≡ None → ⊥)) }
    ensures none { IfNone result (IsStuck rules.now heights.now) }
{
    for p in 0..rules.count {
        if height_at(heights, p).is_none() && waits_on(rules, heights, p).is_none() {
            return Some(p);
        }
    }
    None
}

/// One more than the greatest height that a rule of p leads to, or 0 where none does.
fn height_over(rules: &Rules, heights: &[Option<u32>], p: usize) -> u32
    requires room { length heights.now ≡ 64 }
    requires at { p < rules.now.count }
    requires small { (q g : ℕ) → height_of heights.now q ≡ Some g → g ≤ 64 }
    ensures { IsHeight rules.now heights.now p result }
{
    let mut height = 0;
    for q in 0..rules.count {
        if rules.holds(p, q) {
            if let Some(below) = height_at(heights, q) {
                if height <= below {
                    height = below + 1;
                }
            }
        }
    }
    height
}

/// The first plugin without a height.
fn missing(count: usize, heights: &[Option<u32>]) -> Option<usize>
    requires room { length heights.now ≡ 64 }
    requires few { count ≤ 64 }
    ensures some { IfSome result (λ p. (p < count) × (height_of heights.now p ≡ None)) }
    ensures none { IfNone result ((p : ℕ) → p < count → height_of heights.now p ≡ None → ⊥) }
{
    for p in 0..count {
        if height_at(heights, p).is_none() {
            return Some(p);
        }
    }
    None
}

/// The heights of plugins that all have one.
fn collected(alloc: Global, count: usize, heights: &[Option<u32>]) -> Result<Vec<u32>, NoMemory>
    requires room { length heights.now ≡ 64 }
    requires few { count ≤ 64 }
    requires all { (p : ℕ) → p < count → height_of heights.now p ≡ None → ⊥ }
    ensures len { IfOk result (λ all. vec_len all ≡ count) }
    ensures each { IfOk result (λ all. (p : ℕ) → p < count → height_of heights.now p ≡ Some (slice_index all.items p)) }
{
    let mut all = Vec::new(alloc);
    for p in 0..count {
        match height_at(heights, p) {
            Some(height) => all.push(height)?,
            None => unreachable!(),
        }
    }
    Ok(all)
}

/// A cycle, by a walk through plugins without a height: each leads to another, and the walk ends where it comes back.
fn cycle_from(
    alloc: Global,
    rules: &Rules,
    heights: &[Option<u32>],
    start: usize,
) -> Result<Vec<usize>, NoMemory>
    requires room { length heights.now ≡ 64 }
    requires at { start < rules.now.count }
    requires open { height_of heights.now start ≡ None }
    requires stuck { IsStuck rules.now heights.now }
    ensures cycle { IfOk result (λ cycle. IsCycle (holds rules.now) cycle.items) }
    ensures apart { IfOk result (λ cycle. IsApart cycle.items) }
{
    let mut path: Vec<usize> = Vec::new(alloc);
    let mut steps = [None; 64];
    let mut at = start;
    'walk: loop {
        if let Some(step) = step_at(&steps, at) {
            return tail_of(alloc, &path, step);
        }
        steps[at] = Some(path.len());
        path.push(at)?;
        match waits_on(rules, heights, at) {
            Some(next) => at = next,
            None => unreachable!(),
        }
    }
}

fn step_at(steps: &[Option<usize>], p: usize) -> Option<usize>
    requires { p < length steps.now }
    ensures { result ≡ height_of steps.now p }
{
    steps[p]
}

fn tail_of(alloc: Global, path: &[usize], from: usize) -> Result<Vec<usize>, NoMemory>
    requires { from ≤ length path.now }
    ensures { IfOk result (λ tail. tail.items ≡ drop from path.now) }
{
    Ok(Vec::from_slice(alloc, &path[from..])?)
}
