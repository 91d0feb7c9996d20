//! Keeps a tree of files in memory.
ghost use Rattle.std.specs.Prelude.{◌≡◌, ℕ, ◌^◌, ◌-◌, ◌≤◌, ◌<◌, ◌||◌, List, length, not, true, IfOk, string_bytes};
ghost use Rattle.std.specs.List.{list_any};
ghost use Rattle.std.specs.Option.{option_map};
ghost use Rattle.std.specs.Str.{bytes_eq};
ghost use Rattle.ports.specs.Tree.{Reads, SameFiles, file_at};
ghost use Rattle.ports.specs.memory.MemTree.{contents, is_one_of, mem_tree_knows, mem_tree_plan, mem_tree_seen};
ghost use Rattle.ports.specs.memory.Plan.{is_due, is_tree_call, number_after, device_plan};
ghost use Rattle.ports.specs.declared.memory.plan.TreeCall.TheVariants.{Any};

use crate::memory::plan::{Plan, TreeCall, tree_call_fails};
use crate::{DeviceFault, Tree};
use std::alloc::{AllocError, Global};
use support::tables::{SipMap, SipSet, new_map, set_with_capacity};

/// Holds a tree of files in memory.
pub struct MemTree {
    files: SipMap<String, Vec<u8>>,
    known: Option<SipSet<String>>,
    plan: Plan<TreeCall>,
    failures: u64,
}

impl Drop for MemTree {
    fn drop(self) {
        let MemTree {
            files: _,
            known: _,
            plan: _,
            failures: _,
        } = self;
    }
}

// Returns the bytes of the file with this path.
fn find<'a>(files: &'a SipMap<String, Vec<u8>>, path: &str) -> Option<&'a [u8]>
    ensures { option_map (λ bytes. bytes.now) result ≡ file_at (contents files.now.entries) path.now }
{
    match files.get(path) {
        Some(bytes) => Some(bytes.as_slice()),
        None => None,
    }
}

// Copies bytes from position `at` on into the buffer, at most `piece`, and returns how many.
fn read_part(bytes: &[u8], at: usize, piece: usize, buf: &mut [u8]) -> usize
    requires { 0 < piece }
    ensures within { result ≤ length buf.old }
    ensures bytes { Reads bytes.now at (length buf.old) result buf.new }
{
    if bytes.len() <= at {
        return 0;
    }
    let rest = &bytes[at..];
    let count = rest.len().min(buf.len()).min(piece);
    buf[..count].copy_from_slice(&rest[..count]);
    count
}

// Returns the set of these paths.
fn known_paths(alloc: Global, paths: Vec<String>) -> Result<SipSet<String>, AllocError>
    ensures { IfOk result (λ known. (path : List ℕ) → is_one_of known.keys path ≡ is_one_of paths.items path) }
{
    let mut known = set_with_capacity(alloc, paths.len())?;
    for path in paths {
        known.insert(path)?;
    }
    Ok(known)
}

impl MemTree {
    /// Returns a tree with these paths and bytes. If a path occurs twice, its first bytes count.
    pub fn new(alloc: Global, mut files: Vec<(String, Vec<u8>)>) -> Result<Self, AllocError>
        ensures files { IfOk result (λ tree. SameFiles (contents files.items) (mem_tree_seen tree).files) }
        ensures failures { IfOk result (λ tree. (mem_tree_seen tree).failures ≡ 0) }
        ensures plan { IfOk result (λ tree. mem_tree_plan tree ≡ record { piece = 2 ^ 64 - 1; kind = Any; number = 0 }) }
        ensures known { IfOk result (λ tree. (path : List ℕ) → mem_tree_knows tree path ≡ true) }
    {
        let mut found = new_map(alloc);
        while let Some((path, bytes)) = files.pop() {
            found.insert(path, bytes)?;
        }
        Ok(MemTree {
            files: found,
            known: None,
            plan: Plan::new(usize::MAX, TreeCall::Any, 0),
            failures: 0,
        })
    }

    /// Returns the same tree with a plan: `read_at` gives at most `piece` bytes a call, and the call that `fail` names fails once.
    ///
    /// `fail` gives the kind of the call and its number among the calls of that kind, from 1. Later calls succeed again.
    pub fn with_plan(self, piece: usize, fail: Option<(TreeCall, u64)>) -> Self
        requires { 0 < piece }
        ensures seen { mem_tree_seen result ≡ mem_tree_seen self }
        ensures plan { mem_tree_plan result ≡ device_plan Any piece fail }
        ensures known { (path : List ℕ) → mem_tree_knows result path ≡ mem_tree_knows self path }
    {
        let MemTree {
            files,
            known,
            plan: _,
            failures,
        } = self;
        MemTree {
            files,
            known,
            plan: Plan::told(TreeCall::Any, piece, fail),
            failures,
        }
    }

    /// Returns the same tree, restricted to these paths: each call for another path returns a device fault.
    pub fn only(self, alloc: Global, paths: Vec<String>) -> Result<Self, AllocError>
        ensures seen { IfOk result (λ tree. mem_tree_seen tree ≡ mem_tree_seen self) }
        ensures plan { IfOk result (λ tree. mem_tree_plan tree ≡ mem_tree_plan self) }
        ensures known { IfOk result (λ tree. (path : List ℕ) → mem_tree_knows tree path ≡ is_one_of paths.items path) }
    {
        let known = known_paths(alloc, paths)?;
        let MemTree {
            files,
            known: _,
            plan,
            failures,
        } = self;
        Ok(MemTree {
            files,
            known: Some(known),
            plan,
            failures,
        })
    }

    // Counts this call, and returns whether it fails.
    fn fails(&mut self, call: TreeCall, path: &str) -> bool
        ensures fails { result
            ≡ (is_due (is_tree_call self.old.plan.kind call) self.old.plan.number || not (mem_tree_knows self.old path.now)) }
        ensures number { self.new.plan.number ≡ number_after (is_tree_call self.old.plan.kind call) self.old.plan.number }
        ensures kind { self.new.plan.kind ≡ self.old.plan.kind }
        ensures piece { self.new.plan.piece ≡ self.old.plan.piece }
        ensures known { self.new.known ≡ self.old.known }
        ensures seen { mem_tree_seen self.new ≡ mem_tree_seen self.old }
    {
        let is_planned = tree_call_fails(&mut self.plan, call);
        match &self.known {
            Some(known) => is_planned || !known.contains(path),
            None => is_planned,
        }
    }
}

impl Tree for MemTree {
    ghost seen = { mem_tree_seen };

    fn failures(&self) -> u64 {
        self.failures
    }

    fn size(&mut self, path: &str) -> Result<Option<u64>, DeviceFault> {
        if self.fails(TreeCall::Size, path) {
            self.failures += 1;
            return Err(DeviceFault);
        }
        match find(&self.files, path) {
            Some(bytes) => Ok(Some(bytes.len() as u64)),
            None => Ok(None),
        }
    }

    fn read_at(&mut self, path: &str, at: u64, buf: &mut [u8]) -> Result<usize, DeviceFault> {
        if self.fails(TreeCall::ReadAt, path) {
            self.failures += 1;
            return Err(DeviceFault);
        }
        let Some(bytes) = find(&self.files, path) else {
            return Ok(0);
        };
        Ok(read_part(bytes, at as usize, self.plan.piece, buf))
    }
}
