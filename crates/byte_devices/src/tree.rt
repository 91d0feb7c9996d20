//! Reads a tree of files in slices.
ghost use Rattle.std.specs.Prelude.{◌≡◌, ℕ, ◌≤◌, ◌<◌, ◌++◌, ◌∷◌, [], None, List, OnOk, length, IfOk, IfSome, IfNone, is_some};
ghost use Rattle.std.specs.Option.{option_map};
ghost use Rattle.ports.specs.Tree.{Reads, file_at};
ghost use Rattle.byte_devices.specs.Slices.{HasNoFirst, IsFirst};
ghost use Rattle.byte_devices.specs.SlicesView.{files_of};

use crate::text::first_text;
use indexmap::IndexMap;
use ports::{DeviceFault, Tree};
use std::alloc::{AllocError, Global};
use std::hash::BuildHasherDefault;
use support::tables::SipHasher;
use thiserror::Error;

/// Says why slices are no tree.
#[derive(Clone, Copy, Debug, PartialEq, Eq, Drop, Error)]
pub enum TreeFault {
    /// The slices spell no tree. A path isn't UTF-8 or has no zero byte after it, two paths are the same, or the sizes give another number
    /// of paths or contents.
    #[error("the slices spell no tree of files")]
    Slices,
    /// Memory ran out.
    #[error("out of memory")]
    Memory,
}

impl From<AllocError> for TreeFault {
    ghost use Rattle.byte_devices.specs.declared.tree.TreeFault.TheVariants.{Memory};

    ghost from_gives = { λ _ fault. fault ≡ Memory };

    fn from(_error: AllocError) -> TreeFault {
        TreeFault::Memory
    }
}

/// Holds a tree of files that lie in a caller's slices, none of which is copied.
pub struct SliceTree<'a> {
    files: IndexMap<&'a str, &'a [u8], SipHasher>,
}

impl Drop for SliceTree<'_> {
    fn drop(self) {
        let SliceTree { files: _ } = self;
    }
}

// Holds a file in place, by references to its path and its bytes.
#[derive(Clone, Copy)]
struct Lying<'a> {
    path: &'a str,
    bytes: &'a [u8],
}

// Returns the first file of these slices.
fn first_file<'a>(paths: &'a [u8], size: u64, contents: &'a [u8]) -> Option<Lying<'a>>
    ensures some { IfSome result (λ file. IsFirst paths.now size contents.now file.path.now file.bytes.now) }
    ensures none { IfNone result (HasNoFirst paths.now size contents.now) }
{
    let Some(path) = first_text(paths) else {
        return None;
    };
    let size = size as usize;
    if contents.len() < size {
        return None;
    }
    Some(Lying {
        path,
        bytes: &contents[..size],
    })
}

// Returns the bytes of the file with this path.
fn find<'f, 'a>(files: &'f IndexMap<&'a str, &'a [u8], SipHasher>, path: &str) -> Option<&'a [u8]>
    ensures { option_map (λ bytes. bytes.now) result ≡ file_at (files_of files.now.entries) path.now }
{
    match files.get(path) {
        Some(bytes) => Some(*bytes),
        None => None,
    }
}

// Copies what fits of these bytes from this index on, and returns how many it copied.
fn read_part(bytes: &[u8], at: usize, buf: &mut [u8]) -> usize
    ensures within { result ≤ length buf.old }
    ensures bytes { Reads bytes.now at (length buf.old) result buf.new }
{
    if bytes.len() <= at {
        return 0;
    }
    let rest = &bytes[at..];
    let count = rest.len().min(buf.len());
    buf[..count].copy_from_slice(&rest[..count]);
    count
}

impl<'a> SliceTree<'a> {
    ghost use Rattle.byte_devices.specs.Slices.{Spells};
    ghost use Rattle.byte_devices.specs.SlicesView.{slice_tree_seen};

    /// Returns the tree that these slices spell: the paths, each ended by a zero byte, the sizes of the files, and their bytes, joined.
    pub fn new(
        alloc: Global,
        paths: &'a [u8],
        sizes: &[u64],
        contents: &'a [u8],
    ) -> Result<SliceTree<'a>, TreeFault>
        ensures spelled { IfOk result (λ tree. Spells paths.now sizes.now contents.now (slice_tree_seen tree).files) }
        ensures bad { result ≡ Err TreeFault.Slices → (files : List (List ℕ × List ℕ)) → Spells paths.now sizes.now contents.now files → ⊥ }
    {
        let mut tree = SliceTree {
            files: IndexMap::with_hasher(alloc, BuildHasherDefault::new()),
        };
        let mut path_at = 0;
        let mut byte_at = 0;
        for size in sizes {
            let Some(file) = first_file(&paths[path_at..], *size, &contents[byte_at..]) else {
                return Err(TreeFault::Slices);
            };
            if tree.has(file.path) {
                return Err(TreeFault::Slices);
            }
            tree.add(file)?;
            path_at += file.path.len() + 1;
            byte_at += file.bytes.len();
        }
        if path_at < paths.len() || byte_at < contents.len() {
            return Err(TreeFault::Slices);
        }
        Ok(tree)
    }

    // Returns whether a file has this path.
    fn has(&self, path: &str) -> bool
        ensures { result ≡ is_some (file_at (slice_tree_seen self.now).files path.now) }
    {
        self.files.contains_key(path)
    }

    // Appends a file whose path is new.
    fn add(&mut self, file: Lying<'a>) -> Result<(), AllocError>
        requires { file_at (slice_tree_seen self.old).files file.path.now ≡ None }
        ensures { OnOk result
            ((slice_tree_seen self.new).files ≡ (slice_tree_seen self.old).files ++ (file.entry.path.now, file.entry.bytes.now) ∷ []) }
    {
        self.files.insert(file.path, file.bytes)?;
        Ok(())
    }
}

impl Tree for SliceTree<'_> {
    ghost use Rattle.byte_devices.specs.SlicesView.{slice_tree_seen};

    ghost seen = { slice_tree_seen };

    fn failures(&self) -> u64 {
        0
    }

    fn size(&mut self, path: &str) -> Result<Option<u64>, DeviceFault> {
        match find(&self.files, path) {
            Some(bytes) => Ok(Some(bytes.len() as u64)),
            None => Ok(None),
        }
    }

    fn read_at(&mut self, path: &str, at: u64, buf: &mut [u8]) -> Result<usize, DeviceFault> {
        let Some(bytes) = find(&self.files, path) else {
            return Ok(0);
        };
        Ok(read_part(bytes, at as usize, buf))
    }
}
