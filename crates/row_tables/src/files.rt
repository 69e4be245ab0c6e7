//! The files of a world, in memory.

ghost use Rattle.std.specs.Prelude.{None};

use crate::table::File;
use io_edges::{Fetched, LayerFiles, MemoryFiles};
use std::alloc::{AllocError, Global};
use std::fmt::Write;

/// What stands for fetches for which memory runs out.
const WANT: &str = "memory";

/// Files, with the names that were asked of them.
#[derive(Drop)]
pub(crate) struct AskedFiles {
    files: MemoryFiles,
    wants_memory: bool,
    /// A line for each name, in their order.
    pub asked: String,
}

impl AskedFiles {
    /// These files, of which the fetches of these numbers fail, counted from 1; or each, for want of memory.
    pub(crate) fn new(
        alloc: Global,
        files: Vec<File>,
        fails: &str,
    ) -> Result<AskedFiles, AllocError> {
        let mut failing = Vec::new(alloc);
        for word in fails.split(' ') {
            if let Ok(number) = word.parse::<u64>() {
                failing.push(number)?;
            }
        }
        Ok(AskedFiles {
            files: MemoryFiles::new(files, failing),
            wants_memory: fails == WANT,
            asked: String::new(alloc),
        })
    }
}

impl LayerFiles for AskedFiles {
    ghost files = { λ _. None };

    ghost asked = { λ _. None };

    ghost faults = { λ s. s.files.plan.faults };

    fn fetch(&mut self, name: &str, into: &mut Vec<u8>) -> Fetched {
        if writeln!(self.asked, "asked @{name}@").is_err() || self.wants_memory {
            return Fetched::NoMemory;
        }
        self.files.fetch(name, into)
    }
}
