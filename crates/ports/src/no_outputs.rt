//! Provides outputs that keep nothing.
ghost use Rattle.std.specs.Prelude.{◌≡◌, None};
ghost use Rattle.ports.specs.NoOutputs.{untold_state};

use crate::fault::DeviceFault;
use crate::outputs::Outputs;
use std::alloc::Global;

/// Accepts all outputs and keeps only the name of the open one. It serves runs of which something other than the outputs is wanted. A call
/// fails only if no memory is left for that name.
#[derive(Drop)]
pub struct NoOutputs {
    alloc: Global,
    current: Option<String>,
    failures: u64,
}

impl NoOutputs {
    /// Returns outputs of which none is open.
    pub fn new(alloc: Global) -> NoOutputs
        ensures { ⟦<NoOutputs as Outputs>⟧.seen result ≡ untold_state None 0 }
    {
        NoOutputs {
            alloc,
            current: None,
            failures: 0,
        }
    }
}

impl Outputs for NoOutputs {
    ghost seen = { λ n. untold_state n.current n.failures };

    fn failures(&self) -> u64 {
        self.failures
    }

    fn open(&mut self, name: &str) -> Result<(), DeviceFault> {
        let Ok(name) = String::from_str(self.alloc, name) else {
            self.failures += 1;
            return Err(DeviceFault);
        };
        self.current = Some(name);
        Ok(())
    }

    fn close(&mut self) -> Result<(), DeviceFault> {
        self.current = None;
        Ok(())
    }

    fn put(&mut self, bytes: &[u8]) -> Result<usize, DeviceFault> {
        Ok(bytes.len())
    }

    fn log(&mut self, bytes: &[u8]) -> Result<usize, DeviceFault> {
        Ok(bytes.len())
    }

    fn fault(&mut self, bytes: &[u8]) -> Result<usize, DeviceFault> {
        Ok(bytes.len())
    }
}
