//! Times the writing of a template.

ghost use Rattle.std.specs.Prelude.{◌≡◌, length, IfOk};

use crate::measured::Measured;
use crate::stop::Stop;
use ports::{DeviceFault, DiskOutputs, DiskTree, OutputPlace, Outputs};
use std::alloc::{AllocError, Global};
use std::time::Instant;
use template::{ConfigData, ConfigValue, LINE_LIMIT, PassStop, SetStop, pass};

impl From<DeviceFault> for Stop {
    fn from(_error: DeviceFault) -> Stop {
        Stop("a file or a stream failed")
    }
}

impl From<SetStop> for Stop {
    fn from(_error: SetStop) -> Stop {
        Stop("out of memory")
    }
}

impl From<PassStop> for Stop {
    fn from(_error: PassStop) -> Stop {
        Stop("the template is refused, or a file failed")
    }
}

// Returns so many bytes, each 0.
fn zeros(alloc: Global, count: usize) -> Result<Vec<u8>, AllocError>
    ensures { IfOk result (λ zeros. length zeros.items ≡ count) }
{
    vec![in alloc; 0u8; count]
}

// Returns the data of these words, each a name, `=` and its text, with commas between them.
fn read_settings(alloc: Global, settings: &str) -> Result<ConfigData, SetStop> {
    let mut config = ConfigData::new(alloc);
    for word in settings.split(',') {
        if let Some((name, text)) = word.split_once('=') {
            config.set(name, ConfigValue::Text(String::from_str(alloc, text)?))?;
        }
    }
    Ok(config)
}

/// Writes one template of the folder, and replaces its names by the texts of these settings.
pub fn measure(rt: &HostRuntime, template: &str, settings: &str) -> Result<Measured, Stop> {
    let alloc = rt.alloc();
    let config = read_settings(alloc, settings)?;
    let output = format!(in alloc; "{template}.out")?;
    let mut line = zeros(alloc, LINE_LIMIT)?;
    let mut tree = DiskTree::new(rt, alloc, String::from_str(alloc, ".")?);
    let place = OutputPlace {
        root: String::from_str(alloc, ".")?,
        folder: String::from_str(alloc, ".")?,
    };
    let mut out = DiskOutputs::new(rt, alloc, place, rt.stdout(), rt.stderr())?;
    let start = Instant::now(rt)?;
    out.open(output.as_str())?;
    pass(&mut tree, template, &config, line.as_mut_slice(), &mut out)?;
    out.close()?;
    Measured::since(rt, start, 1)
}
