//! Tests the library: every call that `docs/LIBRARY.md` lists, by its path below `meson`, and runs and templates over devices that fail. The
//! expected values come from the Meson manual and from the definitions of `docs/PROVED.md`, never from what the program prints.
#![tactic(auto)]

#[cfg(test)]
mod build_calls;
#[cfg(test)]
mod device_calls;
#[cfg(test)]
mod evaluation;
#[cfg(test)]
mod failing_runs;
#[cfg(test)]
mod failing_templates;
#[cfg(test)]
mod language;
#[cfg(test)]
mod memory_caller;
#[cfg(test)]
mod named_calls;
#[cfg(test)]
mod ninja_calls;
#[cfg(test)]
mod option_calls;
#[cfg(test)]
mod refused_growths;
#[cfg(test)]
mod rows;
#[cfg(test)]
mod run_calls;
#[cfg(test)]
mod shown;
#[cfg(test)]
mod template_calls;
#[cfg(test)]
mod value_calls;
