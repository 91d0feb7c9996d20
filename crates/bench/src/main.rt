//! Measures calls of the libraries. `bench GROUP:MEASURE:OF ..` carries out each measure in turn. For each measure it prints a line with
//! the result, and on the standard error the nanoseconds that the calls took.
//!
//! | Measure | What is measured |
//! |---|---|
//! | `syntax:statements:FILE` | this definition file is parsed |
//! | `values:MEASURE:COUNT` | so many operations on values, of the kinds in `value_measures` |
//! | `options:MEASURE:COUNT` | calls on so many options, of the kinds in `option_measures` |
//! | `template:FILE:NAME=TEXT,..` | the template FILE, written as `FILE.out` with these texts for names; the log goes to standard output |
#![tactic(auto)]

mod measured;
mod option_inputs;
mod option_measures;
mod stop;
mod syntax_measures;
mod template_measures;
mod value_measures;

use crate::measured::Measured;
use crate::stop::Stop;
use std::env;
use std::process::ExitCode;

const USAGE: Stop = Stop("each word is GROUP:MEASURE:OF, as options:words:20");

fn main(rt: HostRuntime) -> ExitCode {
    match report_all(&rt) {
        Ok(()) => ExitCode::SUCCESS,
        Err(stop) => {
            let _ = rt.eprintln(stop.0);
            ExitCode::FAILURE
        }
    }
}

fn report_all(rt: &HostRuntime) -> Result<(), Stop> {
    let words: Vec<String> = env::args(rt)?.collect(rt.alloc())?;
    if words.len() < 2 {
        return Err(USAGE);
    }
    for word in words.iter().skip(1) {
        report(rt, word.as_str())?;
    }
    Ok(())
}

fn report(rt: &HostRuntime, word: &str) -> Result<(), Stop> {
    let (group, rest) = word.split_once(':').ok_or(USAGE)?;
    let (measure, of) = rest.split_once(':').ok_or(USAGE)?;
    let Measured { made, taken } = measure_in(rt, group, measure, of)?;
    println!(rt; "{measure} {made}")?;
    eprintln!(rt; "{}", taken.as_nanos())?;
    Ok(())
}

fn measure_in(rt: &HostRuntime, group: &str, measure: &str, of: &str) -> Result<Measured, Stop> {
    match group {
        "syntax" => syntax_measures::measure(rt, measure, of),
        "values" => value_measures::measure(rt, measure, of),
        "options" => option_measures::measure(rt, measure, of),
        "template" => template_measures::measure(rt, measure, of),
        _ => Err(Stop("the groups are syntax, values, options and template")),
    }
}
