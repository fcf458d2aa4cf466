//! Executes commands to a set and a map of numbers, one from each line of standard input.
#![tactic(auto)]

use indexset_bench::run;
use indexset_lines::RunFault;
use std::io::{self, BufReader, BufWriter};
use std::process::ExitCode;

/// Runs from standard input to standard output.
fn serve(rt: &HostRuntime) -> Result<(), RunFault> {
    let alloc = rt.alloc();
    let mut reader = BufReader::new(alloc, rt.reader()).map_err(|_| RunFault::Memory)?;
    let mut writer = BufWriter::new(alloc, io::writer(rt)).map_err(|_| RunFault::Memory)?;
    run(alloc, &mut reader, &mut writer)
}

fn main(rt: HostRuntime) -> ExitCode {
    match serve(&rt) {
        Ok(()) => ExitCode::SUCCESS,
        Err(fault) => {
            let _ = eprintln!(&rt; "{fault}");
            ExitCode::from(fault.status())
        }
    }
}
