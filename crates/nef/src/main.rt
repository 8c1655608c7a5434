//! The program `nef`: works a script, from standard input where no option says otherwise, and writes what its commands
//! answer to standard output. The words after the program's name are options. Its stored run cuts a hole into a plate,
//! and then makes 24 by 24 columns out of crossing slabs.
#![tactic(auto)]

use nef_io::{FromReader, IntoWriter};
use nef_shell::program;
use std::env;
use std::process::ExitCode;

fn main(rt: HostRuntime) -> ExitCode {
    program(
        &rt,
        rt.alloc(),
        env::args(&rt),
        &mut FromReader::new(rt.stdin()),
        &mut IntoWriter::new(rt.stdout()),
    )
}
