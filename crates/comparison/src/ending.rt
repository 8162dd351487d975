//! The lines and the status of a program that compares.
use crate::trouble::Trouble;
use std::io;
use std::process::ExitCode;

/// The status where a result differs.
const DIFFERS: u8 = 1;

/// The status where nothing is compared.
const NOT_COMPARED: u8 = 2;

/// Whether a line was printed.
pub fn printed(line: io::Result<()>) -> Result<(), Trouble> {
    match line {
        Ok(()) => Ok(()),
        Err(_) => Err(Trouble::NotPrinted),
    }
}

/// The status of a program by whether all was alike.
pub fn ended(alike: Result<bool, Trouble>) -> ExitCode {
    match alike {
        Ok(true) => ExitCode::from(0),
        Ok(false) => ExitCode::from(DIFFERS),
        Err(_) => ExitCode::from(NOT_COMPARED),
    }
}
