//! Results as words.

use crate::words::Stop;
use vod_io::Failed;

/// Prints `;` between two results.
pub fn separate(answer: &mut String) -> Result<(), Stop> {
    if !answer.is_empty() {
        answer.push_str(" ;")?;
    }
    Ok(())
}

/// Prints whether a call failed.
pub fn push_done(answer: &mut String, done: Result<(), Failed>) -> Result<(), Stop> {
    match done {
        Ok(()) => answer.push_str(" ok")?,
        Err(Failed) => answer.push_str(" Failed")?,
    }
    Ok(())
}

/// Prints a number, or that the call failed.
pub fn push_number(answer: &mut String, number: Result<u64, Failed>) -> Result<(), Stop> {
    match number {
        Ok(number) => write!(answer, " {number}")?,
        Err(Failed) => answer.push_str(" Failed")?,
    }
    Ok(())
}
