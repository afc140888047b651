//! What is read of lines and how they are printed, in every part.

use case_words::Stop;

/// Prints an answer in a line, and empties it for the next.
pub fn print_line(rt: HostRuntime, out: &mut String) -> Result<(), Stop> {
    println!(rt; "{}", out.as_str())?;
    out.clear();
    Ok(())
}
