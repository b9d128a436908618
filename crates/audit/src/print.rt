// What an audit says, in lines.
use audit_search::Fault;
use orders::Entry;
use std::io;
use std::io::Write;

// Prints that all is sound and the shelves, or the fault. Want of memory says nothing of the ledgers, and has no line.
pub fn write_report<W: Write>(out: &mut W, found: &Result<Vec<Entry>, Fault>) -> io::Result<()> {
    match found {
        Ok(shelves) => {
            writeln!(out, "sound")?;
            for shelf in shelves {
                writeln!(out, "{shelf}")?;
            }
            Ok(())
        }
        Err(Fault::NoMemory) => Ok(()),
        Err(fault) => writeln!(out, "{fault}"),
    }
}
