// The checksum of a file's records under its name for C.
#![tactic(auto)]

ghost use Rattle.scan.specs.Checksum.{Sums};

// The sum over the records of the file up to the first that is cut or refused, for callers in C or Rust.
#[unsafe(no_mangle)]
pub extern "C" fn scan_checksum(houses: u8, bytes: &[u8]) -> u64
    ensures { Sums houses bytes.now result }
{
    scan::checksum::scan_checksum(houses, bytes)
}
