//! Published values, computed by the proved code; the file stdout beside src/ has them as published. Where they cannot be written it says so on standard
//! error and stops.
#![tactic(auto)]

use fcs::Register;
use std::io;
use std::process::ExitCode;

fn main(rt: HostRuntime) -> ExitCode {
    let ended = print_all(&rt);
    console::status(console::tell_unwritten(&rt, b"published", ended))
}

fn print_all(rt: &impl Print) -> io::Result<()> {
    print_checks(rt)?;
    print_parity(rt)
}

fn print_checks(rt: &impl Print) -> io::Result<()> {
    let r = Register::fresh().feed(b"123456789").feed(b"\x6E\x90");
    let check = fcs::fcs(b"123456789");
    let bits = r.bits;
    println!(rt; "CRC-16/X-25: the check of 123456789")?;
    println!(rt; "{check:04x}")?;
    println!(rt; "RFC 1662, C.2: the register behind bytes and their check, low byte first")?;
    println!(rt; "{bits:04x}")
}

fn print_parity(rt: &impl Print) -> io::Result<()> {
    let mut message = [0u8; 223];
    message[0] = 1;
    let mut out = [0u8; 32];
    // not refused: so many roots fit, and the message and the output have their lengths
    let _ = parity::make(32, &message, &mut out);
    println!(rt; "SY_IDD_1019s, figure 6-5: the parity of 1 and 222 zeros, R = 32")?;
    print_bytes(rt, &out)?;
    println!(rt; "")
}

fn print_bytes(rt: &impl Print, bytes: &[u8]) -> io::Result<()> {
    for b in bytes {
        print!(rt; "{b:02x}")?;
    }
    Ok(())
}
