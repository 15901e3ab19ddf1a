//! Checks the texts of its data folder under the four levels, and prints one line for each.
#![tactic(auto)]

use answers::line_of;
use checker::{answer_of, check_text};
use levels::FourLevels;
use std::{fs, io};

// Prints the line that reports the verdict on a text.
fn report(rt: &HostRuntime, text: &[u8]) -> io::Result<()> {
    let verdict = check_text(&FourLevels, text);
    let line = line_of(rt.alloc(), answer_of(verdict))?;
    print!(rt; "{line}")
}

// The file is one text.
fn report_whole(rt: &HostRuntime, name: &str) -> io::Result<()> {
    let text = fs::read(rt, name)?;
    print!(rt; "{name}: ")?;
    report(rt, text.as_slice())
}

// Each line of the file is a text; it is shown, since it has no name.
fn report_lines(rt: &HostRuntime, name: &str) -> io::Result<()> {
    let texts = fs::read_to_string(rt, name)?;
    println!(rt; "{name}:")?;
    for text in texts.lines() {
        print!(rt; "{text}\n    ")?;
        report(rt, text.as_bytes())?;
    }
    Ok(())
}

// The file is a text, and is cut off at every byte.
fn report_cut(rt: &HostRuntime, name: &str) -> io::Result<()> {
    let text = fs::read(rt, name)?;
    for n in 0..text.len() {
        print!(rt; "{name} up to {n}: ")?;
        report(rt, &text[0..n])?;
    }
    Ok(())
}

fn main(rt: HostRuntime) -> io::Result<()> {
    let index = fs::read_to_string(&rt, "index")?;
    for entry in index.lines() {
        match entry.split_once(' ') {
            Some(("whole", name)) => report_whole(&rt, name)?,
            Some(("lines", name)) => report_lines(&rt, name)?,
            Some(("cut", name)) => report_cut(&rt, name)?,
            _ => println!(rt; "{entry}: no such way to read a file")?,
        }
    }
    Ok(())
}
