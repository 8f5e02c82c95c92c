//! The time to parse lines of JSON, and to print them.
use serde_json::Value;
use std::io;
use std::io::{BufRead, BufReader, BufWriter, Write};

/// Parses each line and prints nothing.
pub(crate) fn parse(rt: &HostRuntime) -> anyhow::Result<()> {
    let alloc = rt.alloc();
    for line in BufReader::new(alloc, rt.reader())?.lines(alloc) {
        drop(Value::from_str(alloc, line?.as_str())?);
    }
    Ok(())
}

/// Parses and prints each line.
pub(crate) fn parse_and_print(rt: &HostRuntime) -> anyhow::Result<()> {
    let alloc = rt.alloc();
    let mut writer = BufWriter::new(alloc, io::writer(rt))?;
    for line in BufReader::new(alloc, rt.reader())?.lines(alloc) {
        let value = Value::from_str(alloc, line?.as_str())?;
        let text = value.to_string(alloc)?;
        writer.write_all(text.as_bytes())?;
        writer.write_all(b"\n")?;
    }
    writer.flush()?;
    Ok(())
}
