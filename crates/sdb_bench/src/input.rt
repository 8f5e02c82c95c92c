//! The input of the measurements: one JSON text per line of standard input.
use sdb_component::{Op, read_op};
use sdb_value::{Json, from_value};
use serde_json::Value;
use std::io::{BufRead, BufReader};

/// Returns the value of the first line, and the operations of the other lines.
pub(crate) fn read(rt: &HostRuntime) -> anyhow::Result<(Json, Vec<Op>)> {
    let alloc = rt.alloc();
    let mut value = None;
    let mut ops = Vec::new(alloc);
    for line in BufReader::new(alloc, rt.reader())?.lines(alloc) {
        let json = Value::from_str(alloc, line?.as_str())?;
        match value {
            None => value = Some(from_value(alloc, &json)?),
            Some(_) => ops.push(read_op(alloc, &json)?)?,
        }
    }
    Ok((value.unwrap_or(Json::Null), ops))
}
