//! Writes test vectors for clients. Each line of standard input has a document and two concurrent
//! operations; each line of standard output has them with the server's results.
#![tactic(auto)]

use sdb_apply::{ApplyFault, apply};
use sdb_component::{Op, op_value, read_op};
use sdb_transform::{Fault, cross};
use sdb_value::{Json, from_value, to_value};
use serde_json::{Value, json};
use std::alloc::Global;
use std::io;
use std::io::{BufRead, BufReader, BufWriter, Write};

fn main(rt: HostRuntime) -> anyhow::Result<()> {
    let alloc = rt.alloc();
    let mut writer = BufWriter::new(alloc, io::writer(&rt))?;
    for line in BufReader::new(alloc, rt.reader())?.lines(alloc) {
        let vector = Value::from_str(alloc, line?.as_str())?;
        let text = with_results(alloc, vector)?.to_string(alloc)?;
        writer.write_all(text.as_bytes())?;
        writer.write_all(b"\n")?;
    }
    writer.flush()?;
    Ok(())
}

// Returns the vector with its results: the document after each operation, both operations
// transformed against each other, and the document after the left operation and the right one
// transformed against it. A refusal stands as null.
fn with_results(alloc: Global, vector: Value) -> anyhow::Result<Value> {
    let document = document_of(alloc, &vector)?;
    let left = op_of(alloc, &vector, "left")?;
    let right = op_of(alloc, &vector, "right")?;
    let after_left = applied(alloc, Some(&document), &left)?;
    let after_right = applied(alloc, Some(&document), &right)?;
    let (crossed_left, crossed_right, after_both) = match cross(alloc, &left, &right) {
        Ok(crossed) => {
            let after_both = applied(alloc, after_left.as_ref(), &crossed.right)?;
            (
                op_value(alloc, &crossed.left)?,
                op_value(alloc, &crossed.right)?,
                after_both,
            )
        }
        Err(Fault::NotTransformed) => (Value::Null, Value::Null, None),
        Err(error) => return Err(error.into()),
    };
    let line = json!(in alloc; {
        "afterBoth": outcome(alloc, after_both.as_ref())?,
        "afterLeft": outcome(alloc, after_left.as_ref())?,
        "afterRight": outcome(alloc, after_right.as_ref())?,
        "crossedLeft": crossed_left,
        "crossedRight": crossed_right,
        "vector": vector
    })?;
    Ok(line)
}

// Returns the document of the vector; null without one.
fn document_of(alloc: Global, vector: &Value) -> anyhow::Result<Json> {
    match vector.get("document") {
        Some(document) => Ok(from_value(alloc, document)?),
        None => Ok(Json::Null),
    }
}

// Returns the operation of this name; one without components if the vector has none.
fn op_of(alloc: Global, vector: &Value, name: &str) -> anyhow::Result<Op> {
    match vector.get(name) {
        Some(op) => Ok(read_op(alloc, op)?),
        None => Ok(Op::new(Vec::new(alloc))),
    }
}

// Applies the operation to a copy of the document. Without a document, or if the operation is
// refused, there is none.
fn applied(alloc: Global, document: Option<&Json>, op: &Op) -> anyhow::Result<Option<Json>> {
    let Some(document) = document else {
        return Ok(None);
    };
    let mut copy = document.try_clone(alloc)?;
    match apply(alloc, &mut copy, op) {
        Ok(()) => Ok(Some(copy)),
        Err(refused) => match refused.why {
            ApplyFault::NotApplied => Ok(None),
            error => Err(error.into()),
        },
    }
}

// Returns `{"data": document}`, or null without a document.
fn outcome(alloc: Global, document: Option<&Json>) -> anyhow::Result<Value> {
    match document {
        Some(document) => Ok(json!(in alloc; {"data": to_value(alloc, document)?})?),
        None => Ok(Value::Null),
    }
}
