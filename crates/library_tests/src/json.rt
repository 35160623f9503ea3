//! The JSON text of each plain record, which is read again as the record. Its fields stand under their names, in the
//! order of the record; an id is its number.

use crate::assertions::{equal, holds};
use etagere::{
    AllocId, Allocation, AllocatorOptions, DEFAULT_OPTIONS, Point, Rectangle, Size, point2, size2,
};
use serde::{Deserialize, Serialize};
use std::fmt::Debug;
use std::process::Abort;
use std::test::Fail;

fn is_written<'a, T: Serialize + Deserialize<'a> + PartialEq + Debug + Drop>(
    rt: &(impl AllocGlobal + Abort),
    value: &T,
    text: &'a str,
) -> Result<(), Fail> {
    let written = serde_json::to_string(rt.alloc(), value)?;
    equal(rt, &written.as_str(), &text);
    let read: T = serde_json::from_str(rt.alloc(), text)?;
    holds(rt, read == *value);
    Ok(())
}

#[test]
fn records_have_their_fields_by_name(rt: HostRuntime) -> Result<(), Fail> {
    let min: Point = point2(-1, 2);
    let max = point2(30, 2147483647);
    let size: Size = size2(4, -5);
    let rectangle = Rectangle { min, max };
    let id = AllocId::deserialize(4294967295);
    let allocation = Allocation { id, rectangle };
    is_written(&rt, &min, r#"{"x":-1,"y":2}"#)?;
    is_written(&rt, &size, r#"{"width":4,"height":-5}"#)?;
    is_written(
        &rt,
        &rectangle,
        r#"{"min":{"x":-1,"y":2},"max":{"x":30,"y":2147483647}}"#,
    )?;
    is_written(&rt, &id, "4294967295")?;
    is_written(
        &rt,
        &allocation,
        r#"{"id":4294967295,"rectangle":{"min":{"x":-1,"y":2},"max":{"x":30,"y":2147483647}}}"#,
    )?;
    let options: AllocatorOptions = DEFAULT_OPTIONS;
    is_written(
        &rt,
        &options,
        r#"{"alignment":{"width":1,"height":1},"vertical_shelves":false,"num_columns":1}"#,
    )
}
