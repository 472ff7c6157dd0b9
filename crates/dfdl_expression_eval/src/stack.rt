// The stacks of an evaluation.
ghost use Rattle.std.specs.Prelude.{◌≡◌, ◌-◌, ◌<◌, ◌≤◌, ◌++◌, ◌∷◌, [], take, drop, length, OnOk, IsOk, vec_capacity};

use super::env::OutOfMemory;
use super::scratch::Frame;
use dfdl_value::Value;

pub(crate) fn put_frame(frames: &mut Vec<Frame>, frame: Frame) -> Result<(), OutOfMemory>
    ensures items { OnOk result (frames.new.items ≡ frames.old.items ++ frame ∷ []) }
    ensures room { length frames.old.items < vec_capacity frames.old → IsOk result }
    ensures capacity { vec_capacity frames.old ≤ vec_capacity frames.new }
{
    frames.push(frame).map_err(|_| OutOfMemory)
}

pub(crate) fn put_value(values: &mut Vec<Value>, value: Value) -> Result<(), OutOfMemory>
    ensures items { OnOk result (values.new.items ≡ values.old.items ++ value ∷ []) }
    ensures room { length values.old.items < vec_capacity values.old → IsOk result }
    ensures capacity { vec_capacity values.old ≤ vec_capacity values.new }
{
    values.push(value).map_err(|_| OutOfMemory)
}

/// The last values.
pub(crate) fn last_of(values: &[Value], count: usize) -> &[Value]
    requires { count ≤ length values.now }
    ensures { result.now ≡ drop (length values.now - count) values.now }
{
    let first = values.len() - count;
    &values[first..]
}

/// Takes the last values away.
pub(crate) fn close(values: &mut Vec<Value>, count: usize)
    requires { count ≤ length values.old.items }
    ensures items { values.new.items ≡ take (length values.old.items - count) values.old.items }
    ensures capacity { vec_capacity values.old ≤ vec_capacity values.new }
{
    let left = values.len() - count;
    values.truncate(left);
}
