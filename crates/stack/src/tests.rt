// Uses of the stack, each with what it concludes from the stack's contracts alone.
ghost use Rattle.std.specs.Prelude.{◌≡◌, ◌-◌, ◌<◌, ◌≤◌, length, OnSome, slice_set};
ghost use Rattle.stack.specs.Calls.{places};

use super::*;

// An example of a record: an open routine's number, and that of the event that called it. This crate knows of no watcher.
#[derive(Clone, Copy, PartialEq, Eq, Debug)]
struct Open {
    routine: u16,
    call: u32,
}

// The place freed by the pop is the one that the push fills.
fn replace_top<T: Copy>(stack: &mut Stack<'_, T>, x: T) -> Option<T>
    ensures filled { 0 < stack.old.len → places stack.new ≡ slice_set (places stack.old) (stack.old.len - 1) x }
    ensures len { stack.new.len ≡ stack.old.len }
    ensures lent { stack.new.items.ghost_name ≡ stack.old.items.ghost_name }
{
    let top = stack.pop()?;
    let _ = stack.push(x);
    Some(top)
}

// Two records on a lent list: they stand in its first places, and every other place is as it was.
fn open_two(list: &mut [Open], a: Open, b: Open)
    ensures { 2 ≤ length list.old → list.new ≡ slice_set (slice_set list.old 0 a) 1 b }
{
    let mut stack = Stack::new(list, 0);
    let _ = stack.push(a);
    let _ = stack.push(b);
}

// What was pushed together comes back together, in the same order.
fn there_and_back<T: Copy>(stack: &mut Stack<'_, T>, xs: &[T], out: &mut [T]) -> Option<()>
    ensures back { OnSome result (length out.old ≡ length xs.now → out.new ≡ xs.now) }
{
    stack.push_all(xs).ok()?;
    stack.pop_all(out).ok()?;
    Some(())
}

fn opened(routine: u16) -> Open {
    Open { routine, call: 2 }
}

#[test]
fn one_at_a_time(rt: HostRuntime) {
    let mut list = [opened(0); 2];
    open_two(&mut list, opened(7), opened(8));
    let mut stack = Stack::new(&mut list, 2);
    assert_eq!(rt; stack.push(opened(9)), Err(opened(9)));
    assert_eq!(rt; replace_top(&mut stack, opened(9)), Some(opened(8)));
    assert_eq!(rt; stack.pop(), Some(opened(9)));
    assert_eq!(rt; stack.pop(), Some(opened(7)));
    assert_eq!(rt; stack.pop(), None);
}

#[test]
fn all_or_nothing(rt: HostRuntime) {
    let mut list = [0u16; 5];
    let mut out = [0; 2];
    let mut stack = Stack::new(&mut list, 9);
    assert_eq!(rt; stack.len(), 5);
    assert!(rt; stack.pop_all(&mut [0; 6]).is_err());
    assert!(rt; stack.pop_all(&mut out).is_ok());
    assert!(rt; stack.push_all(&[1, 2, 3]).is_err());
    assert!(rt; there_and_back(&mut stack, &[1, 2], &mut out).is_some());
    assert_eq!(rt; out, [1, 2]);
    assert_eq!(rt; list, [0, 0, 0, 1, 2]);
}
