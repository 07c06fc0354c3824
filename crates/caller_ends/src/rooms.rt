// What is put into the caller's buffers.
ghost use Rattle.std.specs.Prelude.{◌≤◌, length};
ghost use Rattle.caller_ends.specs.Rooms.{StandAtFront};

/// Puts `items` at the front of `room`, which has room for them.
pub fn put_front<T: Copy>(items: &[T], room: &mut [T])
    requires { length items.now ≤ length room.old }
    ensures { StandAtFront items.now room.old room.new }
{
    let (front, _) = room.split_at_mut(items.len());
    front.copy_from_slice(items);
}
