// The items of a slice once more, in a list of its own that takes no memory.
ghost use Rattle.std.specs.Prelude.{◌≡◌, ◌≤◌, length};

use arrayvec::ArrayVec;

/// The items of a slice in a list of its own, which has room for at least as many.
pub fn copied_items<T: Copy + Default, const N: usize>(items: &[T]) -> ArrayVec<T, N>
    requires { length items.now ≤ N }
    ensures { result.items ≡ items.now }
{
    let mut copy = ArrayVec::new();
    match copy.try_extend_from_slice(items) {
        Ok(()) => copy,
        Err(_) => unreachable!(),
    }
}
