//! Lists with room.
ghost use Rattle.std.specs.Prelude.{◌≡◌, ◌+◌, ◌<◌, ◌≤◌, vec_capacity, vec_len};
ghost use Rattle.std.specs.List.{insert};

/// Puts an element at a place, where there is room for one. It takes no memory.
pub fn insert_within<T: Drop>(list: &mut Vec<T>, place: usize, element: T)
    requires room { vec_len list.old < vec_capacity list.old }
    requires place { place ≤ vec_len list.old }
    ensures items { list.new.items ≡ insert list.old.items place element }
    ensures len { vec_len list.new ≡ vec_len list.old + 1 }
    ensures capacity { vec_capacity list.new ≡ vec_capacity list.old }
{
    let _room_is_there = list.insert(place, element);
}
