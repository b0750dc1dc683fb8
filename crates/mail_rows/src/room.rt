//! Lists with room. Nothing here takes memory.
ghost use Rattle.std.specs.Prelude.{◌≡◌, ◌+◌, ◌<◌, ◌≤◌, [], length, vec_capacity, vec_len};
ghost use Rattle.std.specs.List.{insert};

/// Puts an element at a place, where there is room for one.
pub(crate) fn insert_within<T: Drop>(list: &mut Vec<T>, place: usize, element: T)
    requires room { vec_len list.old < vec_capacity list.old }
    requires place { place ≤ length list.old.items }
    ensures items { list.new.items ≡ insert list.old.items place element }
    ensures len { vec_len list.new ≡ vec_len list.old + 1 }
    ensures capacity { vec_capacity list.new ≡ vec_capacity list.old }
{
    let _room_is_there = list.insert(place, element);
}

/// Moves a list into a spare one that has room for it.
pub(crate) fn move_over<T: Drop>(list: &mut Vec<T>, spare: &mut Vec<T>)
    requires empty { spare.old.items ≡ [] }
    requires room { length list.old.items ≤ vec_capacity spare.old }
    ensures list { list.new.items ≡ [] }
    ensures spare { spare.new.items ≡ list.old.items }
    ensures capacity { vec_capacity spare.old ≤ vec_capacity spare.new }
{
    let _room_is_there = spare.append(list);
}
