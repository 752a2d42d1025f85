//! Lists that were given room before.

ghost use Rattle.std.specs.Prelude.{◌≡◌, ◌-◌, ◌≤◌, ◌++◌, length};
ghost use Rattle.std.specs.Vec.{vec_capacity, vec_len};

// Appends the items to the list, in room that was made for them.
pub(crate) fn put_out<T: Drop>(list: &mut Vec<T>, mut more: Vec<T>)
    requires { length more.items ≤ vec_capacity list.old - vec_len list.old }
    ensures { list.new.items ≡ list.old.items ++ more.items }
{
    let _put = list.append(&mut more);
}
