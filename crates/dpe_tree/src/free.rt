//! The free places, the last of which is used next.
ghost use Rattle.std.specs.Prelude.{◌≡◌, ◌++◌, ◌∷◌, [], ◌<◌, vec_len, vec_capacity};

/// Takes the last of them.
pub fn next_free(free: &mut Vec<u32>) -> u32
    requires { 0 < vec_len free.old }
    ensures places { free.old.items ≡ free.new.items ++ result ∷ [] }
    ensures capacity { vec_capacity free.new ≡ vec_capacity free.old }
{
    match free.pop() {
        Some(place) => place,
        None => unreachable!(),
    }
}

/// Gives a place back. It takes no memory.
pub fn give_back(free: &mut Vec<u32>, place: u32)
    requires { vec_len free.old < vec_capacity free.old }
    ensures places { free.new.items ≡ free.old.items ++ place ∷ [] }
    ensures capacity { vec_capacity free.new ≡ vec_capacity free.old }
{
    free.push_reserved(place);
}
