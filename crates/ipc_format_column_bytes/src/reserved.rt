//! Bytes for which there is room already. What adds them holds the vector itself and no reference to it, asks for no memory, and so keeps
//! its place in registers: the loops over numbers then become copies of many at a time.
ghost use Rattle.std.specs.Prelude.{◌≡◌, ◌+◌, ◌≤◌, ◌++◌, length};
ghost use Rattle.std.specs.Vec.{vec_capacity, vec_len};

/// Adds bytes for which there is room.
#[inline(always)]
pub(crate) fn push_bytes(to: &mut Vec<u8>, bytes: &[u8])
    requires { vec_len to.old + length bytes.now ≤ vec_capacity to.old }
    ensures items { to.new.items ≡ to.old.items ++ bytes.now }
    ensures len { vec_len to.new ≡ vec_len to.old + length bytes.now }
    ensures room { vec_capacity to.new ≡ vec_capacity to.old }
{
    for byte in bytes {
        to.push_reserved(*byte);
    }
}
