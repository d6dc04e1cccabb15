// Vectors that have room for what they are to hold.
ghost use Rattle.std.specs.Prelude.{◌≡◌, ◌+◌, ◌<◌, ◌≤◌, [], ◌∷◌, ◌++◌, ℕ, length, slice_index, vec_len, vec_capacity};
ghost use Rattle.disk_model.specs.Disk.{overwritten};

/// Adds a value to a list that has room for it.
pub(crate) fn push_within<T: Drop>(list: &mut Vec<T>, value: T)
    requires { vec_len list.old < vec_capacity list.old }
    ensures items { list.new.items ≡ list.old.items ++ value ∷ [] }
    ensures capacity { vec_capacity list.old ≤ vec_capacity list.new }
{
    match list.push(value) {
        Ok(()) => {}
        Err(_) => unreachable!(),
    }
}

/// Adds bytes to a list that has room for them.
pub(crate) fn extend_within(list: &mut Vec<u8>, bytes: &[u8])
    requires { vec_len list.old + length bytes.now ≤ vec_capacity list.old }
    ensures items { list.new.items ≡ list.old.items ++ bytes.now }
    ensures capacity { vec_capacity list.old ≤ vec_capacity list.new }
{
    match list.extend_from_slice(bytes) {
        Ok(()) => {}
        Err(_) => unreachable!(),
    }
}

/// Writes a piece over bytes that have room for it.
pub(crate) fn overwrite(bytes: &mut Vec<u8>, at: usize, piece: &[u8])
    requires within { at ≤ vec_len bytes.old }
    requires room { at + length piece.now ≤ vec_capacity bytes.old }
    ensures items { bytes.new.items ≡ overwritten bytes.old.items at piece.now }
    ensures capacity { vec_capacity bytes.old ≤ vec_capacity bytes.new }
{
    if piece.len() <= bytes.len() - at {
        bytes[at..at + piece.len()].copy_from_slice(piece);
    } else {
        bytes.truncate(at);
        extend_within(bytes, piece);
    }
}

/// Puts other bytes in the place of those that are there, which has room for them.
pub(crate) fn copy_within(list: &mut Vec<u8>, bytes: &[u8])
    requires { length bytes.now ≤ vec_capacity list.old }
    ensures items { list.new.items ≡ bytes.now }
    ensures capacity { vec_capacity list.old ≤ vec_capacity list.new }
{
    list.clear();
    extend_within(list, bytes);
}

/// Cuts bytes to a length, or fills them up to it.
pub(crate) fn set_len_within(list: &mut Vec<u8>, len: usize, fill: u8)
    requires { len ≤ vec_capacity list.old }
    ensures length { length list.new.items ≡ len }
    ensures kept { (place : ℕ) → place < len → place < length list.old.items → slice_index list.new.items place ≡ slice_index list.old.items place }
    ensures capacity { vec_capacity list.old ≤ vec_capacity list.new }
{
    match list.resize(len, fill) {
        Ok(()) => {}
        Err(_) => unreachable!(),
    }
}
